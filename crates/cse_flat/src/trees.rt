// The trees that the flat answer is made of: those that stand after the rounds, settled, and then the reciprocals of
// the divisors to bind (01, "Reciprocals"). A reciprocal is made when it is needed, in words that are lent.
ghost use Rattle.std.specs.Prelude.{◌≡◌, ◌+◌, ◌-◌, ◌≤◌, ◌<◌, length, get_or};
ghost use Rattle.reciprocals.specs.final.Entries.{final_run};
ghost use Rattle.reciprocals.specs.final.Ready.{Ready, Stands};

use reciprocals::reciprocal::reciprocal;

#[derive(Clone, Copy)]
pub struct FinalTrees<'a> {
    // The words of the trees after the rounds: the results first, and then the bindings by number.
    pub tokens: &'a [u64],
    pub results: usize,
    // Where the divisors to bind stand among them.
    pub places: &'a [u64],
    // The words of the same trees settled, and where each begins there.
    pub settled: &'a [u64],
    pub starts: &'a [u64],
    pub ghost ready: { Ready tokens.now settled.now starts.now places.now results },
}

impl FinalTrees<'_> {
    // How many bindings there are, the reciprocals with them.
    pub fn bindings(&self) -> usize
        ensures { (result ≡ (length self.now.starts.now - self.now.results) + length self.now.places.now) × (result ≤ 1024) }
    {
        self.starts.len() - self.results + self.places.len()
    }

    // Where the settled tree of number i ends: where the next begins, and the last with the words.
    fn end_of(&self, i: usize) -> usize
        requires { i < length self.now.starts.now }
        ensures { result ≡ get_or self.now.starts.now i 0 + length (final_run self.now.results self.now.places.now self.now.tokens.now i) }
    {
        if i + 1 < self.starts.len() {
            self.starts[i + 1] as usize
        } else {
            self.settled.len()
        }
    }

    // Makes the tree of number i at the front of `room`, if it is a reciprocal: how many words it has. A settled tree
    // isn't made.
    pub fn make(&self, i: usize, room: &mut [u64]) -> usize
        requires { (i < length self.now.starts.now + length self.now.places.now) × (length self.now.tokens.now + 2 ≤ length room.old) }
        ensures stands { length self.now.starts.now ≤ i → Stands (final_run self.now.results self.now.places.now self.now.tokens.now i) room.new result }
        ensures inside { result ≤ length room.new }
    {
        if i < self.starts.len() {
            return 0;
        }
        let first = (self.starts.len() - self.results) as u64;
        reciprocal(self.tokens, self.places, first, i - self.starts.len(), room)
    }

    // The words of the tree of number i: a reciprocal's are those that were made.
    pub fn words<'b>(&'b self, i: usize, made: &'b [u64]) -> &'b [u64]
        requires { length self.now.starts.now ≤ i → made.now ≡ final_run self.now.results self.now.places.now self.now.tokens.now i }
        ensures { result.now ≡ final_run self.now.results self.now.places.now self.now.tokens.now i }
    {
        if i < self.starts.len() {
            return &self.settled[self.starts[i] as usize..self.end_of(i)];
        }
        made
    }
}
