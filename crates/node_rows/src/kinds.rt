// How many operands each kind has.
ghost use Rattle.std.specs.Prelude.{◌≡◌};
ghost use Rattle.spec_tree.specs.Kinds.{kind_at, arity_ok};
ghost use Rattle.node_rows.specs.kinds.Numbers.{kind_number};

// The fewest and the most operands of a kind.
#[derive(Clone, Copy, Debug, PartialEq, Eq)]
pub struct Counts {
    pub fewest: u64,
    pub most: u64,
}

// As `children` counts them, by a match over the kind numbers, as 01 has it: any number may come. A Select has its index
// and 1 to 16 arms, and may have a default.
pub fn operand_counts(kind: u64, default: bool) -> Counts
    ensures { (result.fewest ≡ (kind_at (kind_number kind default)).fewest) × (result.most ≡ (kind_at (kind_number kind default)).most) }
{
    match kind {
        0..=1 => Counts { fewest: 0, most: 0 },
        2 => Counts { fewest: 1, most: 1 },
        3..=7 => Counts { fewest: 2, most: 2 },
        8..=13 => Counts { fewest: 1, most: 1 },
        14 => Counts { fewest: 2, most: 2 },
        15..=24 => Counts { fewest: 1, most: 1 },
        25..=26 => Counts { fewest: 3, most: 3 },
        27 => {
            if default {
                Counts {
                    fewest: 3,
                    most: 18,
                }
            } else {
                Counts {
                    fewest: 2,
                    most: 17,
                }
            }
        }
        _ => Counts { fewest: 1, most: 0 },
    }
}

// Whether a node of a kind may have n operands.
#[tactic(auto, unfolding(spec_tree::specs::Kinds::arity_ok))]
pub fn operands_ok(kind: u64, default: bool, n: u64) -> bool
    ensures { result ≡ arity_ok (kind_number kind default) n }
{
    let counts = operand_counts(kind, default);
    counts.fewest <= n && n <= counts.most
}
