// What is wrong with words that are lent, where more than one thing can be.

#[derive(Clone, Copy, Debug, PartialEq, Eq)]
pub enum Fault {
    // A word lacks operands, something isn't where it is said to be, or there are fewer words than said.
    Broken,
    // Fewer words or places are lent than are needed, or more are given than are worked on.
    NoRoom,
}
