// The layout of a word. Trees stand as words in the order of reading, one for each node (spec_tree/specs/Tokens); an
// answer's rows are laid out alike, with kinds of their own (spec_cse/specs/AnswerRows). All code names kinds and takes
// words apart by these numbers. They are numbers, and no enum, since 01 counts operands by a match over kind numbers, a
// word that is lent may hold any number where its kind stands, and sizes of kinds are compared ("from Branch on").

// A word is kind + KINDS * below. Below a symbol or a constant is its code, below an operation the number of its operands.
pub const KINDS: u64 = 64;

// The kinds that code names, numbered as 01 lists them.
pub const SYM: u64 = 0;

pub const CONST: u64 = 1;

pub const NEG: u64 = 2;

pub const ADD: u64 = 3;

pub const SUB: u64 = 4;

pub const MUL: u64 = 5;

pub const DIV: u64 = 6;

pub const POW: u64 = 7;

// The kinds with arms come last; a Select with a default has a number of its own.
pub const BRANCH: u64 = 26;

pub const SELECT: u64 = 27;

pub const SELECT_OR: u64 = 28;

// A Mul and a Div of two operands.
pub const PRODUCT: u64 = 133;

pub const QUOTIENT: u64 = 134;

// A symbol's code is class + CLASSES * number. Class 0 is a symbol of the list, and its number the row of its name; the others are `__xN` and `__mN`.
pub const CLASSES: u64 = 3;

pub const LET_CLASS: u64 = 1;

pub const MATCH_CLASS: u64 = 2;

// So the word of `__xN` is LET_NAME + NEXT_NAME * N, and that of `__mN` is MATCH_NAME + NEXT_NAME * N.
pub const LET_NAME: u64 = 64;

pub const MATCH_NAME: u64 = 128;

pub const NEXT_NAME: u64 = 192;

// The kinds of an answer's rows that are no nodes: a let; a match on a Branch, on a Select, and on one with a default; a name that a match binds; an arm, with the
// count of its statements and values below; a value of an arm; a result, with nothing below.
pub const LET: u64 = 29;

pub const BRANCH_ROW: u64 = 30;

pub const SELECT_ROW: u64 = 31;

pub const SELECT_OR_ROW: u64 = 32;

pub const NAME: u64 = 33;

pub const ARM: u64 = 34;

pub const VALUE: u64 = 35;

pub const RESULT: u64 = 36;

// So the row of a let of `__xN` is FIRST_LET + NEXT_NAME * N, and that of the name `__mN` is MATCH_NAME_ROW + NEXT_NAME * N.
pub const FIRST_LET: u64 = 93;

pub const MATCH_NAME_ROW: u64 = 161;

// The words of a node row: its kind, whether a Select has a default, its number of fields, and 32 fields (spec_tree/specs/Layout).
pub const ROW_WIDTH: usize = 35;
