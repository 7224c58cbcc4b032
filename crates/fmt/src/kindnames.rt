// The name of a kind's function as text. A writer that never fails, as those of `emit`.
ghost use Rattle.std.specs.Prelude.{◌≡◌, ◌++◌};
ghost use Rattle.spec_tree.specs.Bytes.{bytes};
ghost use Rattle.spec_tree.specs.Kinds.{printed_name};
ghost use Rattle.fmt.specs.emit.Writing.{Writes};

use crate::emit::{put, put_bytes};

// The leaves, Neg and the infix kinds have none, and there are none past the last kind.
#[tactic(auto, unfolding(spec_tree::specs::Kinds::printed_name, spec_tree::specs::Kinds::kind_at, spec_tree::specs::Kinds::kinds))]
fn kind_name(kind: u64) -> &'static [u8]
    ensures { result.now ≡ printed_name kind }
{
    match kind {
        8 => b"sin",
        9 => b"cos",
        10 => b"tan",
        11 => b"asin",
        12 => b"acos",
        13 => b"atan",
        14 => b"atan2",
        15 => b"sinh",
        16 => b"cosh",
        17 => b"tanh",
        18 => b"exp",
        19 => b"ln",
        20 => b"log2",
        21 => b"log10",
        22 => b"sqrt",
        23 => b"abs",
        24 => b"H",
        25 => b"clamp",
        26 => b"branch",
        27 => b"select",
        28 => b"select_or",
        _ => b"",
    }
}

// The name of a kind's function and its bracket; the bracket alone for a kind that has no name.
pub fn put_kind_name(out: &mut [u8], dry: bool, to: usize, kind: u64) -> usize
    ensures { Writes dry out.old to (printed_name kind ++ bytes "(") out.new result }
{
    let at = put_bytes(out, dry, to, kind_name(kind));
    put(out, dry, at, b'(')
}
