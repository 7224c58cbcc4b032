// The word that a record begins with: a kind's name, SelectOr or Root.
ghost use Rattle.std.specs.Prelude.{◌≡◌, [], ◌<◌, get_or};
ghost use Rattle.spec_sheet.specs.Sheet.{words, find};
ghost use Rattle.load.specs.recordwords.Answers.{word_answer};

// The record word of kind k; Root's number comes after the kinds'.
#[tactic(auto, unfolding(spec_sheet::specs::Sheet::words, spec_sheet::specs::Sheet::record_words, spec_tree::specs::Kinds::kinds))]
fn word(k: usize) -> &'static [u8]
    requires { k < 30 }
    ensures { result.now ≡ get_or words k [] }
{
    match k {
        0 => b"Sym",
        1 => b"Const",
        2 => b"Neg",
        3 => b"Add",
        4 => b"Sub",
        5 => b"Mul",
        6 => b"Div",
        7 => b"Pow",
        8 => b"Sin",
        9 => b"Cos",
        10 => b"Tan",
        11 => b"Asin",
        12 => b"Acos",
        13 => b"Atan",
        14 => b"Atan2",
        15 => b"Sinh",
        16 => b"Cosh",
        17 => b"Tanh",
        18 => b"Exp",
        19 => b"Ln",
        20 => b"Log2",
        21 => b"Log10",
        22 => b"Sqrt",
        23 => b"Abs",
        24 => b"Heaviside",
        25 => b"Clamp",
        26 => b"Branch",
        27 => b"Select",
        28 => b"SelectOr",
        _ => b"Root",
    }
}

// The kind that the bytes name, if it is one.
pub fn record_word(s: &[u8]) -> Option<u64>
    ensures { result ≡ word_answer (find 0 s.now words) }
{
    for k in 0..30 {
        if word(k) == s {
            return Some(k as u64);
        }
    }
    None
}
