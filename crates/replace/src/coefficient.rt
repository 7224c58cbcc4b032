// The coefficient of a product as an f64 (01, "Rewriting"): the float of a constant, which floats are constants, and
// the coefficient 1. A constant is given by its code, the part of its word that is not the kind: 0, -1, 1, -2, 2, ..
// are 0, 1, 2, 3, 4, ..
ghost use Rattle.std.specs.Prelude.{◌≡◌};
ghost use Rattle.std.specs.Float.{binary64};
ghost use Rattle.std.specs.Float.Ieee.{of_int, eq};
ghost use Rattle.spec_tree.specs.Tokens.{constant_at};
ghost use Rattle.spec_rewrite.specs.Rewrite.{constant_of, one};
ghost use Rattle.replace.specs.coefficient.Answers.{constant_answer};
ghost use Rattle.replace.specs.coefficient.Size.{SizeOf};

// The float nearest to the constant with this code: for the constants of 01, and up to 2^53 in magnitude, the constant
// itself.
pub fn float_of(code: u64) -> f64
    ensures { result ≡ of_int binary64 (constant_at code) }
{
    let half = code / 2;
    if code % 2 == 0 {
        return std::num::nearest_u64_to_f64(half);
    }
    -std::num::nearest_u64_to_f64(half + 1)
}

// The number below 10^15 whose float a is. Equal bits tell minus zero, which compares equal to the float of 0, from it.
fn size_of(a: f64) -> Option<u64>
    ensures { SizeOf a result }
{
    if a > -1.0 && a < 1000000000000000.0 {
        let n = std::num::truncating_f64_to_u64(a);
        let y = std::num::nearest_u64_to_f64(n);
        if f64::to_bits(y) == f64::to_bits(a) {
            return Some(n);
        }
    }
    None
}

// The code of the constant that x is: an integer below 10^15 in magnitude, and not minus zero.
pub fn constant_of(x: f64) -> Option<u64>
    ensures { result ≡ constant_answer (constant_of x) }
{
    if x < 0.0 {
        Some(2 * size_of(-x)? - 1)
    } else {
        Some(2 * size_of(x)?)
    }
}

// Whether a coefficient is 1, as a target's must be to be sought among the factors of a product. It is only compared,
// so any float will do.
pub fn is_one(x: f64) -> bool
    ensures { result ≡ eq x one }
{
    x == 1.0
}
