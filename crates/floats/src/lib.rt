// What the other crates ask of binary64 beside its own operators.
#![tactic(auto)]

ghost use Rattle.std.specs.Prelude.{◌≡◌, from_bits, to_bits};
ghost use Rattle.std.specs.Float.{binary64};
ghost use Rattle.std.specs.Float.Ieee.{to_signed};
ghost use Rattle.std.specs.Float.Ieee.Scale.{finite};

// Neither infinite nor NaN.
#[tactic(auto, using(crate::proofs::Finite::finite_test))]
pub fn is_finite(x: f64) -> bool
    ensures { result ≡ finite x }
{
    x.is_finite()
}

// The Rust's `x as i32`: cut toward zero, held to the range of i32, 0 for NaN.
pub fn to_i32(x: f64) -> i32
    ensures { result ≡ to_signed 31 x }
{
    std::num::saturating_f64_to_i32(x)
}

// The bits of x, with every NaN as 7ff8000000000000.
pub fn to_bits(x: f64) -> u64
    ensures { result ≡ to_bits binary64 x }
{
    std::num::f64_to_bits_with_nan(x)
}

// The float that the bits b stand for.
pub fn from_bits(b: u64) -> f64
    ensures { result ≡ from_bits binary64 b }
{
    std::num::f64_from_bits_with_nan(b)
}
