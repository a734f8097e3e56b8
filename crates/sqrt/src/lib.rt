// sqrt: the square root, rounded once, in u64. A positive x is a 2^52 times a power of 4, a of 53 or 54 binary digits; the root of a 2^52 is found
// digit by digit from the top, 53 of them, and what is over its square says which whole number is nearest. -0, +0, +inf and NaN stay, and what
// is below 0 gives NaN.
#![tactic(auto)]

ghost use Rattle.std.specs.Prelude.{◌≡◌, false, ◌+◌, ◌*◌, ◌^◌, ◌<◌, ◌≤◌};
ghost use Rattle.std.specs.Float.{binary64};
ghost use Rattle.std.specs.Float.Ieee.{of_bits};
ghost use Rattle.std.specs.Float.Ieee.Exact.{HasValue};
ghost use Rattle.sqrt.specs.Sqrt.{sqrt_s};

use words::bits::{bits_of, of_bits};

// The bits of +inf, below which lie those of the positive numbers.
const INFINITY: u64 = 0x7ff0_0000_0000_0000;

// The weight of the exponent's field.
const FIELD: u64 = 0x10_0000_0000_0000;

// The binary digits of a number.
const DIGITS: u32 = 53;

// A positive number m * 2^(b - 2098), where m has 53 binary digits.
#[derive(Drop)]
struct Normal {
    m: u64,
    b: u64,
}

// The number with the bits ix.
fn normalise(ix: u64) -> Normal
    requires { (0 < ix) × (ix < 0x7ff0_0000_0000_0000) }
    ensures has_value { HasValue (of_bits binary64 ix) false (result.m * 2 ^ result.b) (2 ^ 2098) }
    ensures bound { (2 ^ 52 ≤ result.m) × (result.m < 2 ^ 53) × (972 ≤ result.b) × (result.b < 3070) }
{
    let e = ix / FIELD;
    if e == 0 {
        let up = u64::leading_zeros(ix) - 11;
        return Normal {
            m: ix << up,
            b: (1024 - up) as u64,
        };
    }
    Normal {
        m: ix % FIELD + FIELD,
        b: e + 1023,
    }
}

// The whole number nearest to the root of a * 2^52: (r - 1/2)^2 < a * 2^52 < (r + 1/2)^2. Each turn takes two binary digits more of
// a * 2^52, from the top, and finds the next digit of the root: `root` is the root of what is taken, `rest` what is over its square,
// and `left` has the digits not taken yet.
fn nearest_root(a: u64) -> u64
    requires { (0 < a) × (a < 2 ^ 54) }
    ensures { (result * result < a * 2 ^ 52 + result) × (a * 2 ^ 52 ≤ result * result + result) }
{
    let mut left = a * 0x400;
    let mut root: u64 = 0;
    let mut rest: u64 = 0;
    for _ in 0..DIGITS {
        rest = rest * 4 + left / 0x4000_0000_0000_0000;
        left = left % 0x4000_0000_0000_0000 * 4;
        root *= 2;
        if rest > root * 2 {
            rest -= root * 2 + 1;
            root += 1;
        }
    }
    if rest > root { root + 1 } else { root }
}

// The bits of the root of a positive number m * 2^(b - 2098): half the exponent, where an odd b first gives a 2 to m.
fn root_bits(ix: u64) -> u64
    requires { (0 < ix) × (ix < 0x7ff0_0000_0000_0000) }
    ensures { of_bits binary64 result ≡ sqrt_s (of_bits binary64 ix) }
{
    let Normal { m, b } = normalise(ix);
    let a = if b % 2 == 0 { m } else { m * 2 };
    (b / 2 - 1) * FIELD + nearest_root(a)
}

#[tactic(auto, using(crate::proofs::Special::zero_stays, crate::proofs::Special::infinity_stays, crate::proofs::Special::no_root, crate::proofs::Special::of_own_bits))]
pub fn sqrt(x: f64) -> f64
    ensures { result ≡ sqrt_s x }
{
    let ix = bits_of(x);
    if ix % 0x8000_0000_0000_0000 == 0 || ix == INFINITY {
        return x;
    }
    if ix > INFINITY {
        return f64::NAN;
    }
    of_bits(root_bits(ix))
}
