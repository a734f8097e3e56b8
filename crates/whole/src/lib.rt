// The whole part, the Rust's `as i32`, which is 0 here from size 2^31 on, and whether x has a fraction, which is right at every size. Both are
// worked out from the fields of the bits.
#![tactic(auto)]

pub mod real;

ghost use Rattle.std.specs.Prelude.{◌≡◌, not, ◌/◌, ◌%◌, ◌^◌, ◌<◌, eqb};
ghost use Rattle.whole.specs.Whole.{small, whole_s, has_fraction_s};

use words::bits::bits_of;

// What there is for a size from 2^31 on, and for a NaN.
const OUTSIDE: i32 = 0;

// The whole part of x, 0 from size 2^31 on and for a NaN; and whether x has a fraction.
#[derive(Clone, Copy)]
pub struct WholePart {
    pub number: i32,
    pub fraction: bool,
}

// q or -q where q is below 2^31, else 0.
fn turned(q: u64, minus: bool) -> i32
    ensures { result ≡ small minus q }
{
    if q >= 0x8000_0000 {
        return OUTSIDE;
    }
    if minus { 0 - q as i32 } else { q as i32 }
}

// ±m / 2^k: the quotient, where it is below 2^31, is the whole part, and there is a fraction where something is left over.
fn divided(m: u64, k: u64, minus: bool) -> WholePart
    requires { k < 64 }
    ensures { (result.number ≡ small minus (m / 2 ^ k)) × (result.fraction ≡ not (eqb (m % 2 ^ k) 0)) }
{
    let one = 1u64 << k;
    let q = m / one;
    let rest = m % one;
    WholePart {
        number: turned(q, minus),
        fraction: rest != 0,
    }
}

pub fn whole(x: f64) -> WholePart
    ensures { (result.number ≡ whole_s x) × (result.fraction ≡ has_fraction_s x) }
{
    let b = bits_of(x);
    let e = b / 0x10_0000_0000_0000 % 2048;
    if e < 1023 {
        // |x| < 1.0
        return WholePart {
            number: 0,
            fraction: b % 0x8000_0000_0000_0000 != 0, // not for +0 and -0
        };
    }
    if e > 1074 {
        // |x| >= 2^52, an infinity or a NaN
        return WholePart {
            number: OUTSIDE,
            fraction: false, // no digit stands behind the point
        };
    }
    let m = b % 0x10_0000_0000_0000 + 0x10_0000_0000_0000;
    divided(m, 1075 - e, b >= 0x8000_0000_0000_0000)
}

// The significand is moved up by 7 places first: then every size from 1 to below 2^31 asks for a division.
pub fn wholef(x: f32) -> WholePart
    ensures { (result.number ≡ whole_s x) × (result.fraction ≡ has_fraction_s x) }
{
    let b = bits_of(x);
    let e = b / 0x80_0000 % 256;
    if e < 127 {
        // |x| < 1.0
        return WholePart {
            number: 0,
            fraction: b % 0x8000_0000 != 0, // not for +0 and -0
        };
    }
    if e > 157 {
        // |x| >= 2^31, an infinity or a NaN
        return WholePart {
            number: OUTSIDE,
            fraction: false, // as from 2^23 on
        };
    }
    let m = (b % 0x80_0000 + 0x80_0000) * 128;
    divided(m as u64, (157 - e) as u64, b >= 0x8000_0000)
}
