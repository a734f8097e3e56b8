// expf: exp's course with constants and cuts of its own. Two coefficients serve, with an error that msun gives as 2^-27.74; up to 2^-14 it is
// 1 + x. The special cases go by the pattern: NaN, overflow from 88.72 on, +0 from -103.97 down.
ghost use Rattle.std.specs.Prelude.{◌≡◌};
ghost use Rattle.exp.specs.Expf.{special_s, expf_s};

use crate::{Constants, plain};
use words::bits::{sign, size_word};

static EXP32: Constants<f32> = Constants {
    to_half_ln2: 0x3eb17218,
    from_three_halves_ln2: 0x3f851593, // hx > 0x3f851592
    to_tiny: 0x39000000,
    minus_half: -0.5,
    ln2hi: 6.9314575195e-01, /* 0x3f317200 */
    ln2lo: 1.4286067653e-06, /* 0x35bfbe8e */
    invln2: 1.4426950216e+00, /* 0x3fb8aa3b */
    p: &[
        1.6666625440e-1, /*  0xaaaa8f.0p-26 */
        -2.7667332906e-3, /* -0xb55215.0p-32 */
    ],
};

// Special cases, from |x| = 87.33655 on.
fn special(x: f32, hx: u32, sign: u32) -> f32
    ensures { result ≡ special_s x hx sign }
{
    if hx > 0x7f800000 {
        return x;
    }
    if hx >= 0x42b17218 && sign == 0 {
        return x * f32::from_bits(0x7f000000);
    }
    if sign == 0 {
        return plain(&EXP32, x, hx, sign);
    }
    if hx >= 0x42cff1b5 {
        return 0.0;
    }
    plain(&EXP32, x, hx, sign)
}

pub fn expf(x: f32) -> f32
    ensures { result ≡ expf_s x }
{
    // a NaN leaves first: no later look at the bits of x has to allow for one
    if x != x {
        return x;
    }
    let hx = size_word(x);
    if hx >= 0x42aeac50 {
        return special(x, hx, sign(x));
    }
    plain(&EXP32, x, hx, sign(x))
}
