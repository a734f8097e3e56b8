// logf: log's course with constants of its own: four coefficients, with an error that msun gives as 2^-34.24; a subnormal number is scaled up
// by 2^25. What looks at the pattern, logf and reduced, stands beside log's and not once for both: an f64's pattern is cut into two words and an
// f32's is one, so that one text would need each cut as a constant, and facts that the cuts fit.
ghost use Rattle.std.specs.Prelude.{◌<◌, ◌≡◌, nat_abs};
ghost use Rattle.logarithm.specs.Plan.{reduced_s};
ghost use Rattle.logarithm.specs.Logf.{log32, logf_s};

use crate::{Constants, exponent, near};
use words::bits::{bits_of, of_bits};

const MINUS_ONE: f32 = -1.0;

const X1P25: f32 = 33554432.0; /* 0x1p25f === 2 ^ 25 */

static LOG32: Constants<f32> = Constants {
    ln2_hi: 6.9313812256e-01, /* 0x3f317180 */
    ln2_lo: 9.0580006145e-06, /* 0x3717f7d1 */
    lg_even: &[
        0.40000972152, /* LG2 0xccce13.0p-25 */
        0.24279078841, /* LG4 0xf89e26.0p-26 */
    ],
    lg_odd: &[
        0.66666662693, /* LG1 0xaaaaaa.0p-24 */
        0.28498786688, /* LG3 0x91e9ee.0p-25 */
    ],
};

// Reduces the number whose pattern is ix into [sqrt(2)/2, sqrt(2)].
fn reduced(ix: u32, k: i32) -> f32
    requires { nat_abs k < 64 }
    ensures { result ≡ reduced_s log32 ix k }
{
    let ix = ix as u64 + (0x3f80_0000 - 0x3f35_04f3);
    let k = exponent(k, ix / 0x80_0000, 0x7f);
    let ix = ix % 0x80_0000 + 0x3f35_04f3;
    near(&LOG32, of_bits(ix as u32), k)
}

pub fn logf(x: f32) -> f32
    ensures { result ≡ logf_s x }
{
    // a NaN leaves first: no later look at the bits of x has to allow for one
    if x != x {
        return x;
    }
    let ix = bits_of(x);
    if ix < 0x0080_0000 || ix >= 0x8000_0000 {
        if ix % 0x8000_0000 == 0 {
            return MINUS_ONE / (x * x);
        }
        if ix >= 0x8000_0000 {
            return (x - x) / 0.0;
        }
        return reduced(bits_of(x * X1P25), -25);
    }
    if ix >= 0x7f80_0000 {
        return x;
    }
    if ix == 0x3f80_0000 {
        return 0.0;
    }
    reduced(ix, 0)
}
