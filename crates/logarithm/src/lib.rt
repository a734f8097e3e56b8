// log, the natural logarithm, after FreeBSD's msun. Reduction on the bits: x = 2^k (1 + f) with 1 + f from sqrt(2)/2 to sqrt(2).
// Approximation: with s = f / (2 + f), log(1 + f) = 2 s + s R, where R is LG1 s^2 + .. + LG7 s^14 with an error that msun gives as 2^-58.45; its
// even and its odd coefficients are summed apart. 2 s is f - hfsq + s hfsq with hfsq = f^2 / 2, and ln2 is LN2_HI + LN2_LO, so that
// log(x) = s (hfsq + R) + k LN2_LO - hfsq + f + k LN2_HI, from the small terms on. msun's analysis gives less than one unit in the last place.
// Regions: +-0 gives -inf, below 0 NaN; a subnormal number is scaled up by 2^54; infinity and NaN stay; 1 gives +0. In f32: module `single`.
#![tactic(auto)]

pub mod real;
pub mod single;

ghost use Rattle.std.specs.Prelude.{◌<◌, ◌≡◌, pos, nat_abs, ◌+ℤ◌, ◌-ℤ◌};
ghost use Rattle.logarithm.specs.Plan.{Plan, near_s, reduced_s};
ghost use Rattle.logarithm.specs.Constants.{plan_with};
ghost use Rattle.logarithm.specs.Log.{log64, log_s};

use poly::horner;
use words::bits::{bits_of, of_bits};
use words::real::Real;

const MINUS_ONE: f64 = -1.0;

const X1P54: f64 = 18014398509481984.0; /* 0x1p54 === 2 ^ 54 */

// What `near` has of a width: ln2 in two parts, and the polynomial's even and odd coefficients.
pub struct Constants<R: 'static> {
    ln2_hi: R,
    ln2_lo: R,
    // LG2, LG4, ..
    lg_even: &'static [R],
    // LG1, LG3, ..
    lg_odd: &'static [R],
}

static LOG64: Constants<f64> = Constants {
    ln2_hi: 6.93147180369123816490e-01, /* 3fe62e42 fee00000 */
    ln2_lo: 1.90821492927058770002e-10, /* 3dea39ef 35793c76 */
    lg_even: &[
        3.999999999940941908e-01, /* LG2 3FD99999 9997FA04 */
        2.222219843214978396e-01, /* LG4 3FCC71C5 1D8E78AF */
        1.531383769920937332e-01, /* LG6 3FC39A09 D078C69F */
    ],
    lg_odd: &[
        6.666666666666735130e-01, /* LG1 3FE55555 55555593 */
        2.857142874366239149e-01, /* LG3 3FD24924 94229359 */
        1.818357216161805012e-01, /* LG5 3FC74664 96CB03DE */
        1.479819860511658591e-01, /* LG7 3FC2F112 DF3E5244 */
    ],
};

// log of x * 2 ^ k, for an x from sqrt(2)/2 to sqrt(2), by whatever plan has these constants.
fn near<R: Real>(c: &Constants<R>, x: R, k: i32) -> R
    ensures { (p : Plan) → R.float result ≡ near_s (plan_with p R.format R.float R.HALF R.ONE R.TWO c.now) (R.float x) k }
{
    let f = x - R::ONE;
    let s = f / (R::TWO + f);
    let z = s * s;
    let w = z * z;
    // in this order the compiler does both of f32 at once, as a vector
    let t2 = z * horner(c.lg_odd, w);
    let t1 = w * horner(c.lg_even, w);
    let r = t2 + t1;
    let hfsq = R::HALF * f * f;
    let dk = R::of_int(k);
    s * (hfsq + r) + dk * c.ln2_lo - hfsq + f + dk * c.ln2_hi
}

// k and the exponent whose field is e, where 1's is bias.
fn exponent(k: i32, e: u64, bias: u64) -> i32
    requires k_bound { nat_abs k < 64 }
    requires e_bound { e < 8192 }
    requires bias_bound { bias < 8192 }
    ensures { result ≡ k +ℤ (pos e -ℤ pos bias) }
{
    k + (e as i32 - bias as i32)
}

// Reduces the number whose pattern is ui into [sqrt(2)/2, sqrt(2)].
fn reduced(ui: u64, k: i32) -> f64
    requires { nat_abs k < 64 }
    ensures { result ≡ reduced_s log64 ui k }
{
    let hx = ui / 0x1_0000_0000 + (0x3ff0_0000 - 0x3fe6_a09e);
    let k = exponent(k, hx / 0x10_0000, 0x3ff);
    let hx = hx % 0x10_0000 + 0x3fe6_a09e;
    near(&LOG64, of_bits(hx * 0x1_0000_0000 + ui % 0x1_0000_0000), k)
}

pub fn log(x: f64) -> f64
    ensures { result ≡ log_s x }
{
    // a NaN leaves first: no later look at the bits of x has to allow for one
    if x != x {
        return x;
    }
    let ui = bits_of(x);
    let hx = ui / 0x1_0000_0000;
    if hx < 0x0010_0000 || hx >= 0x8000_0000 {
        if ui % 0x8000_0000_0000_0000 == 0 {
            return MINUS_ONE / (x * x);
        }
        if hx >= 0x8000_0000 {
            return (x - x) / 0.0;
        }
        return reduced(bits_of(x * X1P54), -54);
    }
    if hx >= 0x7ff0_0000 {
        return x;
    }
    if hx == 0x3ff0_0000 && ui % 0x1_0000_0000 == 0 {
        return 0.0;
    }
    reduced(ui, 0)
}
