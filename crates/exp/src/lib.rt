// exp, after FreeBSD's msun. Reduction: x = k ln2 + r with |r| <= 0.5 ln2, where ln2 is LN2HI + LN2LO and k LN2HI is exact; r is hi - lo.
// Approximation: r (e^r + 1) / (e^r - 1) is 2 + P1 r^2 + .. + P5 r^10, with an error that msun gives as 2^-59. With c = r - (P1 r^2 + ..) that
// makes e^r = 1 + (r c / (2 - c) - lo + hi), and scalbn multiplies by 2^k. msun's analysis gives less than one unit in the last place.
// Regions by hx, the high word of |x|: from 708.39 on NaN, overflow above 709.78, +0 below -745.13; from 1.5 ln2 on k is the whole number
// nearest to x / ln2; above 0.5 ln2 it is 1 or -1, above 2^-28 it is 0; up to there 1 + x. In f32: module `single`.
#![tactic(auto)]

pub mod real;
pub mod single;

ghost use Rattle.std.specs.Prelude.{◌≡◌};
ghost use Rattle.exp.specs.Plan.{primary_s, multiple_s, reduced_s, plain_s};
ghost use Rattle.exp.specs.Constants.{plan_of};
ghost use Rattle.exp.specs.Exp.{special_s, exp_s};

use poly::horner;
use scalbn::real::Scale;
use scalbn::scalbn;
use whole::real::Whole;
use words::bits::{sign, size_word};
use words::real::Real;

// What differs between the widths from the argument reduction on.
pub struct Constants<R: 'static> {
    // The cuts, as hx sees them: the last one up to 0.5 ln2, the first one from 1.5 ln2, the last one of |x| so small that 1 + x serves.
    to_half_ln2: u32,
    from_three_halves_ln2: u32,
    to_tiny: u32,
    minus_half: R,
    ln2hi: R,
    ln2lo: R,
    invln2: R,
    // P1, P2, ..
    p: &'static [R],
}

static EXP64: Constants<f64> = Constants {
    to_half_ln2: 0x3fd62e42,
    from_three_halves_ln2: 0x3ff0a2b2,
    to_tiny: 0x3e300000,
    minus_half: -0.5,
    ln2hi: 6.93147180369123816490e-01, /* 0x3fe62e42, 0xfee00000 */
    ln2lo: 1.90821492927058770002e-10, /* 0x3dea39ef, 0x35793c76 */
    invln2: 1.44269504088896338700e+00, /* 0x3ff71547, 0x652b82fe */
    p: &[
        1.66666666666666019037e-01, /* 0x3FC55555, 0x5555553E */
        -2.77777777770155933842e-03, /* 0xBF66C16C, 0x16BEBD93 */
        6.61375632143793436117e-05, /* 0x3F11566A, 0xAF25DE2C */
        -1.65339022054652515390e-06, /* 0xBEBBBD41, 0xC5D26BF1 */
        4.13813679705723846039e-08, /* 0x3E663769, 0x72BEA4D0 */
    ],
};

const OVERFLOWS: f64 = 709.782712893383973096;

const SUBNORMAL: f64 = -708.39641853226410622;

const VANISHES: f64 = -745.13321910194110842;

// x is now in primary range.
fn primary<R: Scale>(c: &Constants<R>, x: R, hi: R, lo: R, k: i32) -> R
    ensures { R.float result ≡ primary_s (plan_of R.format R.float R.ZERO R.HALF R.ONE R.TWO c.now) (R.float x) (R.float hi) (R.float lo) k }
{
    let xx = x * x;
    let q = x - xx * horner(c.p, xx);
    let y = R::ONE + (x * q / (R::TWO - q) - lo + hi);
    if k == 0 { y } else { scalbn(y, k) }
}

fn multiple<R: Whole>(c: &Constants<R>, x: R, hx: u32, sign: u32) -> i32
    ensures { result ≡ multiple_s (plan_of R.format R.float R.ZERO R.HALF R.ONE R.TWO c.now) (R.float x) hx sign }
{
    if hx >= c.from_three_halves_ln2 {
        if sign == 0 {
            return (c.invln2 * x + R::HALF).whole().number;
        }
        return (c.invln2 * x + c.minus_half).whole().number;
    }
    if sign == 0 {
        return 1;
    }
    -1
}

fn reduced<R: Scale>(c: &Constants<R>, x: R, k: i32) -> R
    ensures { R.float result ≡ reduced_s (plan_of R.format R.float R.ZERO R.HALF R.ONE R.TWO c.now) (R.float x) k }
{
    let kf = R::of_int(k);
    let hi = x - kf * c.ln2hi;
    let lo = kf * c.ln2lo;
    primary(c, hi - lo, hi, lo, k)
}

// Argument reduction.
fn plain<R: Whole + Scale>(c: &Constants<R>, x: R, hx: u32, sign: u32) -> R
    ensures { R.float result ≡ plain_s (plan_of R.format R.float R.ZERO R.HALF R.ONE R.TWO c.now) (R.float x) hx sign }
{
    if hx > c.to_half_ln2 {
        return reduced(c, x, multiple(c, x, hx, sign));
    }
    if hx > c.to_tiny {
        return primary(c, x, x, R::ZERO, 0);
    }
    R::ONE + x
}

// Special cases, from |x| = 708.39... on.
fn special(x: f64, hx: u32, sign: u32) -> f64
    ensures { result ≡ special_s x hx sign }
{
    if x != x {
        return x;
    }
    if x > OVERFLOWS {
        return x * f64::from_bits(0x7fe0000000000000);
    }
    if x < SUBNORMAL {
        if x < VANISHES {
            return 0.0;
        }
        return plain(&EXP64, x, hx, sign);
    }
    plain(&EXP64, x, hx, sign)
}

pub fn exp(x: f64) -> f64
    ensures { result ≡ exp_s x }
{
    // a NaN leaves first: no later look at the bits of x has to allow for one
    if x != x {
        return x;
    }
    let hx = size_word(x);
    if hx >= 0x4086232b {
        return special(x, hx, sign(x));
    }
    plain(&EXP64, x, hx, sign(x))
}
