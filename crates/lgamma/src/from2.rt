// lgamma_r of x >= 2.0. Below 8: y is the fraction of x; lgamma(2 + y) = y/2 + y S(y)/R(y), with an error that msun gives as 2^-61.71, and
// lgamma(1 + s) = log(s) + lgamma(s) adds the log of (y + 2) (y + 3) .. up to x - 1. Below 2^58 Stirling's formula,
// (x - 0.5) (log(x) - 1) + W0 + W1/x + W2/x^3 + .. + W6/x^11, with an error that msun gives as 2^-58.74; from there on x (log(x) - 1).
ghost use Rattle.std.specs.Prelude.{◌≡◌, if◌then◌else◌};
ghost use Rattle.std.specs.Float.Ieee.{mul};
ghost use Rattle.lgamma.specs.Plan.{product_s, below8_s, stirling_s};

use crate::width::{Constants, LogGamma};
use poly::horner;
use words::real::Real;

// z, times the factor where the test holds.
fn times<R: Real>(z: R, factor: R, test: bool) -> R
    ensures { R.float result ≡ (if test then mul R.format (R.float z) (R.float factor) else R.float z) }
{
    if test {
        return z * factor;
    }
    z
}

fn product<R: LogGamma>(c: &Constants<R>, y: R, i: i32) -> R
    ensures { R.float result ≡ product_s (R.plan c.now) (R.float y) i }
{
    let z = times(R::ONE, y + c.six, i >= 7);
    let z = times(z, y + c.five, i >= 6);
    let z = times(z, y + c.four, i >= 5);
    let z = times(z, y + c.three, i >= 4);
    z * (y + R::TWO)
}

pub(crate) fn below8<R: LogGamma>(c: &Constants<R>, x: R) -> R
    ensures { R.float result ≡ below8_s (R.plan c.now) (R.float x) }
{
    let i = x.whole().number;
    let y = x - R::of_int(i);
    let p = y * horner(c.s, y);
    let q = horner(c.r, y);
    let r = R::HALF * y + p / q;
    if i >= 3 {
        /* lgamma(1+s) = log(s) + lgamma(s) */
        return r + product(c, y, i).log();
    }
    r
}

pub(crate) fn stirling<R: LogGamma>(c: &Constants<R>, x: R) -> R
    ensures { R.float result ≡ stirling_s (R.plan c.now) (R.float x) }
{
    let t = x.log();
    let z = R::ONE / x;
    let y = z * z;
    let w = c.w0 + z * horner(c.w, y);
    (x - R::HALF) * (t - R::ONE) + w
}
