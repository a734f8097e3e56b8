// lgamma_r: the logarithm of the size of the gamma function, and the gamma function's sign, after FreeBSD's msun.
// Below 2^-70 in size: -log|x|. A negative x: -x Gamma(-x) Gamma(x) = pi / sin(pi x), so the value is log(pi / |x sin(pi x)|) less that of -x,
// and the sign is the sine's; where it is 0, at the whole numbers, the answer is +inf with the sign 1. 1 and 2 give +0.
// Below 2: module `below2`. Below 8, below 2^58 and from there on: module `from2` and `size`.
#![tactic(auto)]

pub mod below2;
pub mod double;
pub mod from2;
pub mod width;

ghost use Rattle.std.specs.Prelude.{◌≡◌};
ghost use Rattle.lgamma.specs.Plan.{size_s, reflected_s};
ghost use Rattle.lgamma.specs.Plan as Plan;
ghost use Rattle.lgamma.specs.Lgamma64.{lgamma_s};

use crate::below2::below2;
use crate::double::LGAMMA;
use crate::from2::{below8, stirling};
use crate::width::{Constants, LogGamma};

#[derive(Clone, Copy)]
pub struct LgammaR<R> {
    pub value: R,
    pub sign: i32,
}

fn answer<R: LogGamma>(value: R, sign: i32) -> LgammaR<R>
    ensures { (R.float result.value ≡ R.float value) × (result.sign ≡ sign) }
{
    LgammaR { value, sign }
}

// r, of a positive x.
fn size<R: LogGamma>(c: &Constants<R>, ix: u32, x: R) -> R
    ensures { R.float result ≡ size_s (R.plan c.now) ix (R.float x) }
{
    /* purge off 1 and 2 */
    if R::is_one_or_two(ix, x) {
        return R::ZERO;
    }
    if ix < c.at_2 {
        return below2(c, ix, x);
    }
    if ix < c.at_8 {
        return below8(c, x);
    }
    if ix < c.at_2_58 {
        return stirling(c, x);
    }
    /* 2**58 <= x <= inf */
    x * (x.log() - R::ONE)
}

// A negative argument, of which x is the size: t is sin_pi(x).
fn reflected<R: LogGamma>(c: &Constants<R>, ix: u32, x: R, t: R) -> LgammaR<R>
    ensures { (R.float result.value ≡ (reflected_s (R.plan c.now) ix (R.float x) (R.float t)).value)
        × (result.sign ≡ (reflected_s (R.plan c.now) ix (R.float x) (R.float t)).sign) }
{
    if t == R::ZERO {
        /* -integer */
        return answer(R::ONE / (x - x), 1);
    }
    if R::ZERO < t {
        return answer((c.pi / (t * x)).log() - size(c, ix, x), -1);
    }
    answer((c.pi / (-t * x)).log() - size(c, ix, x), 1)
}

// lgamma_r and lgammaf_r, by the constants of their width.
pub fn log_gamma<R: LogGamma>(c: &Constants<R>, x: R) -> LgammaR<R>
    ensures { (R.float result.value ≡ (Plan.lgamma_s (R.plan c.now) (R.float x)).value)
        × (result.sign ≡ (Plan.lgamma_s (R.plan c.now) (R.float x)).sign) }
{
    let sign = x.sign();
    let ix = x.size_word();
    if ix >= c.not_finite {
        return answer(x * x, 1);
    }
    if ix < c.tiny {
        if sign == 0 {
            return answer(-x.log(), 1);
        }
        return answer(-(-x).log(), -1);
    }
    if sign == 0 {
        return answer(size(c, ix, x), 1);
    }
    reflected(c, ix, -x, (-x).sinpi())
}

pub fn lgamma_r(x: f64) -> LgammaR<f64>
    ensures { (result.value ≡ (lgamma_s x).value) × (result.sign ≡ (lgamma_s x).sign) }
{
    // a NaN leaves first: no later look at the bits of x has to allow for one
    if x != x {
        return LgammaR { value: x, sign: 1 };
    }
    log_gamma(&LGAMMA, x)
}
