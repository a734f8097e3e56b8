// lgamma_r of x < 2.0. Up to 0.9 lgamma(x) = lgamma(x + 1) - log(x), and x + 1 stands for x. Then by the Rust's i, with y:
// 0, near 2: y = 2 - x, a polynomial in y (A0 to A11) less y/2; 1, near the least value, which lies at TC: y = x - TC, TF + y^2 times a polynomial
// (T0 to T14), TF with its tail TT; 2, near 1: y = x - 1, -y/2 + y U(y)/V(y). The cuts are 1.7316 and 1.2316, and each less 1.
ghost use Rattle.std.specs.Prelude.{◌≡◌, if◌then◌else◌};
ghost use Rattle.std.specs.Float.Ieee.{neg};
ghost use Rattle.words.specs.Tests.{◌≤?◌};
ghost use Rattle.lgamma.specs.Plan.{segment_s, zero_s, one_s, two_s, added_s, below2_s};
ghost use Rattle.lgamma.specs.Segment.{segment_of};

use crate::width::{Constants, LogGamma};
use poly::horner;

// The Rust's i, 0 to 2, and y.
#[derive(Clone, Copy)]
pub enum Segment<R> {
    Zero(R),
    One(R),
    Two(R),
}

fn segment_at<R: LogGamma>(c: &Constants<R>, ix: u32, x: R) -> Segment<R>
    ensures { segment_of R.float result ≡ segment_s (R.plan c.now) ix (R.float x) }
{
    if ix <= c.up_to_0_9 {
        if ix >= c.at_0_7316 {
            return Segment::Zero(R::ONE - x);
        }
        if ix >= c.at_0_2316 {
            return Segment::One(x - (c.tc - R::ONE));
        }
        return Segment::Two(x);
    }
    if ix >= c.at_1_7316 {
        /* [1.7316,2] */
        return Segment::Zero(R::TWO - x);
    }
    if ix >= c.at_1_2316 {
        /* [1.23,1.73] */
        return Segment::One(x - c.tc);
    }
    Segment::Two(x - R::ONE)
}

fn zero<R: LogGamma>(c: &Constants<R>, y: R) -> R
    ensures { R.float result ≡ zero_s (R.plan c.now) (R.float y) }
{
    let z = y * y;
    let p1 = horner(c.a_even, z);
    let p2 = z * horner(c.a_odd, z);
    let p = y * p1 + p2;
    p - R::HALF * y
}

fn one<R: LogGamma>(c: &Constants<R>, y: R) -> R
    ensures { R.float result ≡ one_s (R.plan c.now) (R.float y) }
{
    let z = y * y;
    let w = z * y;
    let p1 = horner(c.t_0, w); /* parallel comp */
    let p2 = horner(c.t_1, w);
    let p3 = horner(c.t_2, w);
    let p = z * p1 - (c.tt - w * (p2 + y * p3));
    c.tf + p
}

fn two<R: LogGamma>(c: &Constants<R>, y: R) -> R
    ensures { R.float result ≡ two_s (R.plan c.now) (R.float y) }
{
    let p1 = y * horner(c.u, y);
    let p2 = horner(c.v, y);
    c.minus_half * y + p1 / p2
}

// What the segment adds to r.
fn added<R: LogGamma>(c: &Constants<R>, s: Segment<R>) -> R
    ensures { R.float result ≡ added_s (R.plan c.now) (segment_of R.float s) }
{
    match s {
        Segment::Zero(y) => zero(c, y),
        Segment::One(y) => one(c, y),
        Segment::Two(y) => two(c, y),
    }
}

// What r is before the segment adds to it.
fn start<R: LogGamma>(c: &Constants<R>, ix: u32, x: R) -> R
    ensures { R.float result ≡ (if ix ≤? c.now.up_to_0_9 then neg (R.log (R.float x)) else R.float R.ZERO) }
{
    if ix <= c.up_to_0_9 {
        /* lgamma(x) = lgamma(x+1)-log(x) */
        return -x.log();
    }
    R::ZERO
}

// One sum for both starts: the compiler then never makes the segment, and goes from its case to its formula.
pub(crate) fn below2<R: LogGamma>(c: &Constants<R>, ix: u32, x: R) -> R
    ensures { R.float result ≡ below2_s (R.plan c.now) ix (R.float x) }
{
    start(c, ix, x) + added(c, segment_at(c, ix, x))
}
