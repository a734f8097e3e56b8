// The course of erf and erfc, in f64 and in f32: the two files of the Rust are one text over their constants and cuts.
// Below 0.84375: erf(x) = x + x R, R = PP/QQ in x^2. erfc(x) = 1 - erf(x), or 0.5 - (x - 0.5 + x R) from 1/4 on. Below 2^-28 erf is
// 2/sqrt(pi) x, so written that nothing underflows; below 2^-56 erfc is 1 - x.
// Below 1.25: erf(x) = ERX + PA/QA in |x| - 1.
// Below 28: erfc(x) = exp(-x^2 - 0.5625 + R/S) / x, R/S in 1/x^2: RA/SA below 1/0.35, then RB/SB. -x^2 is -z^2 + (z - x) (z + x), where z is x
// with its low bits cleared, so that z^2 is exact. erf = 1 - erfc, and from 6 on 1 - tiny.
// From 28 on erfc is tiny times itself, or 2 - tiny for a negative x.
// Both are made of one y: `small` (R above) below 0.84375, and `erfc2` from there on. Who asks for both pays for it once.
ghost use Rattle.std.specs.Prelude.{◌≡◌, if◌then◌else◌};
ghost use Rattle.std.specs.Float.Ieee.{neg};
ghost use Rattle.words.specs.Tests.{◌≠?◌};
ghost use Rattle.words.specs.Bits.{sign_s};
ghost use Rattle.erf.specs.Plan.{erfc1_s, ratio_s, erfc2_s, small_s, erf_s, erfc_s};
ghost use Rattle.erf.specs.PlanOf.{plan_of};
ghost use Rattle.erf.specs.Shared.{Made};

use crate::width::Width;
use poly::horner;
use words::bits::{sign, size_word};
use words::fabs::fabs;
use words::real::Real;

// What the course has of one width.
pub struct Constants<R: 'static> {
    // The cuts, as words of a size. erf needs y from 2^-28 on and below 6, erfc from 2^-56 on and below 28.
    pub not_finite: u32,
    pub at_0_84375: u32,
    pub erf_from: u32,
    pub erfc_from: u32,
    pub at_1_4: u32,
    pub at_1_25: u32,
    pub at_1_0_35: u32,
    pub erf_upto: u32,
    pub erfc_upto: u32,
    // The literals.
    pub eighth: R,
    pub half: R,
    pub nine_sixteenths: R,
    pub one: R,
    pub two: R,
    pub eight: R,
    pub tiny: R,
    // The constants, and the lists of coefficients.
    pub erx: R,
    pub efx8: R,
    pub pp: &'static [R],
    pub qq: &'static [R],
    pub pa: &'static [R],
    pub qa: &'static [R],
    pub ra: &'static [R],
    pub sa: &'static [R],
    pub rb: &'static [R],
    pub sb: &'static [R],
}

// y with the sign of x.
fn signed<R: Real>(sign: u32, y: R) -> R
    ensures { R.float result ≡ (if sign ≠? 0 then neg (R.float y) else R.float y) }
{
    if sign != 0 { -y } else { y }
}

impl<R: Width> Constants<R> {
    fn erfc1(&self, x: R) -> R
        ensures { R.float result ≡ erfc1_s (plan_of R.format R.word R.lost R.exp R.float self.now) (R.float x) }
    {
        let s = fabs(x) - self.one;
        let p = horner(self.pa, s);
        let q = horner(self.qa, s);
        self.one - self.erx - p / q
    }

    // r / big_s.
    fn ratio(&self, ix: u32, s: R) -> R
        ensures { R.float result ≡ ratio_s (plan_of R.format R.word R.lost R.exp R.float self.now) ix (R.float s) }
    {
        if ix < self.at_1_0_35 {
            return horner(self.ra, s) / horner(self.sa, s);
        }
        horner(self.rb, s) / horner(self.sb, s)
    }

    fn erfc2(&self, ix: u32, x: R) -> R
        ensures { R.float result ≡ erfc2_s (plan_of R.format R.word R.lost R.exp R.float self.now) ix (R.float x) }
    {
        if ix < self.at_1_25 {
            return self.erfc1(x);
        }
        // a NaN leaves here: no later look at the bits of x has to allow for one
        if x != x {
            return x;
        }
        let a = fabs(x);
        let s = self.one / (a * a);
        let z = a.short();
        // here, so that it does not stand between the two exponentials
        let q = self.ratio(ix, s);
        (-z * z - self.nine_sixteenths).exp() * ((z - a) * (z + a) + q).exp() / a
    }

    // y below 0.84375.
    fn small(&self, x: R) -> R
        ensures { R.float result ≡ small_s (plan_of R.format R.word R.lost R.exp R.float self.now) (R.float x) }
    {
        let z = x * x;
        horner(self.pp, z) / horner(self.qq, z)
    }

    // y as far as erf needs it. Elsewhere nobody looks at it, and x serves.
    #[tactic(auto, using(crate::proofs::SharedLaws::none_below, crate::proofs::SharedLaws::by_small, crate::proofs::SharedLaws::by_tail, crate::proofs::SharedLaws::none_above))]
    fn y_of_erf(&self, ix: u32, x: R) -> R
        ensures { let p = plan_of R.format R.word R.lost R.exp R.float self.now in Made p p.at2^-28 p.at6 ix (R.float x) (R.float result) }
    {
        if ix < self.at_0_84375 {
            if ix < self.erf_from {
                return x;
            }
            return self.small(x);
        }
        if ix < self.erf_upto {
            return self.erfc2(ix, x);
        }
        x
    }

    // y as far as erfc needs it, which is farther both ways.
    #[tactic(auto, using(crate::proofs::SharedLaws::none_below, crate::proofs::SharedLaws::by_small, crate::proofs::SharedLaws::by_tail, crate::proofs::SharedLaws::none_above))]
    pub(crate) fn y_of_erfc(&self, ix: u32, x: R) -> R
        ensures { let p = plan_of R.format R.word R.lost R.exp R.float self.now in Made p p.at2^-56 p.at28 ix (R.float x) (R.float result) }
    {
        if ix < self.at_0_84375 {
            if ix < self.erfc_from {
                return x;
            }
            return self.small(x);
        }
        if ix < self.erfc_upto {
            return self.erfc2(ix, x);
        }
        x
    }

    // erf, from y.
    pub(crate) fn erf_of(&self, ix: u32, sign: u32, x: R, y: R) -> R
        requires { let p = plan_of R.format R.word R.lost R.exp R.float self.now in (ix ≡ R.word (R.float x)) × (sign ≡ sign_s R.format (R.float x)) × Made p p.at2^-28 p.at6 ix (R.float x) (R.float y) }
        ensures { R.float result ≡ erf_s (plan_of R.format R.word R.lost R.exp R.float self.now) (R.float x) }
    {
        if ix >= self.not_finite {
            return self.one - self.two * x.sign_number() + self.one / x;
        }
        if ix < self.at_0_84375 {
            if ix < self.erf_from {
                return self.eighth * (self.eight * x + self.efx8 * x);
            }
            return x + x * y;
        }
        if ix < self.erf_upto {
            return signed(sign, self.one - y);
        }
        signed(sign, self.one - self.tiny)
    }

    // erfc, from y.
    pub(crate) fn erfc_of(&self, ix: u32, sign: u32, x: R, y: R) -> R
        requires { let p = plan_of R.format R.word R.lost R.exp R.float self.now in (ix ≡ R.word (R.float x)) × (sign ≡ sign_s R.format (R.float x)) × Made p p.at2^-56 p.at28 ix (R.float x) (R.float y) }
        ensures { R.float result ≡ erfc_s (plan_of R.format R.word R.lost R.exp R.float self.now) (R.float x) }
    {
        if ix >= self.not_finite {
            return self.two * x.sign_number() + self.one / x;
        }
        if ix < self.at_0_84375 {
            if ix < self.erfc_from {
                return self.one - x;
            }
            if sign != 0 || ix < self.at_1_4 {
                return self.one - (x + x * y);
            }
            return self.half - (x - self.half + x * y);
        }
        if ix < self.erfc_upto {
            if sign != 0 {
                return self.two - y;
            }
            return y;
        }
        if sign != 0 {
            return self.two - self.tiny;
        }
        self.tiny * self.tiny
    }

    // erf alone, with no more of y than it needs.
    pub fn erf(&self, x: R) -> R
        ensures { R.float result ≡ erf_s (plan_of R.format R.word R.lost R.exp R.float self.now) (R.float x) }
    {
        let ix = size_word(x);
        self.erf_of(ix, sign(x), x, self.y_of_erf(ix, x))
    }

    // erfc alone.
    pub fn erfc(&self, x: R) -> R
        ensures { R.float result ≡ erfc_s (plan_of R.format R.word R.lost R.exp R.float self.now) (R.float x) }
    {
        let ix = size_word(x);
        self.erfc_of(ix, sign(x), x, self.y_of_erfc(ix, x))
    }
}
