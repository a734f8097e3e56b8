// floor: the greatest whole number that is at most x. An f64 has at most 53 binary digits, an f32 24; the more of them stand before the point, the
// fewer are left for a fraction. That makes three cases, by the size of x.
#![tactic(auto)]

ghost use Rattle.std.specs.Prelude.{◌≡◌, true};
ghost use Rattle.std.specs.Float.Ieee.{fits};
ghost use Rattle.floor.specs.Floor.{floor_s};
ghost use Rattle.floor.specs.Cut.{cut_s};

use std::num::{truncating_f32_to_i64, truncating_f64_to_i64};
use words::fabs::fabs;
use words::real::Real;

// From this size on all digits stand before the point, and every number is whole: 2^52 has 53 binary digits, and in f32 2^23 has 24.
const WHOLE_FROM: f64 = 4503599627370496.0;

const WHOLE_FROM_F32: f32 = 8388608.0;

// What the casts of the width do.
pub trait Cut: Real {
    // A fraction still present, or room for one: cut off, it leaves a whole number below 2^52 in size, which an i64 holds, and a float does, so that
    // nothing is rounded. No fraction possible: x is whole, and stays. So do an infinity and a NaN (no number), for which the test does not hold.
    fn cut(self) -> Self
        ensures holds { fits Self.format (Self.float self) ≡ true }
        ensures value { Self.float result ≡ cut_s Self.format (Self.float self) };
}

impl Cut for f64 {
    fn cut(self) -> f64 {
        if fabs(self) < WHOLE_FROM {
            truncating_f64_to_i64(self) as f64
        } else {
            self
        }
    }
}

impl Cut for f32 {
    fn cut(self) -> f32 {
        if fabs(self) < WHOLE_FROM_F32 {
            truncating_f32_to_i64(self) as f32
        } else {
            self
        }
    }
}

pub fn floor<R: Cut>(x: R) -> R
    ensures { R.float result ≡ floor_s R.format (R.float x) }
{
    let size = x.fabs();
    if size < R::ONE {
        // Size below one: the whole number below is -1 for a negative x, and 0 for a positive one.
        if x < R::ZERO {
            -R::ONE
        } else if R::ZERO < x {
            R::ZERO // however close to one x is
        } else {
            x // +0 or -0: either is whole, and stays
        }
    } else {
        // The cut moves x toward zero, or not at all where there is no fraction. A positive x moves down, to the whole number below it. A negative x
        // moves up, and the whole number below it is one less than the cut.
        let cut = x.cut(); // x without its fraction
        if x < cut { cut - R::ONE } else { cut } // x < cut only where x has moved up
    }
}
