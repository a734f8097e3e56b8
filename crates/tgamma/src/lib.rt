// tgamma: the gamma function, by the formula of Lanczos (1964) with the constants of boost and python:
// Gamma(x) = y^(x - 0.5) e^-y S(x), y = x + g - 0.5, g = 6.024680040776729583740234375; GMHALF is g - 0.5, and S(x) is in module `lanczos`.
// The rounding error dy of y is worked out, and r = S(x) e^-y corrected for it by dy g r / y. The power is pow(y, 0.5 (x - 0.5)) multiplied in twice,
// so that no factor overflows where the answer does not. For x < 0, Gamma(x) Gamma(-x) = -pi / (x sin(pi x)).
// Regions in the order tested: not finite; below 2^-54 in size 1/x; whole numbers: NaN below 0, up to 23 by a table; from 184 on in size overflow,
// or +-0 below 0 by the parity of floor(x); the formula.
#![tactic(auto)]

pub mod lanczos;

ghost use Rattle.std.specs.Prelude.{◌≡◌, true, ◌≤◌, if◌then◌else◌};
ghost use Rattle.std.specs.Float.Ieee as Ieee;
ghost use Rattle.std.specs.Float.{binary64};
ghost use Rattle.std.specs.Float.Ieee.{neg};
ghost use Rattle.words.specs.Tests.{◌=?◌, ◌<·◌};
ghost use Rattle.words.specs.Bits.{size_word_s, sign_s};
ghost use Rattle.words.specs.F64.{◌⊗◌, ◌⊘◌, 0·0};
ghost use Rattle.floor.specs.Floor.{floor_s};
ghost use Rattle.whole.specs.Whole.{whole_s};
ghost use Rattle.sinpi.specs.Sinpi.{sinpi_s};
ghost use Rattle.tgamma.specs.Tgamma.{MINUS_PI, dy_s, last_s, lanczos_s, vanished_s, general_s, integer_s, tgamma_s};

use crate::lanczos::s;
use exp::exp;
use floor::floor;
use pow::pow;
use sinpi::sinpi;
use whole::whole;
use words::bits::{sign, size_word};

const GMHALF: f64 = 5.524680040776729583740234375;

const MINUS_PI: f64 = -3.141592653589793238462643383279502884;

const MINUS_ZERO: f64 = -0.0;

const X1P1023: f64 = 8.98846567431157953865e+307; /* 0x7fe00000_00000000 */

/* n! for small integer n */
// A static, which a look-up reads in place; a constant would be stored to the stack each time.
static FACT: [f64; 23] = [
    1.0,
    1.0,
    2.0,
    6.0,
    24.0,
    120.0,
    720.0,
    5040.0,
    40320.0,
    362880.0,
    3628800.0,
    39916800.0,
    479001600.0,
    6227020800.0,
    87178291200.0,
    1307674368000.0,
    20922789888000.0,
    355687428096000.0,
    6402373705728000.0,
    121645100408832000.0,
    2432902008176640000.0,
    51090942171709440000.0,
    1124000727777607680000.0,
];

// |x|
fn size(x: f64) -> f64
    ensures { result ≡ (if sign_s binary64 x =? 1 then neg x else x) }
{
    if sign(x) == 1 { -x } else { x }
}

// The error of x + g - 0.5.
#[tactic(auto, unfolding(crate::specs::Tgamma::dy_s))]
fn correction(absx: f64, y: f64) -> f64
    ensures { result ≡ dy_s absx y }
{
    if absx > GMHALF {
        return y - absx - GMHALF;
    }
    y - GMHALF - absx
}

// The rest of the formula, from the correction of r on.
#[tactic(auto, unfolding(crate::specs::Tgamma::last_s))]
fn last(y: f64, dy: f64, z: f64, r: f64) -> f64
    ensures { result ≡ last_s y dy z r }
{
    let r = r + dy * (GMHALF + 0.5) * r / y;
    let z = pow(y, 0.5 * z);
    r * z * z
}

// -v for negative x, else v.
fn turned(v: f64, x: f64) -> f64
    ensures { result ≡ (if x <· 0·0 then neg v else v) }
{
    if x < 0.0 { -v } else { v }
}

// The reflection formula for negative x, else r.
fn reflected(x: f64, absx: f64, r: f64) -> f64
    ensures { result ≡ (if x <· 0·0 then MINUS_PI ⊘ (sinpi_s absx ⊗ absx ⊗ r) else r) }
{
    if x < 0.0 {
        return MINUS_PI / (sinpi(absx) * absx * r);
    }
    r
}

// The formula itself, for a size below 184. `last`, with its pow, is called once, for either sign of x.
#[tactic(auto, unfolding(crate::specs::Tgamma::lanczos_s))]
fn by_lanczos(x: f64) -> f64
    ensures { result ≡ lanczos_s x (sign_s binary64 x) }
{
    let absx = size(x);
    let y = absx + GMHALF;
    let dy = correction(absx, y);
    let z = absx - 0.5;
    let r = s(absx) * exp(-y);
    last(y, turned(dy, x), turned(z, x), reflected(x, absx, r))
}

// x <= -184: tgamma(x) = +-0
#[tactic(auto, unfolding(crate::specs::Tgamma::vanished_s))]
fn vanished(x: f64) -> f64
    ensures { result ≡ vanished_s x }
{
    if floor(x) * 0.5 == floor(x * 0.5) {
        return 0.0;
    }
    MINUS_ZERO
}

// What is left beside the integers up to 23 and the negative ones.
#[tactic(auto, unfolding(crate::specs::Tgamma::general_s))]
fn general(x: f64, ix: u32) -> f64
    ensures { result ≡ general_s x ix (sign_s binary64 x) }
{
    if ix >= 0x4067_0000 {
        /* |x| >= 184 */
        if sign(x) == 1 {
            return vanished(x);
        }
        return x * X1P1023;
    }
    by_lanczos(x)
}

/* integer arguments */
// n is the whole part of x.
#[tactic(auto, unfolding(crate::specs::Tgamma::integer_s))]
fn integer(x: f64, n: i32, ix: u32) -> f64
    requires { (Ieee.eq x (floor_s binary64 x) ≡ true) × (n ≡ whole_s x) × (0x3C900000 ≤ ix) × (ix ≡ size_word_s x) }
    ensures { result ≡ integer_s x ix (sign_s binary64 x) }
{
    if sign(x) == 1 {
        return f64::NAN;
    }
    if x <= 23.0 {
        return FACT[n as usize - 1];
    }
    general(x, ix)
}

#[tactic(auto, using(whole::proofs::WholeLaws::whole_held, crate::proofs::WholeTest::has_floor), unfolding(crate::specs::Tgamma::tgamma_s))]
pub fn tgamma(x: f64) -> f64
    ensures { result ≡ tgamma_s x }
{
    let ix = size_word(x);
    if ix >= 0x7ff0_0000 {
        /* tgamma(nan)=nan, tgamma(inf)=inf, tgamma(-inf)=nan */
        return x + f64::INFINITY;
    }
    if ix < 0x3c90_0000 {
        /* |x| < 2^-54: tgamma(x) ~ 1/x */
        return 1.0 / x;
    }
    let w = whole(x);
    if w.fraction {
        // x != floor(x)
        return general(x, ix);
    }
    integer(x, w.number, ix)
}
