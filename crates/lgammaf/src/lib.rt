// lgammaf_r: the logarithm of the size of the gamma function, and the gamma function's sign, in f32. The course is lgamma_r's, with the same
// regions but -log|x| below 2^-21; the coefficients are lgamma_r's, rounded to f32, but for TF and its tail TT.
#![tactic(auto)]

pub mod single;

ghost use Rattle.std.specs.Prelude.{◌≡◌};
ghost use Rattle.lgammaf.specs.Lgammaf.{lgammaf_s};

use crate::single::LGAMMAF;
use lgamma::{LgammaR, log_gamma};

pub type LgammafR = LgammaR<f32>;

#[tactic(auto, using(crate::proofs::SpecialValues::lgammaf_nan))]
pub fn lgammaf_r(x: f32) -> LgammafR
    ensures { (result.value ≡ (lgammaf_s x).value) × (result.sign ≡ (lgammaf_s x).sign) }
{
    // a NaN leaves first, as in lgamma_r
    if x != x {
        return LgammaR { value: x, sign: 1 };
    }
    log_gamma(&LGAMMAF, x)
}
