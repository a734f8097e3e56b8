// tgammaf: the gamma function in f32, as tgammaf.rs has it: tgamma of the same number in f64, rounded once.
#![tactic(auto)]

ghost use Rattle.std.specs.Prelude.{◌≡◌};
ghost use Rattle.tgammaf.specs.Tgammaf.{tgammaf_s};

use narrow::narrow;
use tgamma::tgamma;

pub fn tgammaf(x: f32) -> f32
    ensures { result ≡ tgammaf_s x }
{
    // a NaN leaves first: the language widens numbers alone
    if x != x {
        return x;
    }
    narrow(tgamma(x as f64))
}
