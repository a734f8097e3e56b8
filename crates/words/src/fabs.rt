// fabs, fabsf: the sign bit cleared.
ghost use Rattle.std.specs.Prelude.{◌≡◌};
ghost use Rattle.words.specs.Fabs.{fabs_s};

use crate::real::Real;

pub fn fabs<R: Real>(x: R) -> R
    ensures { R.float result ≡ fabs_s (R.float x) }
{
    x.fabs()
}
