// Horner's rule over a slice of coefficients, in f64 and in f32.
#![tactic(auto)]

ghost use Rattle.std.specs.Prelude.{◌≡◌, map};
ghost use Rattle.poly.specs.Horner.{horner_s};

use words::real::Real;

pub fn horner<R: Real>(c: &[R], x: R) -> R
    ensures { R.float result ≡ horner_s R.format (map R.float c.now) (R.float x) }
{
    let n = c.len();
    if n == 0 {
        return R::ZERO;
    }
    if n == 1 {
        return c[0];
    }
    c[0] + x * horner(&c[1..], x)
}
