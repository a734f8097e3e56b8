// exp of either width, by its name: what a function of both widths calls.
ghost use Rattle.std.specs.Prelude.{◌≡◌, Float};
ghost use Rattle.exp.specs.Exp.{exp_s};
ghost use Rattle.exp.specs.Expf.{expf_s};

use words::real::Real;

pub trait Exp: Real {
    // The width's exp, as a definition.
    ghost exp: { Float → Float };

    fn exp(self) -> Self
        ensures { Self.float result ≡ exp (Self.float self) };
}

impl Exp for f64 {
    ghost exp = { exp_s };

    fn exp(self) -> f64 {
        crate::exp(self)
    }
}

impl Exp for f32 {
    ghost exp = { expf_s };

    fn exp(self) -> f32 {
        crate::single::expf(self)
    }
}
