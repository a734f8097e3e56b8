// The sine of pi x in either width, by its name: what a function of both widths calls.
ghost use Rattle.std.specs.Prelude.{◌≡◌, Float};
ghost use Rattle.sinpi.specs.Sinpi.{sinpi_s};
ghost use Rattle.sinpi.specs.Sinpif.{sinpif_s};

use words::real::Real;

pub trait SinPi: Real {
    // The width's sine of pi x, as a definition.
    ghost sinpi: { Float → Float };

    fn sinpi(self) -> Self
        ensures { Self.float result ≡ sinpi (Self.float self) };
}

impl SinPi for f64 {
    ghost sinpi = { sinpi_s };

    fn sinpi(self) -> f64 {
        crate::sinpi(self)
    }
}

impl SinPi for f32 {
    ghost sinpi = { sinpif_s };

    fn sinpi(self) -> f32 {
        crate::single::sinpif(self)
    }
}
