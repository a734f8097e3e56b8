// log of either width, by its name: what a function of both widths calls.
ghost use Rattle.std.specs.Prelude.{◌≡◌, Float};
ghost use Rattle.logarithm.specs.Log.{log_s};
ghost use Rattle.logarithm.specs.Logf.{logf_s};

use words::real::Real;

pub trait Log: Real {
    // The width's log, as a definition.
    ghost log: { Float → Float };

    fn log(self) -> Self
        ensures { Self.float result ≡ log (Self.float self) };
}

impl Log for f64 {
    ghost log = { log_s };

    fn log(self) -> f64 {
        crate::log(self)
    }
}

impl Log for f32 {
    ghost log = { logf_s };

    fn log(self) -> f32 {
        crate::single::logf(self)
    }
}
