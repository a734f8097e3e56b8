// whole and wholef by one name: what a function of both widths calls.
ghost use Rattle.std.specs.Prelude.{◌≡◌};
ghost use Rattle.whole.specs.Whole.{whole_s, has_fraction_s};

use crate::WholePart;
use words::real::Real;

pub trait Whole: Real {
    fn whole(self) -> WholePart
        ensures { (result.number ≡ whole_s (Self.float self)) × (result.fraction ≡ has_fraction_s (Self.float self)) };
}

impl Whole for f64 {
    fn whole(self) -> WholePart {
        crate::whole(self)
    }
}

impl Whole for f32 {
    fn whole(self) -> WholePart {
        crate::wholef(self)
    }
}
