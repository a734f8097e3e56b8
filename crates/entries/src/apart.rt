// How far two floats of one width lie apart, by their bits: the distance, and its code: 0, or 4 where one is a NaN (the distance is then 0).
ghost use Rattle.std.specs.Prelude.{◌≡◌};
ghost use Rattle.std.specs.Float.{binary32, binary64};
ghost use Rattle.distance.specs.Distance.{distance_s, code_of, steps_of};

use distance::distance;

// The code of a distance that there is, or is not.
fn code(apart: Option<u64>) -> u64
    ensures { result ≡ code_of apart }
{
    match apart {
        Some(_) => 0,
        None => 4,
    }
}

pub fn rvt_distance(a: u64, b: u64) -> u64
    ensures { result ≡ steps_of (distance_s binary64 a b) }
{
    distance::<u64>(a, b).unwrap_or(0)
}

pub fn rvt_distance_code(a: u64, b: u64) -> u64
    ensures { result ≡ code_of (distance_s binary64 a b) }
{
    code(distance::<u64>(a, b))
}

pub fn rvt_distancef(a: u32, b: u32) -> u64
    ensures { result ≡ steps_of (distance_s binary32 a b) }
{
    distance::<u32>(a, b).unwrap_or(0)
}

pub fn rvt_distancef_code(a: u32, b: u32) -> u64
    ensures { result ≡ code_of (distance_s binary32 a b) }
{
    code(distance::<u32>(a, b))
}
