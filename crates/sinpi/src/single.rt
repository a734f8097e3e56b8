// sin(pi x) in f32, the Rust's sin_pi in lgammaf_r.rs: x mod 2 and n in f32, and from the difference on in f64, by k_sinf and k_cosf.
ghost use Rattle.std.specs.Prelude.{◌≡◌};
ghost use Rattle.sinpi.specs.Sinpif.{turn_s, sinpif_s};

use crate::angle;
use floor::floor;
use trig::single::{k_cosf, k_sinf};

// x mod 2.0
fn turn(x: f32) -> f32
    ensures { result ≡ turn_s x }
{
    let h = x * 0.5;
    2.0 * (h - floor(h))
}

// n goes by tests of t, as in sinpi.
pub fn sinpif(x: f32) -> f32
    ensures { result ≡ sinpif_s x }
{
    let t = turn(x);
    if t != t {
        return t;
    }
    let d = t as f64;
    if t < 0.25 {
        return k_sinf(angle(d, 0.0));
    }
    if t < 0.75 {
        return k_cosf(angle(d, 0.5));
    }
    if t < 1.25 {
        return k_sinf(-angle(d, 1.0));
    }
    if t < 1.75 {
        return -k_cosf(angle(d, 1.5));
    }
    k_sinf(angle(d, 2.0))
}
