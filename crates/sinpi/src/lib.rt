// sin(pi x) for x > 0, the Rust's sinpi in tgamma.rs and sin_pi in lgamma_r.rs. Reduction: x mod 2, then the n for which n/2 is nearest to it, so
// that x - n/2 lies from -1/4 to 1/4; from 2^-70 on both are exact (proofs/Exactness). Only that is multiplied by PI, and goes to a kernel with
// the sign that n asks for: 0 sin, 1 cos, 2 -sin (as sin of the negative), 3 -cos, 4 sin. In f32: module `single`.
#![tactic(auto)]

pub mod real;
pub mod single;

ghost use Rattle.std.specs.Prelude.{◌≡◌};
ghost use Rattle.words.specs.F64.{◌⊖◌, ◌⊗◌};
ghost use Rattle.sinpi.specs.Sinpi.{PI, turn_s, sinpi_s};

use floor::floor;
use trig::{k_cos, k_sin};

const PI: f64 = 3.14159265358979311600e+00; /* 0x400921FB, 0x54442D18 */

// x mod 2.0
fn turn(x: f64) -> f64
    ensures { result ≡ turn_s x }
{
    let h = x * 0.5;
    2.0 * (h - floor(h))
}

// y, for a c that is n / 2.
fn angle(t: f64, c: f64) -> f64
    ensures { result ≡ (t ⊖ c) ⊗ PI }
{
    (t - c) * PI
}

// n goes by tests of t, not by the whole part of 4.0 * t: each case is then on its way before that could be worked out.
pub fn sinpi(x: f64) -> f64
    ensures { result ≡ sinpi_s x }
{
    let t = turn(x);
    if t < 0.25 {
        return k_sin(angle(t, 0.0), 0.0, 0);
    }
    if t < 0.75 {
        return k_cos(angle(t, 0.5), 0.0);
    }
    if t < 1.25 {
        return k_sin(-angle(t, 1.0), 0.0, 0);
    }
    if t < 1.75 {
        return -k_cos(angle(t, 1.5), 0.0);
    }
    k_sin(angle(t, 2.0), 0.0, 0)
}
