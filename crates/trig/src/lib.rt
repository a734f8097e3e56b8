// k_sin and k_cos, after FreeBSD's msun: sine and cosine of x + y for |x| up to pi/4, where y is the tail of x.
// Approximation: sin(x) = x + S1 x^3 + .. + S6 x^13 and cos(x) = 1 - x^2/2 + C1 x^4 + .. + C6 x^14, with errors that msun gives as 2^-58 (of the
// sine over x). The tail enters as (1 - x^2/2) y in the sine and as -x y in the cosine. In the cosine w = 1 - x^2/2 is rounded, and what that
// lost, (1 - w) - x^2/2, is added back. In f32: module `single`.
#![tactic(auto)]

pub mod single;

ghost use Rattle.std.specs.Prelude.{◌≡◌};
ghost use Rattle.trig.specs.KSin.{k_sin_s};
ghost use Rattle.trig.specs.KCos.{k_cos_s};

const S1: f64 = -1.66666666666666324348e-01; /* 0xBFC55555, 0x55555549 */

const S2: f64 = 8.33333333332248946124e-03; /* 0x3F811111, 0x1110F8A6 */

const S3: f64 = -1.98412698298579493134e-04; /* 0xBF2A01A0, 0x19C161D5 */

const S4: f64 = 2.75573137070700676789e-06; /* 0x3EC71DE3, 0x57B1FE7D */

const S5: f64 = -2.50507602534068634195e-08; /* 0xBE5AE5E6, 0x8A2B9CEB */

const S6: f64 = 1.58969099521155010221e-10; /* 0x3DE5D93A, 0x5ACFD57C */

// Sine of x + y; y counts where iy is not 0.
pub fn k_sin(x: f64, y: f64, iy: i32) -> f64
    ensures { result ≡ k_sin_s x y iy }
{
    let z = x * x;
    let w = z * z;
    let r = S2 + z * (S3 + z * S4) + z * w * (S5 + z * S6);
    let v = z * x;
    if iy == 0 {
        x + v * (S1 + z * r)
    } else {
        x - ((z * (0.5 * y - v * r) - y) - v * S1)
    }
}

const C1: f64 = 4.16666666666666019037e-02; /* 0x3FA55555, 0x5555554C */

const C2: f64 = -1.38888888888741095749e-03; /* 0xBF56C16C, 0x16C15177 */

const C3: f64 = 2.48015872894767294178e-05; /* 0x3EFA01A0, 0x19CB1590 */

const C4: f64 = -2.75573143513906633035e-07; /* 0xBE927E4F, 0x809C52AD */

const C5: f64 = 2.08757232129817482790e-09; /* 0x3E21EE9E, 0xBDB4B1C4 */

const C6: f64 = -1.13596475577881948265e-11; /* 0xBDA8FAE9, 0xBE8838D4 */

// Cosine of x + y.
pub fn k_cos(x: f64, y: f64) -> f64
    ensures { result ≡ k_cos_s x y }
{
    let z = x * x;
    let w = z * z;
    let r = z * (C1 + z * (C2 + z * C3)) + w * w * (C4 + z * (C5 + z * C6));
    let hz = 0.5 * z;
    let w = 1.0 - hz;
    w + (((1.0 - w) - hz) + (z * r - x * y))
}
