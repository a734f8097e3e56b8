// k_sinf and k_cosf, after FreeBSD's msun: sine and cosine of an f64 of size up to pi/4, worked out in f64 and narrowed to f32 at the end. Four
// coefficients each, with errors that msun gives as 2^-37.5 (of the sine over x) and 2^-34.1; no tail.
ghost use Rattle.std.specs.Prelude.{◌≡◌};
ghost use Rattle.trig.specs.KSinf.{k_sinf_s};
ghost use Rattle.trig.specs.KCosf.{k_cosf_s};

use narrow::narrow;

const S1: f64 = -0.166666666416265235595; /* -0x15555554cbac77.0p-55 */

const S2: f64 = 0.0083333293858894631756; /*  0x111110896efbb2.0p-59 */

const S3: f64 = -0.000198393348360966317347; /* -0x1a00f9e2cae774.0p-65 */

const S4: f64 = 0.0000027183114939898219064; /*  0x16cd878c3b46a7.0p-71 */

pub fn k_sinf(x: f64) -> f32
    ensures { result ≡ k_sinf_s x }
{
    let z = x * x;
    let w = z * z;
    let r = S3 + z * S4;
    let s = z * x;
    narrow((x + s * (S1 + z * S2)) + s * w * r)
}

const C0: f64 = -0.499999997251031003120; /* -0x1ffffffd0c5e81.0p-54 */

const C1: f64 = 0.0416666233237390631894; /*  0x155553e1053a42.0p-57 */

const C2: f64 = -0.00138867637746099294692; /* -0x16c087e80f1e27.0p-62 */

const C3: f64 = 0.0000243904487962774090654; /*  0x199342e0ee5069.0p-68 */

pub fn k_cosf(x: f64) -> f32
    ensures { result ≡ k_cosf_s x }
{
    let z = x * x;
    let w = z * z;
    let r = C2 + z * C3;
    narrow(((1.0 + z * C0) + w * C1) + (w * z) * r)
}
