// erff and erfcf: erf's course in f32, with the same regions; the coefficients are erf's, rounded to f32. z loses 13 bits, and the tiny number
// is 2^-120.
// A list of coefficients is PP0, PP1, .. of the Rust; QQ, QA, SA and SB begin with their 1.0.
#![tactic(auto)]

ghost use Rattle.std.specs.Prelude.{◌≡◌};
ghost use Rattle.erff.specs.Erff.{erff_s, erfcf_s};

use erf::course::Constants;

const ERX: f32 = 8.4506291151e-01; /* 0x3f58560b */

const EFX8: f32 = 1.0270333290e+00; /* 0x3f8375d4 */

// Coefficients for approximation to erf on [0,0.84375].
const PP: [f32; 5] = [
    1.2837916613e-01, /* 0x3e0375d4 */
    -3.2504209876e-01, /* 0xbea66beb */
    -2.8481749818e-02, /* 0xbce9528f */
    -5.7702702470e-03, /* 0xbbbd1489 */
    -2.3763017452e-05, /* 0xb7c756b1 */
];

const QQ: [f32; 6] = [
    1.0,
    3.9791721106e-01, /* 0x3ecbbbce */
    6.5022252500e-02, /* 0x3d852a63 */
    5.0813062117e-03, /* 0x3ba68116 */
    1.3249473704e-04, /* 0x390aee49 */
    -3.9602282413e-06, /* 0xb684e21a */
];

// Coefficients for approximation to erf in [0.84375,1.25].
const PA: [f32; 7] = [
    -2.3621185683e-03, /* 0xbb1acdc6 */
    4.1485610604e-01, /* 0x3ed46805 */
    -3.7220788002e-01, /* 0xbebe9208 */
    3.1834661961e-01, /* 0x3ea2fe54 */
    -1.1089469492e-01, /* 0xbde31cc2 */
    3.5478305072e-02, /* 0x3d1151b3 */
    -2.1663755178e-03, /* 0xbb0df9c0 */
];

const QA: [f32; 7] = [
    1.0,
    1.0642088205e-01, /* 0x3dd9f331 */
    5.4039794207e-01, /* 0x3f0a5785 */
    7.1828655899e-02, /* 0x3d931ae7 */
    1.2617121637e-01, /* 0x3e013307 */
    1.3637083583e-02, /* 0x3c5f6e13 */
    1.1984500103e-02, /* 0x3c445aa3 */
];

// Coefficients for approximation to erfc in [1.25,1/0.35].
const RA: [f32; 8] = [
    -9.8649440333e-03, /* 0xbc21a093 */
    -6.9385856390e-01, /* 0xbf31a0b7 */
    -1.0558626175e+01, /* 0xc128f022 */
    -6.2375331879e+01, /* 0xc2798057 */
    -1.6239666748e+02, /* 0xc322658c */
    -1.8460508728e+02, /* 0xc3389ae7 */
    -8.1287437439e+01, /* 0xc2a2932b */
    -9.8143291473e+00, /* 0xc11d077e */
];

const SA: [f32; 9] = [
    1.0,
    1.9651271820e+01, /* 0x419d35ce */
    1.3765776062e+02, /* 0x4309a863 */
    4.3456588745e+02, /* 0x43d9486f */
    6.4538726807e+02, /* 0x442158c9 */
    4.2900814819e+02, /* 0x43d6810b */
    1.0863500214e+02, /* 0x42d9451f */
    6.5702495575e+00, /* 0x40d23f7c */
    -6.0424413532e-02, /* 0xbd777f97 */
];

// Coefficients for approximation to erfc in [1/.35,28].
const RB: [f32; 7] = [
    -9.8649431020e-03, /* 0xbc21a092 */
    -7.9928326607e-01, /* 0xbf4c9dd4 */
    -1.7757955551e+01, /* 0xc18e104b */
    -1.6063638306e+02, /* 0xc320a2ea */
    -6.3756646729e+02, /* 0xc41f6441 */
    -1.0250950928e+03, /* 0xc480230b */
    -4.8351919556e+02, /* 0xc3f1c275 */
];

const SB: [f32; 8] = [
    1.0,
    3.0338060379e+01, /* 0x41f2b459 */
    3.2579251099e+02, /* 0x43a2e571 */
    1.5367296143e+03, /* 0x44c01759 */
    3.1998581543e+03, /* 0x4547fdbb */
    2.5530502930e+03, /* 0x451f90ce */
    4.7452853394e+02, /* 0x43ed43a7 */
    -2.2440952301e+01, /* 0xc1b38712 */
];

// The constants and cuts of f32.
pub static ERF32: Constants<f32> = Constants {
    not_finite: 0x7f800000,
    at_0_84375: 0x3f580000,
    erf_from: 0x31800000,
    erfc_from: 0x23800000,
    at_1_4: 0x3e800000,
    at_1_25: 0x3fa00000,
    at_1_0_35: 0x4036db6d,
    erf_upto: 0x40c00000,
    erfc_upto: 0x41e00000,
    eighth: 0.125,
    half: 0.5,
    nine_sixteenths: 0.5625,
    one: 1.0,
    two: 2.0,
    eight: 8.0,
    tiny: f32::from_bits(0x03800000),
    erx: ERX,
    efx8: EFX8,
    pp: &PP,
    qq: &QQ,
    pa: &PA,
    qa: &QA,
    ra: &RA,
    sa: &SA,
    rb: &RB,
    sb: &SB,
};

pub fn erff(x: f32) -> f32
    ensures { result ≡ erff_s x }
{
    // a NaN leaves first: no later look at the bits of x has to allow for one
    if x != x {
        return x;
    }
    ERF32.erf(x)
}

pub fn erfcf(x: f32) -> f32
    ensures { result ≡ erfcf_s x }
{
    // a NaN leaves first: no later look at the bits of x has to allow for one
    if x != x {
        return x;
    }
    ERF32.erfc(x)
}
