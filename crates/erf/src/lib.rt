// erf and erfc, after FreeBSD's msun, by |x|: erf(-x) = -erf(x) and erfc(-x) = 2 - erfc(x). The errors are those that msun gives: 2^-57.90 of PP/QQ,
// 2^-59.06 of PA/QA, 2^-62.57 of RA/SA and 2^-61.52 of RB/SB. ERX, near erf(1), has 24 bits. z loses its low word, and the tiny number is 2^-1022.
// Module `course` is the text of both widths; in f32: crate erff.
// A list of coefficients is PP0, PP1, .. of the Rust; QQ, QA, SA and SB begin with their 1.0.
#![tactic(auto)]

pub mod course;
pub mod width;

ghost use Rattle.std.specs.Prelude.{◌≡◌};
ghost use Rattle.erf.specs.Erf64.{erf_s, erfc_s};

use course::Constants;
use words::bits::{sign, size_word};

const ERX: f64 = 8.45062911510467529297e-01; /* 0x3FEB0AC1, 0x60000000 */

const EFX8: f64 = 1.02703333676410069053e+00; /* 0x3FF06EBA, 0x8214DB69 */

// Coefficients for approximation to erf on [0,0.84375].
const PP: [f64; 5] = [
    1.28379167095512558561e-01, /* 0x3FC06EBA, 0x8214DB68 */
    -3.25042107247001499370e-01, /* 0xBFD4CD7D, 0x691CB913 */
    -2.84817495755985104766e-02, /* 0xBF9D2A51, 0xDBD7194F */
    -5.77027029648944159157e-03, /* 0xBF77A291, 0x236668E4 */
    -2.37630166566501626084e-05, /* 0xBEF8EAD6, 0x120016AC */
];

const QQ: [f64; 6] = [
    1.0,
    3.97917223959155352819e-01, /* 0x3FD97779, 0xCDDADC09 */
    6.50222499887672944485e-02, /* 0x3FB0A54C, 0x5536CEBA */
    5.08130628187576562776e-03, /* 0x3F74D022, 0xC4D36B0F */
    1.32494738004321644526e-04, /* 0x3F215DC9, 0x221C1A10 */
    -3.96022827877536812320e-06, /* 0xBED09C43, 0x42A26120 */
];

// Coefficients for approximation to erf in [0.84375,1.25].
const PA: [f64; 7] = [
    -2.36211856075265944077e-03, /* 0xBF6359B8, 0xBEF77538 */
    4.14856118683748331666e-01, /* 0x3FDA8D00, 0xAD92B34D */
    -3.72207876035701323847e-01, /* 0xBFD7D240, 0xFBB8C3F1 */
    3.18346619901161753674e-01, /* 0x3FD45FCA, 0x805120E4 */
    -1.10894694282396677476e-01, /* 0xBFBC6398, 0x3D3E28EC */
    3.54783043256182359371e-02, /* 0x3FA22A36, 0x599795EB */
    -2.16637559486879084300e-03, /* 0xBF61BF38, 0x0A96073F */
];

const QA: [f64; 7] = [
    1.0,
    1.06420880400844228286e-01, /* 0x3FBB3E66, 0x18EEE323 */
    5.40397917702171048937e-01, /* 0x3FE14AF0, 0x92EB6F33 */
    7.18286544141962662868e-02, /* 0x3FB2635C, 0xD99FE9A7 */
    1.26171219808761642112e-01, /* 0x3FC02660, 0xE763351F */
    1.36370839120290507362e-02, /* 0x3F8BEDC2, 0x6B51DD1C */
    1.19844998467991074170e-02, /* 0x3F888B54, 0x5735151D */
];

// Coefficients for approximation to erfc in [1.25,1/0.35].
const RA: [f64; 8] = [
    -9.86494403484714822705e-03, /* 0xBF843412, 0x600D6435 */
    -6.93858572707181764372e-01, /* 0xBFE63416, 0xE4BA7360 */
    -1.05586262253232909814e+01, /* 0xC0251E04, 0x41B0E726 */
    -6.23753324503260060396e+01, /* 0xC04F300A, 0xE4CBA38D */
    -1.62396669462573470355e+02, /* 0xC0644CB1, 0x84282266 */
    -1.84605092906711035994e+02, /* 0xC067135C, 0xEBCCABB2 */
    -8.12874355063065934246e+01, /* 0xC0545265, 0x57E4D2F2 */
    -9.81432934416914548592e+00, /* 0xC023A0EF, 0xC69AC25C */
];

const SA: [f64; 9] = [
    1.0,
    1.96512716674392571292e+01, /* 0x4033A6B9, 0xBD707687 */
    1.37657754143519042600e+02, /* 0x4061350C, 0x526AE721 */
    4.34565877475229228821e+02, /* 0x407B290D, 0xD58A1A71 */
    6.45387271733267880336e+02, /* 0x40842B19, 0x21EC2868 */
    4.29008140027567833386e+02, /* 0x407AD021, 0x57700314 */
    1.08635005541779435134e+02, /* 0x405B28A3, 0xEE48AE2C */
    6.57024977031928170135e+00, /* 0x401A47EF, 0x8E484A93 */
    -6.04244152148580987438e-02, /* 0xBFAEEFF2, 0xEE749A62 */
];

// Coefficients for approximation to erfc in [1/.35,28].
const RB: [f64; 7] = [
    -9.86494292470009928597e-03, /* 0xBF843412, 0x39E86F4A */
    -7.99283237680523006574e-01, /* 0xBFE993BA, 0x70C285DE */
    -1.77579549177547519889e+01, /* 0xC031C209, 0x555F995A */
    -1.60636384855821916062e+02, /* 0xC064145D, 0x43C5ED98 */
    -6.37566443368389627722e+02, /* 0xC083EC88, 0x1375F228 */
    -1.02509513161107724954e+03, /* 0xC0900461, 0x6A2E5992 */
    -4.83519191608651397019e+02, /* 0xC07E384E, 0x9BDC383F */
];

const SB: [f64; 8] = [
    1.0,
    3.03380607434824582924e+01, /* 0x403E568B, 0x261D5190 */
    3.25792512996573918826e+02, /* 0x40745CAE, 0x221B9F0A */
    1.53672958608443695994e+03, /* 0x409802EB, 0x189D5118 */
    3.19985821950859553908e+03, /* 0x40A8FFB7, 0x688C246A */
    2.55305040643316442583e+03, /* 0x40A3F219, 0xCEDF3BE6 */
    4.74528541206955367215e+02, /* 0x407DA874, 0xE79FE763 */
    -2.24409524465858183362e+01, /* 0xC03670E2, 0x42712D62 */
];

// The constants and cuts of f64.
pub static ERF64: Constants<f64> = Constants {
    not_finite: 0x7ff00000,
    at_0_84375: 0x3feb0000,
    erf_from: 0x3e300000,
    erfc_from: 0x3c700000,
    at_1_4: 0x3fd00000,
    at_1_25: 0x3ff40000,
    at_1_0_35: 0x4006db6d,
    erf_upto: 0x40180000,
    erfc_upto: 0x403c0000,
    eighth: 0.125,
    half: 0.5,
    nine_sixteenths: 0.5625,
    one: 1.0,
    two: 2.0,
    eight: 8.0,
    tiny: f64::from_bits(0x0010000000000000),
    erx: ERX,
    efx8: EFX8,
    pp: &PP,
    qq: &QQ,
    pa: &PA,
    qa: &QA,
    ra: &RA,
    sa: &SA,
    rb: &RB,
    sb: &SB,
};

// erf and erfc of one number.
#[derive(Clone, Copy)]
pub struct Pair {
    pub erf: f64,
    pub erfc: f64,
}

pub fn erf_erfc(x: f64) -> Pair
    ensures { (result.erf ≡ erf_s x) × (result.erfc ≡ erfc_s x) }
{
    // a NaN leaves first: no later look at the bits of x has to allow for one
    if x != x {
        return Pair { erf: x, erfc: x };
    }
    let ix = size_word(x);
    let sign = sign(x);
    let y = ERF64.y_of_erfc(ix, x);
    Pair {
        erf: ERF64.erf_of(ix, sign, x, y),
        erfc: ERF64.erfc_of(ix, sign, x, y),
    }
}

pub fn erf(x: f64) -> f64
    ensures { result ≡ erf_s x }
{
    // a NaN leaves first: no later look at the bits of x has to allow for one
    if x != x {
        return x;
    }
    ERF64.erf(x)
}

pub fn erfc(x: f64) -> f64
    ensures { result ≡ erfc_s x }
{
    if x != x {
        return x;
    }
    ERF64.erfc(x)
}
