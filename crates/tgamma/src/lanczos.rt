// s: the Lanczos quotient S(x), of two polynomials of degree 12, for positive x. From 8 on both are taken in 1/x, so that no sum grows large.
ghost use Rattle.std.specs.Prelude.{◌≡◌};
ghost use Rattle.words.specs.F64.{bits};
ghost use Rattle.tgamma.specs.Lanczos.{down_s, up_s, s_s};

const SNUM: [f64; 13] = [
    23531376880.410759688572007674451636754734846804940,
    42919803642.649098768957899047001988850926355848959,
    35711959237.355668049440185451547166705960488635843,
    17921034426.037209699919755754458931112671403265390,
    6039542586.3520280050642916443072979210699388420708,
    1439720407.3117216736632230727949123939715485786772,
    248874557.86205415651146038641322942321632125127801,
    31426415.585400194380614231628318205362874684987640,
    2876370.6289353724412254090516208496135991145378768,
    186056.26539522349504029498971604569928220784236328,
    8071.6720023658162106380029022722506138218516325024,
    210.82427775157934587250973392071336271166969580291,
    2.5066282746310002701649081771338373386264310793408,
];

const SDEN: [f64; 13] = [
    0.0,
    39916800.0,
    120543840.0,
    150917976.0,
    105258076.0,
    45995730.0,
    13339535.0,
    2637558.0,
    357423.0,
    32670.0,
    1925.0,
    66.0,
    1.0,
];

// a * x + c, with the last coefficient first.
#[tactic(auto, using(crate::proofs::Turns::down_is))]
fn down(cs: &[f64], x: f64) -> f64
    ensures { result ≡ down_s cs.now x }
{
    cs.iter().rev().copied().fold(0.0, |a, c| a * x + c)
}

// a / x + c, with the first coefficient first.
#[tactic(auto, using(crate::proofs::Turns::up_is))]
fn up(cs: &[f64], x: f64) -> f64
    ensures { result ≡ up_s (bits 0) cs.now x }
{
    cs.iter().copied().fold(0.0, |a, c| a / x + c)
}

/* S(x) rational function for positive x */
#[tactic(auto, unfolding(crate::specs::Lanczos::s_s))]
pub(crate) fn s(x: f64) -> f64
    ensures { result ≡ s_s x }
{
    /* to avoid overflow handle large x differently */
    if x < 8.0 {
        return down(&SNUM, x) / down(&SDEN, x);
    }
    up(&SNUM, x) / up(&SDEN, x)
}
