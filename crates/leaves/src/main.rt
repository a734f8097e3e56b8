// Answers questions to single leaves, for the comparison with the Rust. A request is three u64, the lowest byte first: the leaf's number,
// and its arguments' bits a and b. Its answer is one u64. A number that is not listed is answered by all ones.
//
//  1 fabs             5 get_high_word    9 with_set_high_word(a, b)
//  2 floor            6 get_low_word    10 with_set_low_word(a, b)
//  3 whole's number   7 sign            12 whole's fraction, 1 or 0
//  4 narrow           8 size_word
// 16 to 20 horner at a, over no coefficient, the first, the first two and all of erf's PP, and over erf's SA
// 33 fabs           36 sign        39 logf
// 34 floor          37 size_word       40 scalbnf(a, b), b an i32
// 35 wholef's number 38 expf            45 wholef's fraction, 1 or 0
// 41 erff            43 lgammaf_r: its sign above its value
// 42 erfcf           44 tgammaf
// 48 to 51 horner at a, over no coefficient, the first, the first two and all of erff's PP
// 64 scalbn(a, b), b an i32
// 65 exp
// 66 log            68 k_sin(a, 0, 0)
// 67 k_sin(a, b, 1) 69 k_cos(a, b)
// 70 sqrt          72 k_sinf
// 71 pow(a, b)     73 k_cosf
// 80 erf           81 erfc
// 85 erf_erfc's erf  86 erf_erfc's erfc
// 82 lgamma_r's value  83 lgamma_r's sign
// 84 tgamma
// 96 distance(a, b), and 97 its code; 98 distance_f32(a, b), and 99 its code
//
// An argument or an answer of 32 bits is the low half of its u64, and an i32 is its two's complement.
#![tactic(auto)]

use digits::{get, put};
use distance::distance;
use erf::{erf, erf_erfc, erfc};
use erff::{erfcf, erff};
use exp::exp;
use exp::single::expf;
use floor::floor;
use lgamma::lgamma_r;
use lgammaf::lgammaf_r;
use logarithm::log;
use logarithm::single::logf;
use narrow::narrow;
use poly::horner;
use pow::pow;
use scalbn::scalbn;
use session::port::{read_full, write_all};
use sqrt::sqrt;
use std::io::{Stdin, Stdout};
use tgamma::tgamma;
use tgammaf::tgammaf;
use trig::single::{k_cosf, k_sinf};
use trig::{k_cos, k_sin};
use whole::{whole, wholef};
use words::bits::{
    bits_of, get_high_word, get_low_word, of_bits, sign, size_word, with_set_high_word,
    with_set_low_word,
};
use words::fabs::fabs;

const UNKNOWN: u64 = 0xffff_ffff_ffff_ffff;

const PP: [f64; 5] = [
    1.28379167095512558561e-01,
    -3.25042107247001499370e-01,
    -2.84817495755985104766e-02,
    -5.77027029648944159157e-03,
    -2.37630166566501626084e-05,
];

const SA: [f64; 9] = [
    1.0,
    1.96512716674392571292e+01,
    1.37657754143519042600e+02,
    4.34565877475229228821e+02,
    6.45387271733267880336e+02,
    4.29008140027567833386e+02,
    1.08635005541779435134e+02,
    6.57024977031928170135e+00,
    -6.04244152148580987438e-02,
];

const PP_F32: [f32; 5] = [
    1.2837916613e-01,
    -3.2504209876e-01,
    -2.8481749818e-02,
    -5.7702702470e-03,
    -2.3763017452e-05,
];

fn low_half(x: u64) -> u32 {
    (x % 0x1_0000_0000) as u32
}

// The 32 bits of a whole number.
fn pattern(k: i32) -> u64 {
    k.cast_unsigned() as u64
}

// A leaf of f64, at x and what b stands for.
fn answer_f64(leaf: u64, x: f64, b: u64) -> u64 {
    match leaf {
        1 => bits_of(fabs(x)),
        2 => bits_of(floor(x)),
        3 => pattern(whole(x).number),
        4 => bits_of(narrow(x)) as u64,
        5 => get_high_word(x) as u64,
        6 => get_low_word(x) as u64,
        7 => sign(x) as u64,
        8 => size_word(x) as u64,
        9 => bits_of(with_set_high_word(x, low_half(b))),
        10 => bits_of(with_set_low_word(x, low_half(b))),
        12 => whole(x).fraction as u64,
        16 => bits_of(horner(&PP[..0], x)),
        17 => bits_of(horner(&PP[..1], x)),
        18 => bits_of(horner(&PP[..2], x)),
        19 => bits_of(horner(&PP, x)),
        20 => bits_of(horner(&SA, x)),
        64 => bits_of(scalbn(x, low_half(b).cast_signed())),
        65 => bits_of(exp(x)),
        66 => bits_of(log(x)),
        67 => bits_of(k_sin(x, of_bits(b), 1)),
        68 => bits_of(k_sin(x, 0.0, 0)),
        69 => bits_of(k_cos(x, of_bits(b))),
        70 => bits_of(sqrt(x)),
        71 => bits_of(pow(x, of_bits(b))),
        72 => bits_of(k_sinf(x)) as u64,
        73 => bits_of(k_cosf(x)) as u64,
        _ => function(leaf, x),
    }
}

// One of the functions.
fn function(leaf: u64, x: f64) -> u64 {
    match leaf {
        80 => bits_of(erf(x)),
        81 => bits_of(erfc(x)),
        82 => bits_of(lgamma_r(x).value),
        83 => pattern(lgamma_r(x).sign),
        84 => bits_of(tgamma(x)),
        85 => bits_of(erf_erfc(x).erf),
        86 => bits_of(erf_erfc(x).erfc),
        _ => UNKNOWN,
    }
}

// A leaf of f32, at x and what b stands for.
fn answer_f32(leaf: u64, x: f32, b: u32) -> u64 {
    match leaf {
        33 => bits_of(fabs(x)) as u64,
        34 => bits_of(floor(x)) as u64,
        35 => pattern(wholef(x).number),
        36 => sign(x) as u64,
        37 => size_word(x) as u64,
        38 => bits_of(expf(x)) as u64,
        39 => bits_of(logf(x)) as u64,
        40 => bits_of(scalbn(x, b.cast_signed())) as u64,
        41 => bits_of(erff(x)) as u64,
        42 => bits_of(erfcf(x)) as u64,
        43 => sign_and_value(x),
        44 => bits_of(tgammaf(x)) as u64,
        45 => wholef(x).fraction as u64,
        48 => bits_of(horner(&PP_F32[..0], x)) as u64,
        49 => bits_of(horner(&PP_F32[..1], x)) as u64,
        50 => bits_of(horner(&PP_F32[..2], x)) as u64,
        51 => bits_of(horner(&PP_F32, x)) as u64,
        _ => UNKNOWN,
    }
}

// Its sign's 32 bits above the value's.
fn sign_and_value(x: f32) -> u64 {
    let t = lgammaf_r(x);
    t.sign.cast_unsigned() as u64 * 0x1_0000_0000 + bits_of(t.value) as u64
}

// The code of a distance.
fn code(apart: Option<u64>) -> u64 {
    match apart {
        Some(_) => 0,
        None => 4,
    }
}

// The answer of one leaf.
fn answer(leaf: u64, a: u64, b: u64) -> u64 {
    match leaf {
        33..=51 => answer_f32(leaf, of_bits(low_half(a)), low_half(b)),
        96 => distance(a, b).unwrap_or(0),
        97 => code(distance(a, b)),
        98 => distance(low_half(a), low_half(b)).unwrap_or(0),
        99 => code(distance(low_half(a), low_half(b))),
        _ => answer_f64(leaf, of_bits(a), b),
    }
}

// Answers each whole request, as far as there is room.
fn answer_each(requests: &[u8], answers: &mut [u8]) {
    for (request, bits) in requests.chunks_exact(24).zip(answers.chunks_exact_mut(8)) {
        let leaf = get(request, 0, 8);
        put(
            bits,
            0,
            8,
            answer(leaf, get(request, 8, 8), get(request, 16, 8)),
        );
    }
}

// Reads requests until the buffer of 2048 is full or the input ends, answers them, and says whether to go on.
fn turn(mut input: Stdin, mut output: Stdout) -> bool {
    let mut requests = [0u8; 49152];
    let mut answers = [0u8; 16384];
    let got = read_full(&mut input, &mut requests);
    answer_each(&requests[..got], &mut answers);
    let is_written = write_all(&mut output, &answers[..got / 24 * 8]);
    is_written && got == 49152
}

// Nothing says that the input ends, so the turns are counted, up to a number that no run comes to.
fn main(rt: HostRuntime) {
    for _ in 0..u64::MAX {
        if !turn(rt.stdin(), rt.stdout()) {
            return;
        }
    }
}
