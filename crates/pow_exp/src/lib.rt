// s times 2 to the power of y (t1 + t2): the second half of pow.rs, after FreeBSD's msun. y is y1 + (y - y1), y1 with a cleared low word, so that
// p_h = y1 t1 is exact; p_l is the rest, and z their sum. 2^z overflows from 1024 on and vanishes from -1075 down; at these two p_l decides.
// Between, n is the whole number nearest to z, 2^(z - n) is e^((z - n) ln2) by exp's polynomial with ln2 in two parts, and n goes into the
// exponent's field, or by scalbn where the answer is subnormal.
#![tactic(auto)]

ghost use Rattle.std.specs.Prelude.{◌≡◌, ◌%◌, ◌^◌, ◌≤◌};
ghost use Rattle.pow_exp.specs.Exp2.{word, fraction_s, scaled_s, exp2_s, large_s, small_s, bounded_s, product_s};

use poly::horner;
use pow_log::Parts;
use scalbn::scalbn;
use words::bits::{clear_low_word, get_high_word, get_low_word, with_set_high_word};

pub const HUGE: f64 = 1.0e300;

pub const TINY: f64 = 1.0e-300;

const P: [f64; 5] = [
    1.66666666666666019037e-01, /* 0x3fc55555_5555553e */
    -2.77777777770155933842e-03, /* 0xbf66c16c_16bebd93 */
    6.61375632143793436117e-05, /* 0x3f11566a_af25de2c */
    -1.65339022054652515390e-06, /* 0xbebbbd41_c5d26bf1 */
    4.13813679705723846039e-08, /* 0x3e663769_72bea4d0 */
];

const LG2: f64 = 6.93147180559945286227e-01; /* 0x3fe62e42_fefa39ef */

const LG2_H: f64 = 6.93147182464599609375e-01; /* 0x3fe62e43_00000000 */

const LG2_L: f64 = -1.90465429995776804525e-09; /* 0xbe205c61_0ca86c39 */

const OVT: f64 = 8.0085662595372944372e-017; /* -(1024-log2(ovfl+.5ulp)) */

// 2^(p_h + p_l), for a small p_h + p_l.
#[tactic(auto, unfolding(crate::specs::Exp2::fraction_s))]
fn fraction(p_h: f64, p_l: f64) -> f64
    ensures { result ≡ fraction_s p_h p_l }
{
    let c = clear_low_word(p_l + p_h);
    let u = c * LG2_H;
    let v = (p_l - (c - p_h)) * LG2 + c * LG2_L;
    let z = u + v;
    let w = v - (z - u);
    let t = z * z;
    let t1 = z - t * horner(&P, t);
    let r = (z * t1) / (t1 - 2.0) - (w + z * w);
    1.0 - (r - z)
}

// z times 2^n, where w is the word of n: an i32 below 0 cannot be cast to it.
#[tactic(auto, unfolding(crate::specs::Exp2::scaled_s))]
fn scaled(z: f64, n: i32, w: u32) -> f64
    requires { w ≡ word n }
    ensures { result ≡ scaled_s z n }
{
    // j += n << 20
    let j = ((get_high_word(z) as u64 + w as u64 * 0x10_0000) % 0x1_0000_0000) as u32;
    if j < 0x10_0000 || j >= 0x8000_0000 {
        return scalbn(z, n);
    }
    with_set_high_word(z, j)
}

// 2^(p_h + p_l), where j is the high word of p_h + p_l.
fn exp2(s: f64, p_h: f64, p_l: f64, j: u32) -> f64
    requires { j % 2 ^ 31 ≤ 0x4090CC00 }
    ensures { result ≡ exp2_s s p_h p_l j }
{
    let i = j % 0x8000_0000;
    if i <= 0x3fe0_0000 {
        return s * scaled(fraction(p_h, p_l), 0, 0);
    }
    // n = [z + 0.5]: h is the high word of z + 0.5 in size, and its lower d digits are below n's unit
    let h = j + (0x10_0000u32 >> (i / 0x10_0000 - 0x3fe));
    let d = 0x413 - h % 0x8000_0000 / 0x10_0000;
    let t = with_set_high_word(0.0, (h >> d) << d);
    let n = (h % 0x10_0000 + 0x10_0000) >> d;
    if j < 0x8000_0000 {
        return s * scaled(fraction(p_h - t, p_l), n as i32, n);
    }
    s * scaled(fraction(p_h - t, p_l), 0 - n as i32, 0xffff_ffff - n + 1)
}

// z >= 1024
#[tactic(auto, unfolding(crate::specs::Exp2::large_s))]
fn large(s: f64, p_h: f64, p_l: f64, z: f64, j: u32, i: u32) -> f64
    ensures { result ≡ large_s s p_h p_l z j i }
{
    if j != 0x4090_0000 || i != 0 || p_l + OVT > z - p_h {
        return s * HUGE * HUGE;
    }
    exp2(s, p_h, p_l, j)
}

// z <= -1075
#[tactic(auto, unfolding(crate::specs::Exp2::small_s))]
fn small(s: f64, p_h: f64, p_l: f64, z: f64, j: u32, i: u32) -> f64
    ensures { result ≡ small_s s p_h p_l z j i }
{
    if j != 0xc090_cc00 || i != 0 || p_l <= z - p_h {
        return s * TINY * TINY;
    }
    exp2(s, p_h, p_l, j)
}

#[tactic(auto, unfolding(crate::specs::Exp2::bounded_s))]
fn bounded(s: f64, p_h: f64, p_l: f64, z: f64, j: u32, i: u32) -> f64
    ensures { result ≡ bounded_s s p_h p_l z j i }
{
    if j < 0x4090_0000 {
        return exp2(s, p_h, p_l, j);
    }
    if j < 0x8000_0000 {
        return large(s, p_h, p_l, z, j, i);
    }
    if j >= 0xc090_cc00 {
        return small(s, p_h, p_l, z, j, i);
    }
    exp2(s, p_h, p_l, j)
}

// s * 2^(y * (t1 + t2))
#[tactic(auto, unfolding(crate::specs::Exp2::product_s))]
pub fn product(s: f64, y: f64, t: Parts) -> f64
    ensures { result ≡ product_s s y t }
{
    let y1 = clear_low_word(y);
    let p_l = (y - y1) * t.t1 + y * t.t2;
    let p_h = y1 * t.t1;
    let z = p_l + p_h;
    bounded(s, p_h, p_l, z, get_high_word(z), get_low_word(z))
}
