// log2 of |x| in two parts, t1 + t2, where t1 has a cleared low word: the first half of pow.rs, after FreeBSD's msun.
// Reduction: |x| = 2^n ax. bp, to which ax is near, is 1 for ax up to sqrt(3/2), 1.5 up to sqrt(3), and 1 again for the half of an ax beyond.
// Approximation: with ss = (ax - bp) / (ax + bp), log(ax / bp) = 2 (ss + ss^3/3 + ..), by L1 to L6 in ss^2; CP = 2 / (3 ln2) brings it to base
// 2, and DP = log2(bp) and n are added. Each value is a high part with a cleared low word and a low part, so that products of two high parts
// are exact. For a huge y and |1 - x| up to 2^-20 near_one has log(1 + t) = t - t^2/2 + t^3/3 - t^4/4.
#![tactic(auto)]

ghost use Rattle.std.specs.Prelude.{◌≡◌, ℕ, ◌≤◌, pos, ◌-ℤ◌, Float, if◌then◌else◌};
ghost use Rattle.words.specs.Tests.{◌=?◌};
ghost use Rattle.pow_log.specs.Log2.{near_one_s, series_s, interval_s, normal_s, log2_s};

use poly::horner;
use words::bits::{clear_low_word, get_high_word, with_set_high_word};

// log2(|x|) is t1 + t2.
#[derive(Clone, Copy)]
pub struct Parts {
    pub t1: f64,
    pub t2: f64,
}

const DP_H: f64 = 5.84962487220764160156e-01; /* 0x3fe2b803_40000000 */

const DP_L: f64 = 1.35003920212974897128e-08; /* 0x3E4CFDEB, 0x43CFD006 */

const TWO53: f64 = 9007199254740992.0; /* 0x43400000_00000000 */

const L: [f64; 6] = [
    5.99999999999994648725e-01, /* 0x3fe33333_33333303 */
    4.28571428578550184252e-01, /* 0x3fdb6db6_db6fabff */
    3.33333329818377432918e-01, /* 0x3fd55555_518f264d */
    2.72728123808534006489e-01, /* 0x3fd17460_a91d4101 */
    2.30660745775561754067e-01, /* 0x3fcd864a_93c9db65 */
    2.06975017800338417784e-01, /* 0x3fca7e28_4a454eef */
];

const CP: f64 = 9.61796693925975554329e-01; /* 0x3feec709_dc3a03fd =2/(3ln2) */

const CP_H: f64 = 9.61796700954437255859e-01; /* 0x3feec709_e0000000 =(float)cp */

const CP_L: f64 = -7.02846165095275826516e-09; /* 0xbe3e2fe0_145b01f5 =tail of cp_h*/

const IVLN2: f64 = 1.44269504088896338700e+00; /* 0x3ff71547_652b82fe =1/ln2 */

const IVLN2_H: f64 = 1.44269502162933349609e+00; /* 0x3ff71547_60000000 =24b 1/ln2*/

const IVLN2_L: f64 = 1.92596299112661746887e-08; /* 0x3e54ae0b_f85ddf44 =1/ln2 tail*/

// |1-x| is at most 2^-20.
#[tactic(auto, unfolding(crate::specs::Log2::near_one_s))]
pub fn near_one(ax: f64) -> Parts
    ensures { result ≡ near_one_s ax }
{
    let t = ax - 1.0;
    let w = (t * t) * (0.5 - t * (0.3333333333333333333333 - t * 0.25));
    let u = IVLN2_H * t;
    let v = t * IVLN2_L - w * IVLN2;
    let t1 = clear_low_word(u + v);
    Parts {
        t1,
        t2: v - (t1 - u),
    }
}

#[tactic(auto, unfolding(crate::specs::Log2::series_s))]
fn series(ax: f64, bp: f64, t_h: f64, dp_h: f64, dp_l: f64, t: f64) -> Parts
    ensures { result ≡ series_s ax bp t_h dp_h dp_l t }
{
    let u = ax - bp;
    let v = 1.0 / (ax + bp);
    let ss = u * v;
    let s_h = clear_low_word(ss);
    let t_l = ax - (t_h - bp);
    let s_l = v * ((u - s_h * t_h) - s_h * t_l);
    // log(ax)
    let s2 = ss * ss;
    let r = s2 * s2 * horner(&L, s2) + s_l * (s_h + ss);
    let q2 = s_h * s_h;
    let r_h = clear_low_word(3.0 + q2 + r);
    let r_l = r - ((r_h - 3.0) - q2);
    // uu + vv = ss*(1+...)
    let uu = s_h * r_h;
    let vv = s_l * r_h + r_l * ss;
    // 2/(3log2)*(ss+...)
    let p_h = clear_low_word(uu + vv);
    let p_l = vv - (p_h - uu);
    let z_h = CP_H * p_h;
    let z_l = CP_L * p_h + p_l * CP + dp_l;
    let t1 = clear_low_word(((z_h + z_l) + dp_h) + t);
    Parts {
        t1,
        t2: z_l - (((t1 - t) - dp_h) - z_h),
    }
}

// e - bias.
#[tactic(auto, using(crate::proofs::Integers::fits_difference, crate::proofs::Integers::held_difference))]
fn exponent(e: u32, bias: u32) -> i32
    requires { (e ≤ 0x1000) × (bias ≤ 0x1000) }
    ensures { result ≡ pos e -ℤ pos bias }
{
    e as i32 - bias as i32
}

// [a, b][k], as the Rust has BP[k], DP_H[k] and DP_L[k]: a choice, where a table would be read from memory.
fn at(k: u32, a: f64, b: f64) -> f64
    ensures { result ≡ (if k =? 0 then a else b) }
{
    if k == 0 { a } else { b }
}

// ax is near 1, between sqrt(3)/2 and sqrt(3/2), for a k of 0; for one of 1 near 1.5, between sqrt(3/2) and sqrt(3).
#[tactic(auto, unfolding(crate::specs::Log2::interval_s))]
fn interval(ax: f64, ix: u32, k: u32, n: i32) -> Parts
    requires { k ≤ 1 }
    ensures { result ≡ interval_s ax ix k n }
{
    let t_h = with_set_high_word(0.0, ix / 2 + 0x2008_0000 + k * 0x4_0000);
    series(
        with_set_high_word(ax, ix),
        at(k, 1.0, 1.5),
        t_h,
        at(k, 0.0, DP_H),
        at(k, 0.0, DP_L),
        n as f64,
    )
}

// ax's interval: the high word there, k, and n with 1023 added.
#[derive(Drop)]
struct Place {
    ix: u32,
    k: u32,
    e: u32,
}

#[tactic(auto, using(crate::proofs::Integers::through, crate::proofs::Integers::one_more), unfolding(crate::specs::Log2::normal_s))]
fn find(ix: u32) -> Place
    ensures bias_value { (ax : Float) (bias : ℕ) → interval_s ax result.ix result.k (pos result.e -ℤ pos bias) ≡ normal_s ax ix (pos 0x3FF -ℤ pos bias) }
    ensures k_bound { (result.k ≤ 1) × (result.e ≤ 0x1000) }
{
    let e = ix / 0x10_0000;
    let j = ix % 0x10_0000;
    if j <= 0x3988e {
        return Place {
            ix: j + 0x3ff0_0000,
            k: 0,
            e,
        };
    }
    if j < 0xbb67a {
        return Place {
            ix: j + 0x3ff0_0000,
            k: 1,
            e,
        };
    }
    Place {
        ix: j + 0x3fe0_0000,
        k: 0,
        e: e + 1,
    }
}

// ax is counted with 2^(1023 - bias). The interval is found first, so that the series stands in the compiled code once, not three times.
fn normal(ax: f64, ix: u32, bias: u32) -> Parts
    requires { (0x3FF ≤ bias) × (bias ≤ 0x434) }
    ensures { result ≡ normal_s ax ix (pos 0x3FF -ℤ pos bias) }
{
    let p = find(ix);
    interval(ax, p.ix, p.k, exponent(p.e, bias))
}

// A normal number, its high word, and the bias that it is counted with.
#[derive(Drop)]
struct Scaled {
    ax: f64,
    ix: u32,
    bias: u32,
}

// Of a subnormal number ax * 2^53. That is settled before `normal` is called, so that `normal` is called once.
#[tactic(auto, unfolding(crate::specs::Log2::log2_s))]
fn normalised(ax: f64, ix: u32) -> Scaled
    ensures bias_value { normal_s result.ax result.ix (pos 0x3FF -ℤ pos result.bias) ≡ log2_s ax ix }
    ensures le_bias { (0x3FF ≤ result.bias) × (result.bias ≤ 0x434) }
{
    if ix < 0x10_0000 {
        let ax = ax * TWO53;
        return Scaled {
            ax,
            ix: get_high_word(ax),
            bias: 0x434,
        };
    }
    Scaled {
        ax,
        ix,
        bias: 0x3ff,
    }
}

pub fn log2(ax: f64, ix: u32) -> Parts
    ensures { result ≡ log2_s ax ix }
{
    let s = normalised(ax, ix);
    normal(s.ax, s.ix, s.bias)
}
