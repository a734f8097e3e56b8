// Narrowing, the Rust's `as f32` on an f64, worked out on the bits.
#![tactic(auto)]

ghost use Rattle.std.specs.Prelude.{◌≡◌, ◌^◌, ◌<◌, ◌≤◌};
ghost use Rattle.std.specs.Float.{binary32, binary64};
ghost use Rattle.std.specs.Float.Ieee.{of_bits};
ghost use Rattle.std.specs.Float.Ieee.Nearest.{closest};
ghost use Rattle.narrow.specs.Narrow.{narrow_s};

use words::bits::bits_of;

// d / 2^w as the nearest whole number, of two equally near the even one.
fn nearest(d: u64, w: u64) -> u64
    requires { (0 < w) × (w < 64) }
    ensures { result ≡ closest d (2 ^ w) }
{
    let u = 1u64 << w;
    let q = d / u;
    let rest = d % u;
    if rest < u / 2 {
        return q;
    }
    if rest > u / 2 {
        return q + 1;
    }
    q + q % 2
}

// The same at 2^29, with no branch.
fn nearest29(d: u64) -> u64
    requires { d < 2 ^ 63 }
    ensures { result ≡ closest d (2 ^ 29) }
{
    (d + 0xfff_ffff + d / 0x2000_0000 % 2) / 0x2000_0000
}

// The f32 pattern, without its sign, for an f64's, without its sign, that is no NaN's.
fn narrowed(b: u64) -> u64
    requires { b ≤ 0x7ff0000000000000 }
    ensures { (of_bits binary32 result ≡ narrow_s (of_bits binary64 b)) × (result ≤ 0x7f800000) }
{
    if b >= 0x47f0_0000_0000_0000 {
        // 2^128 and more
        return 0x7f80_0000;
    }
    if b >= 0x3810_0000_0000_0000 {
        // 2^-126 and more: the exponent's field falls by 896, and 29 digits go
        return nearest29(b - 0x3800_0000_0000_0000);
    }
    let e = b / 0x10_0000_0000_0000;
    if e < 873 {
        // less than half of the smallest f32
        return 0;
    }
    // subnormal: how many of the smallest f32
    nearest(b % 0x10_0000_0000_0000 + 0x10_0000_0000_0000, 926 - e)
}

// The Rust's `x as f32`.
pub fn narrow(x: f64) -> f32
    ensures { result ≡ narrow_s x }
{
    if x != x {
        return 0.0 / 0.0;
    }
    let b = bits_of(x);
    let n = narrowed(b % 0x8000_0000_0000_0000);
    f32::from_bits((n + b / 0x8000_0000_0000_0000 * 0x8000_0000) as u32)
}
