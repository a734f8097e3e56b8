// The functions by bits: the argument's in, the value's out, with one pattern for a NaN. Whoever has bytes or patterns calls these, and no
// crate above makes a float of bits. A NaN leaves by its pattern, before there is a float: the function's first tests, which are of the pattern
// of x, are then tests of the argument itself, and need not wait until it has gone through a float and back.
#![tactic(auto)]

ghost use Rattle.std.specs.Prelude.{◌≡◌, Float, pos};
ghost use Rattle.std.specs.Float.{nan, binary32, binary64};
ghost use Rattle.std.specs.Float.Ieee.{nan_bits, to_bits};
ghost use Rattle.lgamma.specs.Plan.{Answer};
ghost use Rattle.tgamma.specs.Tgamma.{tgamma_s};
ghost use Rattle.erf.specs.Erf64.{erf_s, erfc_s};
ghost use Rattle.lgamma.specs.Lgamma64.{lgamma_s};
ghost use Rattle.lgammaf.specs.Lgammaf.{lgammaf_s};
ghost use Rattle.tgammaf.specs.Tgammaf.{tgammaf_s};
ghost use Rattle.erff.specs.Erff.{erff_s, erfcf_s};
ghost use Rattle.by_bits.specs.Nan.{nan_pattern};
ghost use Rattle.by_bits.specs.ByBits.{on_bits, value_on_bits, sign_on_bits};

use words::bits::{bits_of, of_bits};
use words::real::Real;

// What a NaN is by its pattern, in either width.
trait Width: Real {
    ghost NAN_BITS: { Self.Bits };

    // The one pattern of an answer that is a NaN.
    const NAN_BITS: Self::Bits;

    fn is_nan_bits(x: Self::Bits) -> bool
        ensures { result ≡ nan_bits Self.format (Self.number x) };

    ghost nan_law: { Self.number NAN_BITS ≡ to_bits Self.format nan };
}

impl Width for f64 {
    ghost NAN_BITS = { 0x7FF8000000000000 };

    const NAN_BITS: u64 = 0x7ff8_0000_0000_0000;

    fn is_nan_bits(x: u64) -> bool {
        x % 0x8000_0000_0000_0000 > 0x7ff0_0000_0000_0000
    }

    ghost nan_law = { nan_pattern binary64 };
}

impl Width for f32 {
    ghost NAN_BITS = { 0x7FC00000 };

    const NAN_BITS: u32 = 0x7fc0_0000;

    fn is_nan_bits(x: u32) -> bool {
        x % 0x8000_0000 > 0x7f80_0000
    }

    ghost nan_law = { nan_pattern binary32 };
}

// the sign of log-gamma at a NaN
const NAN_SIGN: i32 = 1;

// A function by bits, of one that is g and keeps a NaN.
fn on_bits<R: Width, F: Fn(R) -> R>(f: F, x: R::Bits) -> R::Bits
    requires { F.IsAlwaysCallable f }
    ensures { (g : Float → Float) → ((a b : R) → F.post f a b → R.float b ≡ g (R.float a)) → g nan ≡ nan
        → R.number result ≡ on_bits R.format g (R.number x) }
{
    if R::is_nan_bits(x) {
        return R::NAN_BITS;
    }
    bits_of(f(of_bits(x)))
}

// A log-gamma answer by bits: the value's, and the sign, 1 or -1.
#[derive(Clone, Copy)]
pub struct SignedBits<B> {
    pub value: B,
    pub sign: i32,
}

// The same of a log-gamma, whose value and sign are g's.
fn signed_on_bits<R: Width, F: Fn(R) -> (R, i32)>(f: F, x: R::Bits) -> SignedBits<R::Bits>
    requires { F.IsAlwaysCallable f }
    ensures { (g : Float → Answer) → ((a b : R) (s : _) → F.post f a (b, s) → (R.float b ≡ (g (R.float a)).value) × (s ≡ (g (R.float a)).sign))
        → g nan ≡ record { value = nan; sign = pos 1 }
        → (R.number result.value ≡ value_on_bits R.format g (R.number x)) × (result.sign ≡ sign_on_bits R.format g (R.number x)) }
{
    if R::is_nan_bits(x) {
        return SignedBits {
            value: R::NAN_BITS,
            sign: NAN_SIGN,
        };
    }
    let (value, sign) = f(of_bits(x));
    SignedBits {
        value: bits_of(value),
        sign,
    }
}

pub fn tgamma_bits(x: u64) -> u64
    ensures { result ≡ on_bits binary64 tgamma_s x }
{
    on_bits(tgamma::tgamma, x)
}

pub fn lgamma_r_bits(x: u64) -> SignedBits<u64>
    ensures { (result.value ≡ value_on_bits binary64 lgamma_s x) × (result.sign ≡ sign_on_bits binary64 lgamma_s x) }
{
    signed_on_bits(
        |y| {
            let t = lgamma::lgamma_r(y);
            (t.value, t.sign)
        },
        x,
    )
}

pub fn erf_bits(x: u64) -> u64
    ensures { result ≡ on_bits binary64 erf_s x }
{
    on_bits(erf::erf, x)
}

pub fn erfc_bits(x: u64) -> u64
    ensures { result ≡ on_bits binary64 erfc_s x }
{
    on_bits(erf::erfc, x)
}

// erf and erfc of one number, by bits.
#[derive(Clone, Copy)]
pub struct PairBits {
    pub erf: u64,
    pub erfc: u64,
}

pub fn erf_erfc_bits(x: u64) -> PairBits
    ensures { (result.erf ≡ on_bits binary64 erf_s x) × (result.erfc ≡ on_bits binary64 erfc_s x) }
{
    if f64::is_nan_bits(x) {
        return PairBits {
            erf: f64::NAN_BITS,
            erfc: f64::NAN_BITS,
        };
    }
    let t = erf::erf_erfc(of_bits(x));
    PairBits {
        erf: bits_of(t.erf),
        erfc: bits_of(t.erfc),
    }
}

// The f32 functions, on the 32 bits of an f32.
pub fn lgammaf_r_bits(x: u32) -> SignedBits<u32>
    ensures { (result.value ≡ value_on_bits binary32 lgammaf_s x) × (result.sign ≡ sign_on_bits binary32 lgammaf_s x) }
{
    signed_on_bits(
        |y| {
            let t = lgammaf::lgammaf_r(y);
            (t.value, t.sign)
        },
        x,
    )
}

pub fn tgammaf_bits(x: u32) -> u32
    ensures { result ≡ on_bits binary32 tgammaf_s x }
{
    on_bits(tgammaf::tgammaf, x)
}

pub fn erff_bits(x: u32) -> u32
    ensures { result ≡ on_bits binary32 erff_s x }
{
    on_bits(erff::erff, x)
}

pub fn erfcf_bits(x: u32) -> u32
    ensures { result ≡ on_bits binary32 erfcf_s x }
{
    on_bits(erff::erfcf, x)
}
