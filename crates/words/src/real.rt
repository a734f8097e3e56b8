// What f64 and f32 have in common, so that a function of both widths is written once: the operators, each rounded once, tests, literals, the bits
// with one pattern for a NaN, and a number as the definitions see it.
ghost use Rattle.std.specs.Prelude.{◌≡◌, ◌*◌, ℕ, true, Float, refl};
ghost use Rattle.std.specs.Ordering.{partial_lt};
ghost use Rattle.std.specs.Float.{Format, binary32, binary64};
ghost use Rattle.std.specs.Float.Ieee as Ieee;
ghost use Rattle.words.specs.Bits.{sign_s, size_word_s, size_bits_s};
ghost use Rattle.words.specs.Fabs.{fabs_s};
ghost use Rattle.words.specs.Real.{lt_is};

use std::ops::{Add, Div, Mul, Neg, Sub};

const NAN: u64 = 0x7ff8_0000_0000_0000;

const NAN_F32: u32 = 0x7fc0_0000;

pub trait Real: Copy
    + PartialOrd
    + Add<Self, Output = Self>
    + Sub<Self, Output = Self>
    + Mul<Self, Output = Self>
    + Div<Self, Output = Self>
    + Neg<Output = Self> {
    // A pattern of the width, u64 or u32.
    type Bits: Copy;

    // The number that a pattern is.
    ghost number: { Self.Bits → ℕ };

    // The format of the width.
    ghost format: { Format };

    // A number as the definitions see it.
    ghost float: { Self → Float };

    // What the Rust's tests look at: of an f64 the high word of the size, of an f32 the bits of the size.
    ghost word: { Float → ℕ };

    // The literals.
    ghost ZERO: { Self };

    ghost HALF: { Self };

    ghost ONE: { Self };

    ghost TWO: { Self };

    const ZERO: Self;

    const HALF: Self;

    const ONE: Self;

    const TWO: Self;

    // The Rust's to_bits, with the one pattern for a NaN.
    fn bits(self) -> Self::Bits
        ensures { number result ≡ Ieee.to_bits format (float self) };

    // The Rust's from_bits.
    fn from_pattern(n: Self::Bits) -> Self
        ensures { float result ≡ Ieee.of_bits format (number n) };

    // That word.
    fn size_word(self) -> u32
        ensures { result ≡ word (float self) };

    // 1 where the sign bit is set, else 0.
    fn sign(self) -> u32
        ensures { result ≡ sign_s format (float self) };

    // The Rust's fabs: the sign bit cleared. A NaN leaves first: where a caller has looked for one already, the compiler drops the test, and one
    // instruction is left.
    fn fabs(self) -> Self
        ensures holds { Ieee.fits format (float self) ≡ true }
        ensures value { float result ≡ fabs_s (float self) };

    // The Rust's `k as f64` or `k as f32`.
    fn of_int(k: i32) -> Self
        ensures { float result ≡ Ieee.of_int format k };

    ghost zero_law: { float ZERO ≡ Ieee.of_bits format 0 };

    ghost one_law: { float ONE ≡ Ieee.of_bits format (Ieee.emax format * Ieee.hid format) };

    ghost can_add_law: { (a b : Self) → Self.can_add a b };

    ghost add_law: { (a b r : Self) → Self.add_gives a b r → float r ≡ Ieee.add format (float a) (float b) };

    ghost can_sub_law: { (a b : Self) → Self.can_sub a b };

    ghost sub_law: { (a b r : Self) → Self.sub_gives a b r → float r ≡ Ieee.sub format (float a) (float b) };

    ghost can_mul_law: { (a b : Self) → Self.can_mul a b };

    ghost mul_law: { (a b r : Self) → Self.mul_gives a b r → float r ≡ Ieee.mul format (float a) (float b) };

    ghost can_div_law: { (a b : Self) → Self.can_div a b };

    ghost div_law: { (a b r : Self) → Self.div_gives a b r → float r ≡ Ieee.div format (float a) (float b) };

    ghost can_neg_law: { (a : Self) → Self.can_neg a };

    ghost neg_law: { (a r : Self) → Self.neg_gives a r → float r ≡ Ieee.neg (float a) };

    ghost eq_law: { (a b : Self) → Self.eq a b ≡ Ieee.eq (float a) (float b) };

    ghost lt_law: { (a b : Self) → partial_lt Self.partial_cmp a b ≡ Ieee.lt (float a) (float b) };
}

impl Real for f64 {
    type Bits = u64;

    ghost number = { λ n. n };

    ghost format = { binary64 };

    ghost float = { λ x. x };

    ghost word = { size_word_s };

    ghost ZERO = { Ieee.of_bits binary64 0x0000000000000000 };

    ghost HALF = { Ieee.of_bits binary64 0x3FE0000000000000 };

    ghost ONE = { Ieee.of_bits binary64 0x3FF0000000000000 };

    ghost TWO = { Ieee.of_bits binary64 0x4000000000000000 };

    const ZERO: f64 = 0.0;

    const HALF: f64 = 0.5;

    const ONE: f64 = 1.0;

    const TWO: f64 = 2.0;

    fn bits(self) -> u64 {
        if self != self {
            NAN
        } else {
            f64::to_bits(self)
        }
    }

    fn from_pattern(n: u64) -> f64 {
        if n % 0x8000_0000_0000_0000 > 0x7ff0_0000_0000_0000 {
            return 0.0 / 0.0;
        }
        f64::from_bits(n)
    }

    fn size_word(self) -> u32 {
        (self.bits() / 0x1_0000_0000) as u32 % 0x8000_0000
    }

    fn sign(self) -> u32 {
        (self.bits() / 0x8000_0000_0000_0000) as u32
    }

    fn fabs(self) -> f64 {
        if self != self {
            return self;
        }
        f64::from_bits(f64::to_bits(self) % 0x8000_0000_0000_0000)
    }

    fn of_int(k: i32) -> f64 {
        k as f64
    }

    ghost zero_law = { refl };

    ghost one_law = { refl };

    ghost can_add_law = { λ a b. tt };

    ghost add_law = { λ a b r h. h };

    ghost can_sub_law = { λ a b. tt };

    ghost sub_law = { λ a b r h. h };

    ghost can_mul_law = { λ a b. tt };

    ghost mul_law = { λ a b r h. h };

    ghost can_div_law = { λ a b. tt };

    ghost div_law = { λ a b r h. h };

    ghost can_neg_law = { λ a. tt };

    ghost neg_law = { λ a r h. h };

    ghost eq_law = { λ a b. refl };

    ghost lt_law = { lt_is };
}

impl Real for f32 {
    type Bits = u32;

    ghost number = { λ n. n };

    ghost format = { binary32 };

    ghost float = { λ x. x };

    ghost word = { size_bits_s };

    ghost ZERO = { Ieee.of_bits binary32 0x00000000 };

    ghost HALF = { Ieee.of_bits binary32 0x3F000000 };

    ghost ONE = { Ieee.of_bits binary32 0x3F800000 };

    ghost TWO = { Ieee.of_bits binary32 0x40000000 };

    const ZERO: f32 = 0.0;

    const HALF: f32 = 0.5;

    const ONE: f32 = 1.0;

    const TWO: f32 = 2.0;

    fn bits(self) -> u32 {
        if self != self {
            NAN_F32
        } else {
            f32::to_bits(self)
        }
    }

    fn from_pattern(n: u32) -> f32 {
        if n % 0x8000_0000 > 0x7f80_0000 {
            return 0.0 / 0.0;
        }
        f32::from_bits(n)
    }

    fn size_word(self) -> u32 {
        self.bits() % 0x8000_0000
    }

    fn sign(self) -> u32 {
        self.bits() / 0x8000_0000
    }

    fn fabs(self) -> f32 {
        if self != self {
            return self;
        }
        f32::from_bits(f32::to_bits(self) % 0x8000_0000)
    }

    fn of_int(k: i32) -> f32 {
        float_of(k)
    }

    ghost zero_law = { refl };

    ghost one_law = { refl };

    ghost can_add_law = { λ a b. tt };

    ghost add_law = { λ a b r h. h };

    ghost can_sub_law = { λ a b. tt };

    ghost sub_law = { λ a b r h. h };

    ghost can_mul_law = { λ a b. tt };

    ghost mul_law = { λ a b r h. h };

    ghost can_div_law = { λ a b. tt };

    ghost div_law = { λ a b r h. h };

    ghost can_neg_law = { λ a. tt };

    ghost neg_law = { λ a r h. h };

    ghost eq_law = { λ a b. refl };

    ghost lt_law = { lt_is };
}

// The f32 nearest to k. Where k is small it is k itself, and `as` is one instruction; std's rounds two halves and adds them.
fn float_of(k: i32) -> f32
    ensures { result ≡ Ieee.of_int binary32 k }
{
    if k > 16777215 {
        return std::num::nearest_i32_to_f32(k);
    }
    if k < -16777215 {
        return std::num::nearest_i32_to_f32(k);
    }
    k as f32
}
