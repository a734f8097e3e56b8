// Bit patterns both ways, on every pattern and in either width, and the words of an f64's. Every NaN has one pattern.
ghost use Rattle.std.specs.Prelude.{◌≡◌};
ghost use Rattle.std.specs.Float.Ieee.{to_bits, of_bits};
ghost use Rattle.words.specs.Bits.{sign_s, high_word_s, low_word_s, with_high_word_s, with_low_word_s};

use crate::real::Real;

// The Rust's to_bits, with the one pattern for a NaN.
pub fn bits_of<R: Real>(x: R) -> R::Bits
    ensures { R.number result ≡ to_bits R.format (R.float x) }
{
    x.bits()
}

// The Rust's from_bits.
pub fn of_bits<R: Real>(n: R::Bits) -> R
    ensures { R.float result ≡ of_bits R.format (R.number n) }
{
    R::from_pattern(n)
}

// 1 where the sign bit is set, else 0.
pub fn sign<R: Real>(x: R) -> u32
    ensures { result ≡ sign_s R.format (R.float x) }
{
    x.sign()
}

// The high word of an f64's size, and of an f32's all of it.
pub fn size_word<R: Real>(x: R) -> u32
    ensures { result ≡ R.word (R.float x) }
{
    x.size_word()
}

pub fn get_high_word(x: f64) -> u32
    ensures { result ≡ high_word_s x }
{
    (bits_of(x) / 0x1_0000_0000) as u32
}

pub fn get_low_word(x: f64) -> u32
    ensures { result ≡ low_word_s x }
{
    (bits_of(x) % 0x1_0000_0000) as u32
}

pub fn with_set_high_word(x: f64, hi: u32) -> f64
    ensures { result ≡ with_high_word_s x hi }
{
    of_bits(hi as u64 * 0x1_0000_0000 + get_low_word(x) as u64)
}

pub fn with_set_low_word(x: f64, lo: u32) -> f64
    ensures { result ≡ with_low_word_s x lo }
{
    of_bits(get_high_word(x) as u64 * 0x1_0000_0000 + lo as u64)
}

// with_set_low_word(x, 0). A NaN goes a way of its own. Its two divisions are too dear for the compiler to do them ahead: after `return x` it
// would work out both ways and choose, and every x would wait for the choice.
pub fn clear_low_word(x: f64) -> f64
    ensures { result ≡ with_low_word_s x 0 }
{
    if x != x {
        let d = x - x;
        return d / d / d;
    }
    f64::from_bits(f64::to_bits(x) / 0x1_0000_0000 * 0x1_0000_0000)
}
