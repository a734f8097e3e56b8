// What erf and erfc ask of f64 and of f32 beyond exp.
ghost use Rattle.std.specs.Prelude.{◌≡◌, ◌*◌, ◌/◌, ◌^◌, ℕ, pos};
ghost use Rattle.std.specs.Float.Ieee.{of_bits, of_int, to_bits};
ghost use Rattle.words.specs.Bits.{sign_s};

use exp::real::Exp;
use words::bits::{clear_low_word, sign};

pub trait Width: Exp {
    // How many low bits z loses.
    ghost lost: { ℕ };

    // z: the number with so many low bits cleared.
    fn short(self) -> Self
        ensures { Self.float result ≡ of_bits Self.format (to_bits Self.format (Self.float self) / 2 ^ lost * 2 ^ lost) };

    // 1 where the sign bit is set, else 0: the Rust's `sign as f64` or `sign as f32`.
    fn sign_number(self) -> Self
        ensures { Self.float result ≡ of_int Self.format (pos (sign_s Self.format (Self.float self))) };
}

impl Width for f64 {
    ghost lost = { 32 };

    // x with its low word cleared.
    fn short(self) -> f64 {
        clear_low_word(self)
    }

    fn sign_number(self) -> f64 {
        sign(self) as f64
    }
}

impl Width for f32 {
    ghost lost = { 13 };

    // x with its 13 low bits cleared, the Rust's mask 0xffffe000.
    fn short(self) -> f32 {
        if self != self {
            return self;
        }
        f32::from_bits(f32::to_bits(self) / 0x2000 * 0x2000)
    }

    fn sign_number(self) -> f32 {
        sign(self) as f32
    }
}
