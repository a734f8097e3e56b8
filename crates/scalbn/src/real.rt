// What scalbn needs of a width: the exponents of its normal powers of two, the bits of a significand, and a number by its exponent's field.
ghost use Rattle.std.specs.Prelude.{◌≡◌, ◌*◌, ◌%◌, ℤ, pos, negsuc, refl};
ghost use Rattle.std.specs.Float.Ieee.{hid, top, of_bits};
ghost use Rattle.scalbn.specs.Scalbn.{exp_max, exp_min, sig_total_bits};

use words::real::Real;

pub trait Scale: Real {
    ghost EXP_MAX: { ℤ };

    ghost EXP_MIN: { ℤ };

    ghost SIG_TOTAL_BITS: { ℤ };

    const EXP_MAX: i32;

    const EXP_MIN: i32;

    const SIG_TOTAL_BITS: i32;

    // The Rust's from_parts(false, field, 0). A bit that has no place is left out.
    fn from_field(field: u32) -> Self
        ensures { Self.float result ≡ of_bits Self.format (field * hid Self.format % (2 * top Self.format)) };

    ghost max_law: { EXP_MAX ≡ exp_max Self.format };

    ghost min_law: { EXP_MIN ≡ exp_min Self.format };

    ghost bits_law: { SIG_TOTAL_BITS ≡ sig_total_bits Self.format };
}

impl Scale for f64 {
    ghost EXP_MAX = { pos 1023 };

    ghost EXP_MIN = { negsuc 1021 };

    ghost SIG_TOTAL_BITS = { pos 53 };

    const EXP_MAX: i32 = 1023;

    const EXP_MIN: i32 = -1022;

    const SIG_TOTAL_BITS: i32 = 53;

    fn from_field(field: u32) -> f64 {
        f64::from_pattern((field as u64).wrapping_mul(0x10_0000_0000_0000))
    }

    ghost max_law = { refl };

    ghost min_law = { refl };

    ghost bits_law = { refl };
}

impl Scale for f32 {
    ghost EXP_MAX = { pos 127 };

    ghost EXP_MIN = { negsuc 125 };

    ghost SIG_TOTAL_BITS = { pos 24 };

    const EXP_MAX: i32 = 127;

    const EXP_MIN: i32 = -126;

    const SIG_TOTAL_BITS: i32 = 24;

    fn from_field(field: u32) -> f32 {
        f32::from_pattern(field.wrapping_mul(0x80_0000))
    }

    ghost max_law = { refl };

    ghost min_law = { refl };

    ghost bits_law = { refl };
}
