// How far two floats of one width lie apart on the line of its numbers, for comparison runs.
#![tactic(auto)]

ghost use Rattle.std.specs.Prelude.{◌≡◌, ℕ, ◌*◌, refl, None, Some};
ghost use Rattle.std.specs.Float.{Format, binary32, binary64};
ghost use Rattle.std.specs.Float.Ieee.{hid, ones, top, nan_bits};
ghost use Rattle.words.specs.Pick.{pick};
ghost use Rattle.distance.specs.Distance.{place_s, distance_s};

// The bit patterns of a width: u64 for f64, u32 for f32.
pub trait Pattern: Copy + Into<u64> {
    // The format of the width.
    ghost format: { Format };

    // The number that a pattern is.
    ghost number: { Self → ℕ };

    ghost SIGN: { ℕ };

    ghost INFINITY: { ℕ };

    // What the sign bit is worth.
    const SIGN: u64;

    // The pattern of an infinity. A NaN's is above it.
    const INFINITY: u64;

    ghost into_law: { (x : Self) (n : ℕ) → Self.converts x n → n ≡ number x };

    ghost sign_law: { SIGN ≡ top format };

    ghost infinity_law: { INFINITY ≡ ones format * hid format };
}

impl Pattern for u64 {
    ghost format = { binary64 };

    ghost number = { λ n. n };

    ghost SIGN = { top binary64 };

    ghost INFINITY = { ones binary64 * hid binary64 };

    const SIGN: u64 = 0x8000_0000_0000_0000;

    const INFINITY: u64 = 0x7ff0_0000_0000_0000;

    ghost into_law = { λ x n h. h };

    ghost sign_law = { refl };

    ghost infinity_law = { refl };
}

impl Pattern for u32 {
    ghost format = { binary32 };

    ghost number = { λ n. n };

    ghost SIGN = { top binary32 };

    ghost INFINITY = { ones binary32 * hid binary32 };

    const SIGN: u64 = 0x8000_0000;

    const INFINITY: u64 = 0x7f80_0000;

    ghost into_law = { λ x n h. h };

    ghost sign_law = { refl };

    ghost infinity_law = { refl };
}

// Where a number stands: its steps from zero, which the bits below the sign's count. A NaN stands nowhere.
#[tactic(auto, using(crate::proofs::PlaceCode::no_place, crate::proofs::PlaceCode::place_below, crate::proofs::PlaceCode::place_above))]
fn place<P: Pattern>(x: P) -> Option<i64>
    ensures { result ≡ pick (nan_bits P.format (P.number x)) None (Some (place_s P.format (P.number x))) }
{
    let bits: u64 = x.into();
    let steps = bits % P::SIGN;
    if steps > P::INFINITY {
        return None;
    }
    let up = steps as i64;
    Some(if bits >= P::SIGN { -up } else { up })
}

// From one float to the other, by their bits; None where one is a NaN.
#[tactic(auto, using(crate::proofs::PlaceCode::no_first, crate::proofs::PlaceCode::no_second, crate::proofs::PlaceCode::by_places))]
pub fn distance<P: Pattern>(a: P, b: P) -> Option<u64>
    ensures { result ≡ distance_s P.format (P.number a) (P.number b) }
{
    Some(place(a)?.abs_diff(place(b)?))
}
