// Numbers in lower-case hex, the highest digit first: read from a text, and written into one.
#![tactic(auto)]

ghost use Rattle.std.specs.Prelude.{◌≡◌, ◌<◌, ◌^◌, ◌/◌, ◌%◌};
ghost use Rattle.std.proofs.lemmas.List.Edits.{sets};
ghost use Rattle.hexadecimal.specs.Hex.{char_of, digit_s, hex, number_s};

// The digit that a character is.
#[tactic(auto, using(crate::proofs::HexLaws::figure_s, crate::proofs::HexLaws::letter_s, crate::proofs::HexLaws::none_s))]
fn digit(c: u8) -> Option<u64>
    ensures { result ≡ digit_s c }
{
    match c {
        b'0'..=b'9' => Some(u64::from(c - b'0')),
        b'a'..=b'f' => Some(u64::from(c - b'a') + 10),
        _ => None,
    }
}

// The character of a digit.
#[tactic(auto, unfolding(crate::specs::Hex::char_of))]
fn character(d: u64) -> u8
    requires { d < 16 }
    ensures { result ≡ char_of d }
{
    if d < 10 {
        b'0' + d as u8
    } else {
        b'a' + (d - 10) as u8
    }
}

// Digit number `i` of `x`, counted from the lowest.
#[tactic(auto, using(crate::proofs::HexLaws::shifted_16, crate::proofs::HexLaws::no_digit))]
fn digit_of(x: u64, i: usize) -> u64
    ensures { result ≡ x / 16 ^ i % 16 }
{
    if i < 16 { (x >> (i * 4)) % 16 } else { 0 }
}

// What a text says as a number: nothing, or a number of at most 16 digits.
#[tactic(auto, using(crate::proofs::HexLaws::long_none))]
pub fn get(s: &[u8]) -> Option<u64>
    ensures { result ≡ number_s s.now }
{
    if 16 < s.len() {
        return None;
    }
    let mut x = 0;
    for c in s {
        let d = digit(*c)?;
        x = x * 16 + d;
    }
    Some(x)
}

// Writes the `width` lowest digits of `x` from `at` on, as many of them as there is room for.
pub fn put(s: &mut [u8], at: usize, width: usize, x: u64)
    ensures { s.new ≡ sets s.old at (hex width x) }
{
    if s.len() <= at {
        return;
    }
    let end = at + width.min(s.len() - at);
    let part = &mut s[at..end];
    for (i, c) in part.iter_mut().enumerate() {
        *c = character(digit_of(x, width - 1 - i));
    }
}
