// Numbers as bytes, the lowest first. `get` and `put` answer for every place and width: a byte that is not there counts as 0 where it is
// read, and is left out where it is written. Both have a case for eight bytes, of which the compiler makes one load or store.
#![tactic(auto)]

ghost use Rattle.std.specs.Prelude.{◌≡◌, ◌<◌, length, take, drop};
ghost use Rattle.std.proofs.lemmas.List.Edits.{sets};
ghost use Rattle.digits.specs.Digits.{word, digits};

// The number that fewer than eight bytes make. Kept apart, so that where there are eight nothing but their load is left; and byte by byte, since
// copied into an array they would take the C library's memcpy, which a host of the C entries need not have.
#[inline(never)]
fn fewer(s: &[u8]) -> u64
    requires { length s.now < 8 }
    ensures { result ≡ word 8 s.now }
{
    let mut x = 0;
    for byte in s.iter().rev() {
        x = x * 256 + *byte as u64;
    }
    x
}

// The number that the first eight bytes make.
fn eight(s: &[u8]) -> u64
    ensures { result ≡ word 8 s.now }
{
    match s.first_chunk() {
        Some(bytes) => u64::from_le_bytes(*bytes),
        None => fewer(s),
    }
}

// The number that the `width` bytes from `at` on make; of more than eight the first eight.
pub fn get(s: &[u8], at: usize, width: usize) -> u64
    ensures { result ≡ word 8 (take width (drop at s.now)) }
{
    let Some(rest) = s.get(at..) else {
        return 0;
    };
    let x = eight(rest);
    if width < 8 {
        x % (1u64 << (width * 8))
    } else {
        x
    }
}

// Writes the `width` lowest bytes of `x` from `at` on.
pub fn put(s: &mut [u8], at: usize, width: usize, x: u64)
    ensures { s.new ≡ sets s.old at (digits width x) }
{
    if s.len() <= at {
        return;
    }
    let end = at + width.min(s.len() - at);
    let part = &mut s[at..end];
    if part.len() == 8 {
        part.copy_from_slice(&x.to_le_bytes());
        return;
    }
    let mut left = x;
    for byte in part.iter_mut() {
        *byte = (left % 256) as u8;
        left /= 256;
    }
}
