// The kinds of requests, by their shapes alone: no function is named here, and no float, so that whatever cuts a stream into records can
// stand on it.
#![tactic(auto)]

ghost use Rattle.std.specs.Prelude.{◌≡◌};
ghost use Rattle.kinds.specs.Shape.{sign_byte};
ghost use Rattle.kinds.specs.Kinds.{shape_of};

// How many bytes the body of a kind has, 0 where the kind is unknown.
#[tactic(auto, unfolding(crate::specs::Kinds::shapes, crate::specs::Shape::shape_in))]
pub fn body(kind: u8) -> usize
    ensures { result ≡ (shape_of kind).body }
{
    match kind {
        1 | 2 | 3 | 4 | 7 => 8,
        17 | 18 | 19 | 20 => 4,
        _ => 0,
    }
}

// A sign as a byte of an answer's tail, 1 for plus and 255 for minus.
pub fn sign_byte(sign: i32) -> u8
    ensures { result ≡ sign_byte sign }
{
    if sign > 0 { 1 } else { 255 }
}
