// What a program that reads and writes in turns does over all that the outside does, for any program of that form (specs/, proofs/), and the
// move of what it carries over.
#![tactic(auto)]

pub mod port;
pub mod turns;

ghost use Rattle.std.specs.Prelude.{◌≡◌, take, drop};
ghost use Rattle.std.proofs.lemmas.List.Edits.{sets};

// Moves the `count` bytes from `from` on to the front, as many of them as there are.
#[tactic(auto, using(crate::proofs::FrontLaws::moved))]
pub fn to_front(buf: &mut [u8], from: usize, count: usize)
    ensures { buf.new ≡ sets buf.old 0 (take count (drop from buf.old)) }
{
    let start = from.min(buf.len());
    let end = start + count.min(buf.len() - start);
    buf.copy_within(start..end, 0);
}
