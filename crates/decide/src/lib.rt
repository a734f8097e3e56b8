// What the programs decide: what comes after a turn, which bytes close the output of `answers`, what it gives back, and what is the end of
// the input. Nothing here reads or writes.
#![tactic(auto)]

ghost use Rattle.std.specs.Prelude.{◌≡◌, option_map};
ghost use Rattle.decide.specs.Decide.{after_s, closing_s, end_s, at_end_s};

use records::Code;

// What comes after a turn: another, with so many bytes carried over; the end, with the number of a stop code; or the end without one.
#[derive(Clone, Copy)]
pub enum Next {
    Go(usize),
    Close(u8),
    Break,
}

// After a turn whose read brought `got` bytes or failed, that had the code of this number and carries over `kept` bytes, and whose write took
// all that it was handed, or not. Any byte is answered as a code, so it is a number here.
#[tactic(auto, unfolding(crate::specs::Decide::after_s))]
pub fn after(got: Option<usize>, code: u8, kept: usize, sent: bool) -> Next
    ensures { result ≡ after_s got code kept sent }
{
    match got {
        None => Next::Break,
        Some(_) if !sent => Next::Break,
        Some(_) if code == Code::Unknown.into() => Next::Close(code),
        Some(0) => Next::Close(code),
        Some(_) => Next::Go(kept),
    }
}

// What `answers` writes behind the last answer: byte 255 and the number of the stop code, or nothing where there is no code.
pub fn closing(code: Option<u8>) -> Option<[u8; 2]>
    ensures { result ≡ option_map closing_s code }
{
    Some([255, code?])
}

// What `answers` gives back: the stop code where the closing bytes were taken.
pub fn end(code: Option<u8>, sent: bool) -> Option<u8>
    ensures { result ≡ end_s code sent }
{
    if sent { code } else { None }
}

// Whether a read that brought `got` bytes, or failed, is the end of the input: one of no byte.
pub fn at_end(got: Option<usize>) -> bool
    ensures { result ≡ at_end_s got }
{
    got == Some(0)
}
