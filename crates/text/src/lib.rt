// Requests as text. A line is a function's name as in the Rust, a space and the argument's bits in hex; here it is without its newline.
#![tactic(auto)]

mod names;
mod trip;

ghost use Rattle.std.specs.Prelude.{◌≡◌};
ghost use Rattle.std.proofs.lemmas.List.Edits.{sets};
ghost use Rattle.text.specs.Names.{names};
ghost use Rattle.text.specs.Line.{asked_by, asked_as, asked};

use kinds::body;
use names::{Row, rows};
pub use trip::{requests_of, text_of};

// What a good line asks for: a kind, and the bits of the argument.
#[derive(Clone, Copy)]
pub struct Request {
    pub kind: u8,
    pub bits: u64,
}

// Writes `s` from `at` on, as much of it as there is room for. Where that is all of it, a text of known length takes a store or two and no call.
#[tactic(auto, using(digits::proofs::StoreLaws::sets_out, digits::proofs::StoreLaws::sets_part))]
pub fn put_all(out: &mut [u8], at: usize, s: &[u8])
    ensures { out.new ≡ sets out.old at s.now }
{
    if out.len() <= at {
        return;
    }
    let n = s.len().min(out.len() - at);
    if n == s.len() {
        out[at..at + n].copy_from_slice(s);
        return;
    }
    out[at..at + n].copy_from_slice(&s[..n]);
}

// What digits ask of a kind.
fn ask_kind(kind: u8, digits: &[u8]) -> Option<Request>
    ensures { result ≡ asked_by kind digits.now }
{
    if digits.len() != 2 * body(kind) {
        return None;
    }
    let bits = hexadecimal::get(digits)?;
    Some(Request { kind, bits })
}

// What a line asks for as a line of that row.
fn ask_as(row: Row, line: &[u8]) -> Option<Request>
    ensures { result ≡ asked_as row.head.now row.kind line.now }
{
    let digits = line.strip_prefix(row.head)?;
    ask_kind(row.kind, digits)
}

// What a line asks for, by the table of names; nothing where it is bad. An empty one is, and need not go through the table.
pub fn ask(line: &[u8]) -> Option<Request>
    ensures { result ≡ asked names line.now }
{
    if line.is_empty() {
        return None;
    }
    for row in rows() {
        if let Some(request) = ask_as(*row, line) {
            return Some(request);
        }
    }
    None
}
