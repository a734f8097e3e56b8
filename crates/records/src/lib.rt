// Requests and answers as records, over any table of kinds: a reply and its bytes, and what a run of records reports. There is no float here: a
// kind is a width and a reply. What a run does with a table is defined in specs/, and its laws are in proofs/.
#![tactic(auto)]

mod runs;

ghost use Rattle.std.specs.Prelude.{◌≡◌};
ghost use Rattle.std.proofs.lemmas.List.Edits.{sets};
ghost use Rattle.records.specs.Reply.{bytes_of};
ghost use Rattle.records.specs.Codes.{number_s};
ghost use Rattle.records.specs.Tally.{nothing};
ghost use Rattle.records.specs.declared.Code.TheVariants.{Done};

use digits::put;
pub use runs::{Step, run};

// An answer before it is written: its first byte, then `width` bytes of `bits` and `more` bytes of `extra`.
#[derive(Clone, Copy)]
pub struct Reply {
    pub head: u8,
    pub width: usize,
    pub bits: u64,
    pub more: usize,
    pub extra: u64,
}

// Writes a reply from `at` on, as much of it as there is room for.
pub fn write(s: &mut [u8], at: usize, r: Reply)
    ensures { s.new ≡ sets s.old at (bytes_of r) }
{
    if s.len() <= at {
        return;
    }
    s[at] = r.head;
    let place = at + 1;
    put(s, place, r.width, r.bits);
    if s.len() - place <= r.width {
        return;
    }
    put(s, place + r.width, r.more, r.extra);
}

// How many records, or lines, a run took, and how many bytes it read and wrote.
#[derive(Clone, Copy)]
pub struct Tally {
    pub records: usize,
    pub read: usize,
    pub written: usize,
}

// Why a run stopped. Its number (specs/Codes) is what C and the programs show.
#[derive(Clone, Copy, PartialEq, Eq)]
pub enum Code {
    // what was to be read is used up
    Done,
    // a kind that is in no row; of a text, a line that is bad
    Unknown,
    // an incomplete body
    Cut,
    // no room for what is to be written
    Full,
}

impl From<Code> for u8 {
    ghost from_gives = { λ code number. number ≡ number_s code };

    fn from(code: Code) -> u8 {
        match code {
            Code::Done => 0,
            Code::Unknown => 1,
            Code::Cut => 2,
            Code::Full => 3,
        }
    }
}

// Why a run stopped, and its counts. The reason is a `Code`, or whatever else a caller tells it by, such as its number.
#[derive(Clone, Copy)]
pub struct Report<C = Code> {
    pub code: C,
    pub tally: Tally,
}

// Nothing done, for the reason of a code.
pub fn stopped<C>(code: C) -> Report<C>
    ensures { result ≡ record { code = code; tally = nothing } }
{
    Report {
        code,
        tally: Tally {
            records: 0,
            read: 0,
            written: 0,
        },
    }
}

// One record or line: so many bytes read, and so many written.
pub fn took(read: usize, written: usize) -> Report
    ensures { result ≡ record { code = Done; tally = record { records = 1; read = read; written = written } } }
{
    Report {
        code: Code::Done,
        tally: Tally {
            records: 1,
            read,
            written,
        },
    }
}
