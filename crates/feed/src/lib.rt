// A feed: it takes the request stream in pieces of any size, and answers each record as soon as its last byte is there. It is carried by value
// from call to call, and holds at most the start of one record.
#![tactic(auto)]

ghost use Rattle.std.specs.Prelude.{◌+◌, ◌%◌, ◌≤◌, ◌<◌, ◌≡◌, [], ◌++◌, length, take, drop};
ghost use Rattle.digits.specs.Digits.{digits};
ghost use Rattle.records.specs.Row.{row_in};
ghost use Rattle.replies.specs.Table.{table};
ghost use Rattle.feeding.specs.Feed.{Stopped, Open, takes};
ghost use Rattle.feed.specs.Fields.{fields};
ghost use Rattle.feed.specs.Post.{Pushed, Shut, push_s, close_s};

use digits::{get, put};
use kinds::body;
use records::Code;
use stream::batch;

// The first `length` bytes of a record, as the number that they make, the lowest first. Where they are no start of a known record, as with a
// length of 9, the feed has stopped.
#[derive(Clone, Copy)]
pub struct Feed {
    pub held: u64,
    pub length: usize,
}

// What a call leaves: the next feed, how much of the piece it took, how much it wrote, and a code.
#[derive(Clone, Copy)]
pub struct Fed {
    pub feed: Feed,
    pub taken: usize,
    pub written: usize,
    pub code: Code,
}

// What the call that closes a feed leaves.
#[derive(Clone, Copy)]
pub struct Closed {
    pub feed: Feed,
    pub code: Code,
}

// The feed that holds the `n` bytes of `s` from `at` on.
fn holding(s: &[u8], at: usize, n: usize) -> Feed
    requires { at + n ≤ length s.now }
    ensures { result ≡ fields (Open (take n (drop at s.now))) }
{
    Feed {
        held: get(s, at, n),
        length: n,
    }
}

// The feed that has stopped.
fn stopped() -> Feed
    ensures { result ≡ fields Stopped }
{
    Feed { held: 0, length: 9 }
}

// The bytes of a record: `have` that are held, and behind them the first `n` of the piece.
fn joined(held: u64, have: usize, piece: &[u8], n: usize) -> [u8; 9]
    requires { ((n ≤ length piece.now) × (have + n ≤ 9)) × (n ≤ 8) }
    ensures { take (have + n) result ≡ digits have held ++ take n piece.now }
{
    let mut record = [0u8; 9];
    put(&mut record, 0, have, held);
    put(&mut record, have, n, get(piece, 0, n));
    record
}

// A call where nothing is held: a batch, and then the start of a record that it left.
fn fresh(piece: &[u8], answers: &mut [u8]) -> Fed
    ensures { Pushed (takes table [] piece.now (length answers.old)) result answers.old answers.new }
{
    let t = batch(piece, answers);
    let read = t.tally.read;
    let (feed, taken, code) = match t.code {
        Code::Unknown => (stopped(), read, Code::Unknown),
        Code::Cut => {
            let cut = holding(piece, read, piece.len() - read);
            (cut, piece.len(), Code::Done)
        }
        Code::Full => {
            let width = body(piece[read]);
            (holding(piece, read, width), read + width, Code::Full)
        }
        Code::Done => (Feed::empty(), read, Code::Done),
    };
    Fed {
        feed,
        taken,
        written: t.tally.written,
        code,
    }
}

// A call where `have` bytes of a record with a body of `width` are held, and the piece has the rest of it: a batch over that record, and then the
// rest of the piece.
fn whole(held: u64, have: usize, width: usize, piece: &[u8], answers: &mut [u8]) -> Fed
    requires { ((0 < have) × (have ≤ width)) × ((width ≡ (row_in table (held % 256)).width) × (width + 1 ≤ have + length piece.now)) }
    ensures { Pushed (takes table (digits have held) piece.now (length answers.old)) result answers.old answers.new }
{
    let need = width + 1 - have;
    let record = joined(held, have, piece, need);
    let t = batch(&record[..width + 1], answers);
    if let Code::Full = t.code {
        let taken = need - 1;
        return Fed {
            feed: holding(&record, 0, width),
            taken,
            written: 0,
            code: Code::Full,
        };
    }
    let n = t.tally;
    let first = n.written;
    let r = fresh(&piece[need..], &mut answers[first..]);
    let feed = r.feed;
    let taken = need + r.taken;
    let written = first + r.written;
    Fed {
        feed,
        taken,
        written,
        code: r.code,
    }
}

impl Feed {
    // A feed that holds nothing.
    pub fn empty() -> Feed
        ensures { result ≡ fields (Open []) }
    {
        Feed { held: 0, length: 0 }
    }

    // Takes what it can of the piece, and writes the answers to the front of `answers`. Code 0 where the piece is used up, 1 at a kind that is not
    // in the table, which stops the feed, 3 where the next answer is longer than the room left.
    pub fn push(self, piece: &[u8], answers: &mut [u8]) -> Fed
        ensures { Pushed (push_s self piece.now answers.old) result answers.old answers.new }
    {
        let held = self.held;
        let have = self.length;
        if have == 0 {
            return fresh(piece, answers);
        }
        let width = body((held % 256) as u8);
        if width < have {
            return Fed {
                feed: stopped(),
                taken: 0,
                written: 0,
                code: Code::Unknown,
            };
        }
        if piece.len() < width + 1 - have {
            let record = joined(held, have, piece, piece.len());
            return Fed {
                feed: holding(&record, 0, have + piece.len()),
                taken: piece.len(),
                written: 0,
                code: Code::Done,
            };
        }
        whole(held, have, width, piece, answers)
    }

    // No more is to come. Code 2 where a record has begun, 1 where the feed has stopped, else 0.
    pub fn close(self) -> Closed
        ensures { Shut (close_s self) result }
    {
        let have = self.length;
        if have == 0 {
            return Closed {
                feed: Feed::empty(),
                code: Code::Done,
            };
        }
        if body((self.held % 256) as u8) < have {
            return Closed {
                feed: stopped(),
                code: Code::Unknown,
            };
        }
        Closed {
            feed: Feed::empty(),
            code: Code::Cut,
        }
    }
}
