// The program `lines`: reads a text on standard input, and writes the reply to each of its lines on standard output as soon as the line is
// complete. Memory is two buffers, however long a line is. A reply takes at most four times the bytes of its line and newline, so the replies
// to a full buffer have room.
#![tactic(auto)]

mod port;
mod relay;

ghost use Rattle.std.specs.Prelude.{◌*◌, ◌≤◌, ◌<◌, length, take};
ghost use Rattle.session.specs.Post.{Passed, Ran};
ghost use Rattle.replies.specs.Table.{table};
ghost use Rattle.text.specs.Typing.{KEPT, typing};

use decide::{Next, after, at_end};
use port::read;
use records::Code;
use relay::answer;
use session::port::large_buffer;
use session::turns::Turns;
use std::io::{Stdin, Stdout};

// One turn: reads once behind the `have` bytes that are there, answers the lines, and says what comes next. Its code is 0: no line stops the
// program.
fn pass(input: Stdin, output: Stdout, buf: &mut [u8], have: usize, replies: &mut [u8]) -> Next
    requires { (have < length buf.old) × ((4 * length buf.old ≤ length replies.old) × (length replies.old ≤ 65536)) }
    ensures { Passed (typing table) (length buf.old) (take have buf.old) result buf.new }
{
    let got = read(input, &mut buf[have..]);
    let there = have + got.unwrap_or(0);
    let t = answer(output, buf, there, at_end(got), replies);
    after(got, Code::Done.into(), t.kept, t.sent)
}

// The program between two turns: of the bytes in `buf` it carries over the first `have`, of an unfinished line.
#[derive(Drop)]
struct Replying<'a> {
    input: Stdin,
    output: Stdout,
    buf: &'a mut [u8],
    have: usize,
    replies: &'a mut [u8],
    ghost carried: { have ≤ KEPT },
    ghost to_read: { KEPT < length buf.now },
    ghost to_reply: { 4 * length buf.now ≤ length replies.now },
    ghost replies_bound: { length replies.now ≤ 65536 },
}

impl Turns for Replying<'_> {
    ghost program = { λ _. typing table };

    ghost size = { λ s. length s.buf.now };

    ghost carried = { λ s. take s.have s.buf.now };

    fn turn(&mut self) -> Next {
        let next = pass(self.input, self.output, self.buf, self.have, self.replies);
        let Next::Go(kept) = next else {
            return next;
        };
        self.have = kept;
        next
    }
}

// All of it, from an input to an output. Gives back 0 at the end of the input, or nothing where the input or the output failed.
pub fn run(input: Stdin, output: Stdout) -> Option<u8>
    ensures { Ran (typing table) 16384 result }
{
    let mut buf = [0u8; 16384];
    let mut replies = large_buffer();
    let mut turns = Replying {
        input,
        output,
        buf: &mut buf,
        have: 0,
        replies: &mut replies,
    };
    turns.run()
}
