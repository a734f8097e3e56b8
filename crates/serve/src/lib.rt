// The program `answers`: reads a request stream on standard input, and writes the answers, then byte 255 and the stop code, on standard
// output. Memory is two buffers. An answer takes at most twice the bytes of its request, so the answers to a full buffer have room.
#![tactic(auto)]

mod port;
mod relay;

ghost use Rattle.std.specs.Prelude.{◌*◌, ◌≤◌, ◌<◌, length, take};
ghost use Rattle.session.specs.Post.{Passed, Served};
ghost use Rattle.serve.specs.Session.{answering};

use decide::{Next, after, closing, end};
use port::{close, read};
use relay::answer;
use session::port::large_buffer;
use session::turns::Turns;
use std::io::{Stdin, Stdout};

// One turn: reads once behind the `have` bytes that are there, answers them all, and says what comes next.
fn pass(input: Stdin, output: Stdout, buf: &mut [u8], have: usize, answers: &mut [u8]) -> Next
    requires { have < length buf.old }
    ensures { Passed (answering (length answers.old)) (length buf.old) (take have buf.old) result buf.new }
{
    let got = read(input, &mut buf[have..]);
    let there = have + got.unwrap_or(0);
    let t = answer(output, buf, there, answers);
    after(got, t.code.into(), t.kept, t.sent)
}

// The program between two turns: of the bytes in `buf` it carries over the first `have`, fewer than a record has.
#[derive(Drop)]
struct Answering<'a> {
    input: Stdin,
    output: Stdout,
    buf: &'a mut [u8],
    have: usize,
    answers: &'a mut [u8],
    ghost carried: { have ≤ 8 },
    ghost to_read: { 8 < length buf.now },
    ghost to_answer: { 2 * length buf.now ≤ length answers.now },
}

impl Turns for Answering<'_> {
    ghost program = { λ s. answering (length s.answers.now) };

    ghost size = { λ s. length s.buf.now };

    ghost carried = { λ s. take s.have s.buf.now };

    fn turn(&mut self) -> Next {
        let next = pass(self.input, self.output, self.buf, self.have, self.answers);
        let Next::Go(kept) = next else {
            return next;
        };
        self.have = kept;
        next
    }
}

// All of it, from an input to an output. Gives back the stop code that it wrote, or none where it wrote none.
pub fn run(input: Stdin, output: Stdout) -> Option<u8>
    ensures { Served (answering 65536) 32768 result }
{
    let mut buf = [0u8; 32768];
    let mut answers = large_buffer();
    let mut turns = Answering {
        input,
        output,
        buf: &mut buf,
        have: 0,
        answers: &mut answers,
    };
    let code = turns.run();
    let bytes = closing(code)?;
    let sent = close(output, code, &bytes);
    end(code, sent)
}
