// A turn of the program `answers`: what stands in the input buffer is answered, the answers are sent, and the unread rest moves to the front.
ghost use Rattle.std.specs.Prelude.{◌≤◌, length, take};
ghost use Rattle.serve.specs.Turn.{Turned};

use crate::port::send;
use records::Code;
use session::to_front;
use std::io::Stdout;
use stream::batch;

// Why the batch of a turn stopped, how many unread bytes are kept, and whether the answers were taken.
#[derive(Drop)]
pub(crate) struct Round {
    pub(crate) code: Code,
    pub(crate) kept: usize,
    pub(crate) sent: bool,
}

// Answers the first `have` bytes of `buf` in `answers`, and sends the answers.
pub(crate) fn answer(output: Stdout, buf: &mut [u8], have: usize, answers: &mut [u8]) -> Round
    requires { have ≤ length buf.old }
    ensures { Turned (take have buf.old) answers.old result buf.new answers.new }
{
    let t = batch(&buf[..have], answers);
    let written = t.tally.written;
    let sent = send(output, &buf[..have], answers.len(), &answers[..written]);
    let read = t.tally.read;
    let kept = have - read;
    to_front(buf, read, kept);
    Round {
        code: t.code,
        kept,
        sent,
    }
}
