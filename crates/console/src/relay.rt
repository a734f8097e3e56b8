// A turn of the program `lines`: the lines in the input buffer are answered, the replies are sent, and the unfinished line moves to the front.
ghost use Rattle.std.specs.Prelude.{◌≡◌, ◌*◌, ◌≤◌, length, take};
ghost use Rattle.replies.specs.Table.{table};
ghost use Rattle.text.specs.Text.{closed};
ghost use Rattle.text.specs.Reply.{shown, sign_text, reply_to};
ghost use Rattle.text.specs.Typing.{turn_on};
ghost use Rattle.console.specs.Post.{Wrote, Replied, Turned, last_reply};

use crate::port::send;
use records::Reply;
use replies::reply_to;
use session::to_front;
use std::io::Stdout;
use text::{ask, put_all};

// Of an unfinished line at most so many bytes are kept.
const MOST: usize = 26;

// How many bytes of an unfinished line are kept, and whether the replies were taken.
#[derive(Drop)]
pub(crate) struct Round {
    pub(crate) kept: usize,
    pub(crate) sent: bool,
}

// Where the unfinished line begins, and how many bytes of replies were written.
#[derive(Drop)]
pub(crate) struct Done {
    pub(crate) read: usize,
    pub(crate) written: usize,
}

// What stands behind the value of an answer: its sign, where there is one, and a newline.
fn sign(r: Reply) -> &'static [u8]
    ensures { result.now ≡ closed (sign_text r) }
{
    match (r.more, r.extra) {
        (0, _) => b"\n",
        (_, 1) => b" +\n",
        _ => b" -\n",
    }
}

// Writes an answer as text and a newline from `at` on, and gives the place behind them. `at` is in a buffer of 65,536 bytes at most, behind a good
// line, of 25 at most.
fn put_answer(out: &mut [u8], at: usize, r: Reply) -> usize
    requires { (at ≤ 65561) × (r.width ≤ 8) }
    ensures { Wrote (closed (shown r)) at result out.old out.new }
{
    put_all(out, at, b" ");
    let digits = 2 * r.width;
    hexadecimal::put(out, at + 1, digits, r.bits);
    let place = at + 1 + digits;
    let tail = sign(r);
    put_all(out, place, tail);
    place + tail.len()
}

// Writes the reply to a line and a newline from `at` on, and gives the place behind them.
fn put_reply(out: &mut [u8], at: usize, line: &[u8]) -> usize
    requires { at ≤ 65536 }
    ensures { Wrote (closed (reply_to table line.now)) at result out.old out.new }
{
    match ask(line) {
        None => {
            put_all(out, at, b"bad\n");
            at + 4
        }
        Some(request) => {
            put_all(out, at, line);
            put_answer(out, at + line.len(), reply_to(request.kind, request.bits))
        }
    }
}

// Answers the finished lines of a text, one behind the other.
fn reply_lines(text: &[u8], out: &mut [u8]) -> Done
    requires { (4 * length text.now ≤ length out.old) × (length out.old ≤ 65536) }
    ensures { Replied text.now result out.old out.new }
{
    let mut read = 0;
    let mut written = 0;
    for i in 0..text.len() {
        if text[i] == b'\n' {
            written = put_reply(out, written, &text[read..i]);
            read = i + 1;
        }
    }
    Done { read, written }
}

// Answers a last line that has no newline, if it has a byte.
fn put_last(out: &mut [u8], at: usize, line: &[u8]) -> usize
    requires { at ≤ 65536 }
    ensures { Wrote (last_reply line.now) at result out.old out.new }
{
    if line.is_empty() {
        return at;
    }
    put_reply(out, at, line)
}

// Answers the lines in the first `have` bytes of `buf`, the unfinished one only where the input has ended, and sends the replies.
pub(crate) fn answer(
    output: Stdout,
    buf: &mut [u8],
    have: usize,
    ended: bool,
    replies: &mut [u8],
) -> Round
    requires { (have ≤ length buf.old) × ((4 * have ≤ length replies.old) × (length replies.old ≤ 65536)) }
    ensures { Turned (turn_on table ended (take have buf.old)) result buf.new }
{
    let t = reply_lines(&buf[..have], replies);
    let read = t.read;
    if ended {
        let written = put_last(replies, t.written, &buf[read..have]);
        let sent = send(output, &buf[..have], true, &replies[..written]);
        return Round { kept: 0, sent };
    }
    let written = t.written;
    let sent = send(output, &buf[..have], false, &replies[..written]);
    let kept = MOST.min(have - read);
    to_front(buf, read, kept);
    Round { kept, sent }
}
