// Text to the request stream and back, over lent buffers: a line a record. Reports and codes are the batch's; what is bad as a line stops the
// one as an unknown kind, and a kind without a name the other.
ghost use Rattle.std.specs.Prelude.{◌≡◌, ◌+◌, ◌*◌, ◌≤◌, ◌<◌, ◌++◌, length};
ghost use Rattle.std.proofs.lemmas.List.Edits.{sets};
ghost use Rattle.records.specs.Did.{Did};
ghost use Rattle.hexadecimal.specs.Hex.{hex};
ghost use Rattle.text.specs.Names.{names};
ghost use Rattle.text.specs.Text.{closed};
ghost use Rattle.text.specs.Trip.{record_of, first_line, to_request, forth, to_line, back};
ghost use Rattle.text.specs.Steps.{request_lawful, line_lawful};

use crate::names::name_of;
use crate::{ask, put_all};
use digits::get;
use kinds::body;
use records::{Code, Report, Step, run, stopped, took};

// How long the first line of a text is: up to its newline, or to the end of the text.
fn line_end(text: &[u8]) -> usize
    ensures { result ≡ length (first_line text.now) }
{
    text.iter()
        .position(|byte| *byte == b'\n')
        .unwrap_or(text.len())
}

// Writes the request for a kind and bits at the front, where there is room for it.
fn put_record(requests: &mut [u8], kind: u8, bits: u64)
    requires { 0 < length requests.old }
    ensures { requests.new ≡ sets requests.old 0 (record_of kind bits) }
{
    requests[0] = kind;
    digits::put(requests, 1, body(kind), bits);
}

// The lines of a text, each to become a request.
struct Lines;

impl Step for Lines {
    ghost step_s = { to_request names };

    ghost lawful = { request_lawful names };

    // The line at the front of the text, as a request at the front of `requests`.
    fn step(text: &[u8], requests: &mut [u8]) -> Report {
        if text.is_empty() {
            return stopped(Code::Done);
        }
        let end = line_end(text);
        match ask(&text[..end]) {
            None => stopped(Code::Unknown),
            Some(request) => {
                let n = 1 + body(request.kind);
                if requests.len() < n {
                    return stopped(Code::Full);
                }
                put_record(requests, request.kind, request.bits);
                if end < text.len() {
                    took(end + 1, n)
                } else {
                    took(end, n)
                }
            }
        }
    }
}

// Turns the lines of a text into requests, from the front, until the text is used up, a line is bad (code 1), or a request has no room (3).
pub fn requests_of(text: &[u8], requests: &mut [u8]) -> Report
    ensures { Did (forth names text.now (length requests.old)) result 0 requests.old requests.new }
{
    run::<Lines>(text, requests)
}

// Writes a line at the front: its head, the digits of the bits and its newline, where there is room for it.
fn put_line(text: &mut [u8], head: &[u8], width: usize, bits: u64)
    requires { (width ≤ 8) × (length head.now + 2 * width < length text.old) }
    ensures { text.new ≡ sets text.old 0 (closed (head.now ++ hex (2 * width) bits)) }
{
    put_all(text, 0, head);
    hexadecimal::put(text, head.len(), 2 * width, bits);
    text[head.len() + 2 * width] = b'\n';
}

// The records of a request stream, each to become a line.
struct Records;

impl Step for Records {
    ghost step_s = { to_line names };

    ghost lawful = { line_lawful names };

    // The record at the front of `requests`, as a line at the front of the text.
    fn step(requests: &[u8], text: &mut [u8]) -> Report {
        let Some((&kind, rest)) = requests.split_first() else {
            return stopped(Code::Done);
        };
        let Some(head) = name_of(kind) else {
            return stopped(Code::Unknown);
        };
        let width = body(kind);
        if rest.len() < width {
            return stopped(Code::Cut);
        }
        let length = head.len() + 2 * width + 1;
        if text.len() < length {
            return stopped(Code::Full);
        }
        put_line(text, head, width, get(rest, 0, width));
        took(1 + width, length)
    }
}

// Turns requests into the lines that ask for them, from the front, until the requests are used up, a kind has no name (code 1), a record is
// cut (2), or a line has no room (3).
pub fn text_of(requests: &[u8], text: &mut [u8]) -> Report
    ensures { Did (back names requests.now (length text.old)) result 0 text.old text.new }
{
    run::<Records>(requests, text)
}
