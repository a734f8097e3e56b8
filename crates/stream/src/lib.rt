// The request stream: a byte of kind and the argument's bits in, the answer's kind and the value's bits out, record by record.
#![tactic(auto)]

ghost use Rattle.replies.specs.Table.{table};
ghost use Rattle.records.specs.Run.{one};
ghost use Rattle.records.specs.Did.{Did};
ghost use Rattle.records.proofs.RunLaws.{sound};
ghost use Rattle.stream.specs.Batch.{batch_s};
ghost use Rattle.stream.specs.Post.{Rest, Front};

use digits::get;
use kinds::body;
use records::{Code, Report, Step, run, stopped, took, write};
use replies::reply_to;

// The records of a request stream.
struct Records;

impl Step for Records {
    ghost step_s = { one table };

    ghost lawful = { sound table };

    // The record at the front of `requests`, answered at the front of `answers`.
    fn step(requests: &[u8], answers: &mut [u8]) -> Report {
        let Some((&kind, rest)) = requests.split_first() else {
            return stopped(Code::Done);
        };
        let width = body(kind);
        if width == 0 {
            return stopped(Code::Unknown);
        }
        if rest.len() < width {
            return stopped(Code::Cut);
        }
        let r = reply_to(kind, get(rest, 0, width));
        let n = 1 + r.width + r.more;
        if answers.len() < n {
            return stopped(Code::Full);
        }
        write(answers, 0, r);
        took(1 + width, n)
    }
}

// Reads whole records from the front of `requests` and writes their answers to the front of `answers`, until one of the four codes.
pub fn batch(requests: &[u8], answers: &mut [u8]) -> Report
    ensures { Did (batch_s requests.now answers.old) result 0 answers.old answers.new }
{
    run::<Records>(requests, answers)
}

// The same work, giving back the unread tail of the requests.
pub fn batch_rest<'a, 'b>(requests: &'a [u8], answers: &'b mut [u8]) -> &'a [u8]
    ensures { Rest (batch_s requests.now answers.old) requests.entry result answers.old answers.new }
{
    let t = batch(requests, answers).tally;
    let read = t.read;
    &requests[read..]
}

// The same work, giving back the written front of the answers.
pub fn batch_front<'a, 'b>(requests: &'a [u8], answers: &'b mut [u8]) -> &'b mut [u8]
    ensures { Front (batch_s requests.now answers.old) answers.entry result }
{
    let t = batch(requests, answers).tally;
    let written = t.written;
    &mut answers[..written]
}
