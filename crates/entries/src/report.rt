// The batch in one call: its code, and its counts as bytes in a report that the host lends.
ghost use Rattle.std.specs.Prelude.{◌≡◌, length};
ghost use Rattle.entries.specs.Batch.{report_of, call_s, Made};

use crate::REFUSED;
use digits::put;
use stream::batch;

// The bytes of a report.
const LENGTH: usize = 24;

// Writes a report.
fn tell(report: &mut [u8], records: u64, read: u64, written: u64)
    requires { length report.old ≡ 24 }
    ensures { report.new ≡ report_of records read written }
{
    put(report, 0, 8, records);
    put(report, 8, 8, read);
    put(report, 16, 8, written);
}

// The whole batch. The report has the records answered, the bytes read and the bytes written, eight bytes each. One of another length is
// refused, and then nothing is touched.
pub fn rvt_batch(requests: &[u8], answers: &mut [u8], report: &mut [u8]) -> u64
    ensures { Made (call_s requests.now answers.old report.old) result answers.new report.new }
{
    if report.len() != LENGTH {
        return REFUSED;
    }
    let t = batch(requests, answers);
    let n = t.tally;
    tell(report, n.records as u64, n.read as u64, n.written as u64);
    u8::from(t.code) as u64
}
