// A run: items taken from the front of some bytes, one after another, by any step, until the step stops.
ghost use Rattle.std.specs.Prelude.{◌≡◌, ℕ, List, length};
ghost use Rattle.records.specs.Tally.{wrapped, ◌⊞◌};
ghost use Rattle.records.specs.Run.{Out, run_by};
ghost use Rattle.records.specs.Lawful.{Lawful};
ghost use Rattle.records.specs.Did.{Did};

use crate::{Report, Tally};
use std::ops::Add;

// The counts of one run and then of another, each modulo 2 ^ 64. Of two parts of one run no count wraps.
impl Add for Tally {
    type Output = Tally;

    ghost can_add = { λ a b. Unit };

    ghost add_gives = { λ a b both. both ≡ wrapped (a ⊞ b) };

    fn add(self, later: Tally) -> Tally {
        Tally {
            records: self.records.wrapping_add(later.records),
            read: self.read.wrapping_add(later.read),
            written: self.written.wrapping_add(later.written),
        }
    }
}

// What takes the item at the front of the input, a record or a line, and writes what it comes to at the front of the output; or stops.
pub trait Step {
    ghost step_s: { List ℕ → ℕ → Out };

    fn step(input: &[u8], output: &mut [u8]) -> Report
        ensures { Did (step_s input.now (length output.old)) result 0 output.old output.new };

    ghost lawful: { Lawful step_s };
}

// Takes items until the step stops, and reports them all, with the code of the stop.
pub fn run<S: Step>(input: &[u8], output: &mut [u8]) -> Report
    ensures { Did (run_by S.step_s input.now (length output.old)) result 0 output.old output.new }
{
    let mut tally = Tally {
        records: 0,
        read: 0,
        written: 0,
    };
    loop {
        let one = S::step(&input[tally.read..], &mut output[tally.written..]);
        if one.tally.records == 0 {
            return Report {
                code: one.code,
                tally,
            };
        }
        tally = tally + one.tally;
    }
}
