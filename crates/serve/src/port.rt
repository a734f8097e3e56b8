// The calls out of the program `answers`. No contract can say what the system gives and takes, so these say what may be handed to it.
ghost use Rattle.std.specs.Prelude.{◌≡◌, ◌<◌, length, option_map, Some};
ghost use Rattle.session.specs.Moved.{Moved};
ghost use Rattle.replies.specs.Table.{table};
ghost use Rattle.records.specs.Run.{run};
ghost use Rattle.decide.specs.Decide.{closing_s};

use session::port;
use std::io::{Stdin, Stdout};

// Reads once. A read into no room would look like the end of the input.
pub(crate) fn read(mut input: Stdin, room: &mut [u8]) -> Option<usize>
    requires { 0 < length room.old }
    ensures { Moved (length room.new) result }
{
    port::read(&mut input, room)
}

// Writes all answers to `requests` of a batch with so much room, and says whether they were taken.
pub(crate) fn send(mut output: Stdout, requests: &[u8], room: usize, bytes: &[u8]) -> bool
    requires { bytes.now ≡ (run table requests.now room).bytes }
{
    port::write_all(&mut output, bytes)
}

// Writes the closing bytes, and says whether they were taken.
pub(crate) fn close(mut output: Stdout, code: Option<u8>, bytes: &[u8]) -> bool
    requires { Some bytes.now ≡ option_map closing_s code }
{
    port::write_all(&mut output, bytes)
}
