// The calls out of the program `lines`. No contract can say what the system gives and takes, so these say what may be handed to it.
ghost use Rattle.std.specs.Prelude.{◌≡◌, ◌<◌, length};
ghost use Rattle.session.specs.Moved.{Moved};
ghost use Rattle.replies.specs.Table.{table};
ghost use Rattle.text.specs.Typing.{turn_on};

use session::port;
use std::io::{Stdin, Stdout};

// Reads once. A read into no room would look like the end of the input.
pub(crate) fn read(mut input: Stdin, room: &mut [u8]) -> Option<usize>
    requires { 0 < length room.old }
    ensures { Moved (length room.new) result }
{
    port::read(&mut input, room)
}

// Writes all replies of a turn over `text`, and says whether they were taken.
pub(crate) fn send(mut output: Stdout, text: &[u8], ended: bool, bytes: &[u8]) -> bool
    requires { bytes.now ≡ (turn_on table ended text.now).bytes }
{
    port::write_all(&mut output, bytes)
}
