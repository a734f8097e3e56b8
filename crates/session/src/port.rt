// The calls out of a program: reads and writes, over any reader and any writer. No contract can say what the system gives and takes: these say
// how many bytes a read may bring, and what a writer that knows its bytes holds once all were taken.
ghost use Rattle.std.specs.Prelude.{◌≡◌, length};
ghost use Rattle.std.specs.Bool.{OnTrue};
ghost use Rattle.std.specs.Io.KnownBytes.{Appends};
ghost use Rattle.session.specs.Moved.{Moved, IsPrefixLen};

use std::io::{Read, Write};

// Reads once: how many bytes it brought, or none of that where it failed.
pub fn read<R: Read>(input: &mut R, room: &mut [u8]) -> Option<usize>
    ensures { Moved (length room.new) result }
{
    input.read(room).ok()
}

// Writes all bytes, and says whether they were taken.
pub fn write_all<W: Write>(output: &mut W, bytes: &[u8]) -> bool
    ensures { OnTrue result (Appends (W.contents output.old) (W.contents output.new) bytes.now) }
{
    output.write_all(bytes).is_ok()
}

// Reads until the room is full, the input ends or a read fails, and says how many bytes there are. How many reads that takes is not known
// before, so that no `for` counts them.
pub fn read_full<R: Read>(input: &mut R, room: &mut [u8]) -> usize
    ensures { IsPrefixLen result room.new }
{
    let mut done = 0;
    while done < room.len() {
        match read(input, &mut room[done..]) {
            None | Some(0) => return done,
            Some(n) => done += n,
        }
    }
    done
}

// 65,536 zeros, of which a caller knows how many there are.
pub fn large_buffer() -> [u8; 65536]
    ensures { 65536 ≡ length result }
{
    [0; 65536]
}
