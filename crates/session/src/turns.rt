// A program in turns, as code: what it carries over from one turn to the next, and the loop of its turns.
ghost use Rattle.std.specs.Prelude.{◌≡◌, ℕ, List, []};
ghost use Rattle.session.specs.Session.{Program};
ghost use Rattle.session.specs.Post.{Took, Ran};

use decide::Next;

// What has turns: the program that it is, how many bytes it has room for, and those that it carries over.
pub trait Turns {
    ghost program: { Self → Program };

    ghost size: { Self → ℕ };

    ghost carried: { Self → List ℕ };

    // One turn, and what comes next.
    fn turn(&mut self) -> Next
        ensures program { program self.new ≡ program self.old }
        ensures size { size self.new ≡ size self.old }
        ensures took { Took (program self.old) (size self.old) (carried self.old) result (carried self.new) };

    // All turns, and the stop code, if there is one. Nothing says that the input ends, so the turns are counted, up to a number that no run reaches.
    final fn run(&mut self) -> Option<u8>
        ensures { carried self.old ≡ [] → Ran (program self.old) (size self.old) result }
    {
        for _ in 0..u64::MAX {
            match self.turn() {
                Next::Go(_) => {}
                Next::Close(code) => return Some(code),
                Next::Break => return None,
            }
        }
        None
    }
}
