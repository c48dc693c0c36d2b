// The lines of a shot file's shots with their numbers and places, put into a lent slice one after another, up to the first faulty record.
// specs/ShotLines.antt. Stands on `shotfile_lines`, which has the single lines, on `shotfile_reader`, whose cursor it follows, on
// `shotfile_records`, `refusals` and `buffer`.
#![tactic(auto)]

ghost use Rattle.std.specs.Prelude.{◌+◌, ◌≤◌, length};
ghost use Rattle.buffer.specs.Wrote.{Wrote};
ghost use Rattle.shotfile_shots.specs.ShotLines.{shot_lines};

use refusals::Refusal;
use shotfile_lines::{put_refused, put_shot};
use shotfile_reader::Cursor;

// Puts the lines of the shots from a cursor on, and the line of the first faulty record.
pub fn put_shots(bytes: &[u8], out: &mut [u8], at: usize, start: Cursor) -> usize
    requires { at + 512128 ≤ length out.old }
    ensures wrote { Wrote out.old out.new at result (shot_lines 4096 0 bytes.now start) }
    ensures few { result ≤ at + 512128 }
{
    let mut c = start;
    let mut next = at;
    for n in 0..4096 {
        match c.step(bytes) {
            Ok(Some(after)) => {
                next = put_shot(out, next, after.last, n, c.at);
                c = after;
            }
            Ok(None) => return next,
            Err(refusal) => return put_refused(out, next, refusal),
        }
    }
    if bytes.len() <= c.at {
        return next;
    }
    put_refused(out, next, Refusal::TooManyShots { at: c.at })
}
