// The second opinion: from the bytes of a shot file to the quote that `quoting::quote` promises, from totals that are counted again, cell by
// cell. Uses nothing of the sweep. Stands on `shotfile_reader`, `measure_shown` and `quoting_text`.
#![tactic(auto)]

ghost use Rattle.std.specs.Prelude.{◌≤◌, length};
ghost use Rattle.quoting_text.specs.Quoting.{FileQuoted};
ghost use Rattle.quoting_text.specs.Answered.{ShotsThere, answered_file, FileMeasured};

use job::Stored;
use lattice_sums::sums::Totals;
use refusals::Refusal;
use std::rt::Stderr;

// Goes on from what reading a file answers: counts the list that stands in the coordinates.
fn recount_read(
    stderr: Stderr,
    read: Result<Stored, Refusal>,
    coords: &[u16],
    work: &mut [u32],
) -> Result<Totals, Refusal>
    requires { ShotsThere read coords.now }
    ensures { FileMeasured (answered_file read coords.now) work.old result work.new }
{
    measure_shown::recount(stderr, read?.job(coords), work)
}

// The text of the quote, put to the front of a slice of at least 256 bytes. The coordinates and the index of the list stay in the other
// slices.
pub fn recount(
    stderr: Stderr,
    bytes: &[u8],
    coords: &mut [u16],
    work: &mut [u32],
    out: &mut [u8],
) -> usize
    requires { 256 ≤ length out.old }
    ensures { FileQuoted bytes.now coords.old work.old out.old
        result coords.new work.new out.new }
{
    let read = shotfile_reader::read(bytes, coords);
    let measured = recount_read(stderr, read, coords, work);
    quoting_text::put_answer(out, measured)
}
