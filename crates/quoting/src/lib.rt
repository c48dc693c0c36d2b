// From the bytes of a shot file or a VOX file to the bytes that a program prints: its quote. The programs `quote` and `quote_vox` only move
// these bytes in and out. Stands on `shotfile_reader`, `vox`, `measure` and `quoting_text`, which has the text.
#![tactic(auto)]

ghost use Rattle.std.specs.Prelude.{◌≤◌, length};
ghost use Rattle.quoting_text.specs.Quoting.{FileQuoted};
ghost use Rattle.quoting_text.specs.Answered.{ShotsThere, answered_file, FileMeasured};
ghost use Rattle.quoting.specs.VoxQuoting.{VoxQuoted};

use job::Stored;
use lattice_sums::sums::Totals;
use refusals::Refusal;

// Goes on from what reading a file answers: measures the list that stands in the coordinates.
fn measure_read(
    read: Result<Stored, Refusal>,
    coords: &[u16],
    work: &mut [u32],
) -> Result<Totals, Refusal>
    requires { ShotsThere read coords.now }
    ensures { FileMeasured (answered_file read coords.now) work.old result work.new }
{
    measure::measure(read?.job(coords), work)
}

// What the quoting program prints for a shot file, put to the front of a slice of at least 256 bytes. The coordinates and the index of
// the list stay in the other slices.
pub fn quote(bytes: &[u8], coords: &mut [u16], work: &mut [u32], out: &mut [u8]) -> usize
    requires { 256 ≤ length out.old }
    ensures { FileQuoted bytes.now coords.old work.old out.old
        result coords.new work.new out.new }
{
    let read = shotfile_reader::read(bytes, coords);
    let measured = measure_read(read, coords, work);
    quoting_text::put_answer(out, measured)
}

// What is printed for a VOX file, put to the front in the same way.
pub fn quote_vox(bytes: &[u8], coords: &mut [u16], work: &mut [u32], out: &mut [u8]) -> usize
    requires { 256 ≤ length out.old }
    ensures { VoxQuoted bytes.now coords.old work.old out.old
        result coords.new work.new out.new }
{
    let read = vox::read_vox(bytes, coords);
    let measured = measure_read(read, coords, work);
    quoting_text::put_answer(out, measured)
}
