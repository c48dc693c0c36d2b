// From the bytes of a VOX file to the shot file of its voxels, by specs/Drawn.antt; proofs/DrawnLaws.antt: with room for the longest file an
// accepted drawing is always written, and proofs/ReadBack.antt: what is written says what the drawing says. The program `vox_shots` only
// moves these bytes in and out. Stands on `vox` and `shotfile_writer`.
#![tactic(auto)]

ghost use Rattle.drawn_file.specs.Drawn.{FileDrawn};

use refusals::Refusal;

// Reads a VOX file, and fills the front of a slice with the shortest shot file of its voxels, or says why not. The coordinates stay in the
// other slice.
pub fn write_drawing(bytes: &[u8], coords: &mut [u16], file: &mut [u8]) -> Result<usize, Refusal>
    ensures { FileDrawn bytes.now coords.old file.old result coords.new file.new }
{
    let list = vox::read_vox(bytes, coords)?;
    shotfile_writer::write(list.job(coords), file)
}
