// Request (vii): the reader turns down a field that says what its absence would mean, in the header or a shot, by refusal 17 after 5 on the
// same record, with that map's offset; two files that are read are the same bytes exactly if they say the same settings and shots. That
// every file which is read, and whose list the writer accepts, is rewritten to its own bytes is `read_and_write` of condition_2.
ghost use Rattle.acceptance.specs.ShortestFiles.{OnlyShortest, FilesCompared};

use job::Stored;
use refusals::Refusal;
use text_same::same_bytes;

// Reads a file.
pub fn read(bytes: &[u8], coords: &mut [u16]) -> Result<Stored, Refusal>
    ensures { OnlyShortest bytes.now coords.old result }
{
    shotfile_reader::read(bytes, coords)
}

// Whether two files are read and are the same bytes.
pub fn same_file(
    bytes: &[u8],
    coords: &mut [u16],
    other_bytes: &[u8],
    other_coords: &mut [u16],
) -> bool
    ensures { FilesCompared bytes.now coords.old other_bytes.now other_coords.old result }
{
    let one = shotfile_reader::read(bytes, coords);
    let two = shotfile_reader::read(other_bytes, other_coords);
    one.is_ok() && two.is_ok() && same_bytes(bytes, other_bytes)
}
