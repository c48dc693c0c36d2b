// From the bytes of a shot file to its corner listing, by specs/Listing.antt. The program `listing` only moves these bytes in and out. Stands
// on `shotfile_reader` and `measure`.
#![tactic(auto)]

ghost use Rattle.listing_file.specs.Listing.{FileListed};

use lattice_sums::sums::Totals;
use refusals::Refusal;

// Reads a shot file, measures the list that it holds, and fills the front of the buffer with its corner listing, 7 bytes a corner.
pub fn list_file(
    bytes: &[u8],
    coords: &mut [u16],
    work: &mut [u32],
    buffer: &mut [u8],
) -> Result<Totals, Refusal>
    ensures { FileListed bytes.now coords.old work.old buffer.old
        result coords.new work.new buffer.new }
{
    let stored = shotfile_reader::read(bytes, coords)?;
    measure::list(stored.job(coords), work, buffer)
}
