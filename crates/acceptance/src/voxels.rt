// Request (i): a VOX file that is accepted gives a list of edge 1 and grid 1, with the largest side as field; its voxels keep file order, and
// their cells are exactly the cells quoted.
ghost use Rattle.acceptance.specs.Voxels.{VoxelsRead};

use job::Stored;
use refusals::Refusal;

// Reads a VOX file.
pub fn read_vox(bytes: &[u8], coords: &mut [u16]) -> Result<Stored, Refusal>
    ensures { VoxelsRead bytes.now result coords.new }
{
    vox::read_vox(bytes, coords)
}
