// The plane sweep: the corners of the solid that a list covers, in rising order of x, y and z, with their sums, and their records as far
// as a lent buffer has room. The shots come from the grid index, as boxes that rise by where they begin on x. Stands on `sweep_slots` and
// `sweep_planes`.
//
// `l` and `u` are the images of the layers below and above a plane, `names` the columns in which they may differ; `buf` is the lent buffer.
#![tactic(auto)]

ghost use Rattle.std.specs.Prelude.{◌≡◌, [], ◌≤◌};
ghost use Rattle.lattice.specs.Boxes.{box_cells};
ghost use Rattle.lattice.specs.Shots.{cells};
ghost use Rattle.lattice.specs.Listing.{corners};
ghost use Rattle.lattice_sums.specs.CornerSums.{sums_of};
ghost use Rattle.lattice_weights.specs.Packed.{Packed};
ghost use Rattle.job.specs.Job.{shots, seen};
ghost use Rattle.sweep_image.specs.Images.{image_size};
ghost use Rattle.sweep_order.specs.Order.{Given, EndsRow};
ghost use Rattle.sweep_tally.specs.Found.{state, found};
ghost use Rattle.sweep_planes.specs.Planes.{AllFound};

use grid::indexed::Indexed;
use lattice_sums::sums::CornerSums;
use lattice_weights::pack;
use sweep_order::count_ends;
use sweep_planes::planes;

// How many words two columns of an image have, which show a field of at most 125.
const TWO_COLUMNS: usize = 2 * sweep_image::ROWS;

// How many words the columns of the largest field have.
const ALL_COLUMNS: usize = 17 * sweep_image::ROWS;

// The planes of a field whose images have at most so many words.
fn sweep_by<const WORDS: usize>(
    field: u16,
    boxes: &[u16],
    count: usize,
    ends: &[u16],
    weights: &[i8],
    buf: &mut [u8],
) -> CornerSums
    requires { Given field boxes.now count × EndsRow boxes.now count ends.now × (image_size field ≤ WORDS) × (WORDS ≤ 17442) × Packed weights.now }
    ensures { AllFound field (box_cells boxes.now count) buf.old result buf.new }
{
    let mut l = [0u64; WORDS];
    let mut u = [0u64; WORDS];
    let mut names = [0u64; 1040];
    planes(
        field, boxes, count, ends, &mut l, &mut u, &mut names, weights, buf,
    )
}

// The sums of all corners of given boxes, which rise by where they begin on x, and their records as far as the buffer has room.
pub fn sweep_boxes(field: u16, boxes: &[u16], count: usize, buf: &mut [u8]) -> CornerSums
    requires { Given field boxes.now count }
    ensures { AllFound field (box_cells boxes.now count) buf.old result buf.new }
{
    let mut weights = [0i8; 4096];
    pack(&mut weights);
    let mut ends = [0u16; 1026];
    count_ends(field, boxes, count, &mut ends);
    if field < 126 {
        sweep_by::<TWO_COLUMNS>(field, boxes, count, &ends, &weights, buf)
    } else {
        sweep_by::<ALL_COLUMNS>(field, boxes, count, &ends, &weights, buf)
    }
}

// The sums of all corners of the solid of a list with its index, and their records as far as the buffer has room.
pub fn sweep(list: Indexed, buf: &mut [u8]) -> CornerSums
    ensures { let job = seen list.entry.job in
        state result buf.new ≡ found (state (sums_of []) buf.old) (corners job.field (cells (shots job))) }
{
    let mut boxes = [0u16; 24576];
    let n = sweep_slots::fill_slots(list, &mut boxes);
    sweep_boxes(list.job.field, &boxes, n, buf)
}
