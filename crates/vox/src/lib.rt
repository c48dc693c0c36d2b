// Files of the voxel editor MagicaVoxel: `read_vox` takes the bytes of a VOX file to a list of shots of edge 1, a shot a voxel, in file
// order. docs/SCOPE.md, 'VOX file'. specs/Vox.antt says what a file means, specs/Conditions.antt when it is refused and specs/FileOrder.antt
// in which order refusals apply; proofs/Conditions.antt that each refusal is given exactly where it should be, proofs/FileOrder.antt that it
// is the first in the file, proofs/Voxels.antt that the cells of the list are the voxels, that the list is valid and how long its index is.
// Stands on `vox_chunks` for the chunks of a file and `vox_voxels` for its sides and voxels, and on `refusals`, `job` and
// `shotfile_reader`, whose refusals, door to a shot and answer it uses.
#![tactic(auto)]

ghost use Rattle.std.specs.Prelude.{◌≡◌, ◌+◌, ◌*◌, ◌≤◌, ◌<◌, length};
ghost use Rattle.buffer.specs.Wrote.{Wrote, in_front};
ghost use Rattle.job.specs.Job.{shot_count, place_of, numbers_of};
ghost use Rattle.refusals.specs.Tests.{first_of};
ghost use Rattle.vox_chunks.specs.Chunks.{mismatched};
ghost use Rattle.vox_voxels.specs.Voxels.{voxel_at};
ghost use Rattle.vox.specs.Vox.{unmarked, unfilled, voxel_count, voxels, overrun_from, opening_tests, voxel_tests, vox_tests, VoxCall};

use job::Stored;
use refusals::Refusal;
use vox_chunks::{after_chunk, is_mismatched, is_missing, is_overrun, is_there, number};
use vox_voxels::{first_wrong, has_wrong_side, largest_side};

// The mark with which a file opens, and the names of the chunks that it must have.
const MARK: [u8; 4] = *b"VOX ";

const MAIN: [u8; 4] = *b"MAIN";

const SIZE: [u8; 4] = *b"SIZE";

const XYZI: [u8; 4] = *b"XYZI";

// The version that stands after the mark.
const VERSION: u32 = 150;

// Where the chunks stand, and in XYZI the count and the voxels.
const MAIN_AT: usize = 8;

const SIZE_AT: usize = 20;

const XYZI_AT: usize = 44;

const COUNT_AT: usize = 56;

const VOXELS_AT: usize = 60;

// Whether the mark or the version is wrong or cut.
fn is_unmarked(bytes: &[u8]) -> bool
    ensures { result ≡ unmarked bytes.now }
{
    bytes.len() < 8 || !is_there(bytes, 0, &MARK) || number(bytes, 4) != VERSION
}

// Whether MAIN, at 8, has content, or children that do not fill the file.
fn is_unfilled(bytes: &[u8]) -> bool
    ensures { result ≡ unfilled bytes.now }
{
    bytes.len() < SIZE_AT
        || number(bytes, MAIN_AT + 4) != 0
        || after_chunk(bytes, MAIN_AT) != bytes.len()
}

// Checks the mark, MAIN and SIZE.
fn check_opening(bytes: &[u8]) -> Result<(), Refusal>
    ensures { result ≡ first_of (opening_tests bytes.now) }
{
    if is_unmarked(bytes) {
        return Err(Refusal::NotVox { at: 0 });
    }
    if is_missing(bytes, MAIN_AT, &MAIN) {
        return Err(Refusal::NotVox { at: MAIN_AT });
    }
    if is_unfilled(bytes) {
        return Err(Refusal::BrokenChunk { at: MAIN_AT });
    }
    if is_missing(bytes, SIZE_AT, &SIZE) {
        return Err(Refusal::NotVox { at: SIZE_AT });
    }
    if is_mismatched(bytes, SIZE_AT, 12) {
        return Err(Refusal::BrokenChunk { at: SIZE_AT });
    }
    if has_wrong_side(bytes) {
        return Err(Refusal::VoxelRange { at: SIZE_AT });
    }
    Ok(())
}

// The first chunk from a place on that the file ends in, or where the last one ends.
// Kept so: each step is as long as the chunk that stands there, so that no range or part of a slice has these places.
fn first_overrun(bytes: &[u8], start: usize) -> usize
    ensures { result ≡ overrun_from bytes.now start }
{
    let mut at = start;
    while at < bytes.len() && !is_overrun(bytes, at) {
        at = after_chunk(bytes, at);
    }
    at
}

// Whether XYZI, at 44, is not whole, has children, or has content of another size than its count says.
fn is_miscounted(bytes: &[u8]) -> bool
    requires { 44 ≤ length bytes.now }
    ensures { result ≡ mismatched bytes.now 44 (4 + 4 * voxel_count bytes.now) }
{
    bytes.len() < VOXELS_AT
        || is_mismatched(bytes, XYZI_AT, 4 + 4 * number(bytes, COUNT_AT) as usize)
}

// Checks XYZI, where so many shots have a place, and the chunks after it.
fn check_voxels(bytes: &[u8], places: usize) -> Result<(), Refusal>
    requires { 44 ≤ length bytes.now }
    ensures { result ≡ first_of (voxel_tests places bytes.now) }
{
    if is_missing(bytes, XYZI_AT, &XYZI) {
        return Err(Refusal::NotVox { at: XYZI_AT });
    }
    if is_miscounted(bytes) {
        return Err(Refusal::BrokenChunk { at: XYZI_AT });
    }
    let count = number(bytes, COUNT_AT) as usize;
    if 4096 < count {
        return Err(Refusal::TooManyShots { at: XYZI_AT });
    }
    if places < count {
        return Err(Refusal::NoPlace { at: XYZI_AT });
    }
    let n = first_wrong(bytes, count);
    if n < count {
        return Err(Refusal::VoxelRange {
            at: VOXELS_AT + 4 * n,
        });
    }
    let at = first_overrun(bytes, VOXELS_AT + 4 * count);
    if at < bytes.len() {
        return Err(Refusal::BrokenChunk { at });
    }
    Ok(())
}

// Checks a whole file.
fn check_file(bytes: &[u8], places: usize) -> Result<(), Refusal>
    ensures { result ≡ first_of (vox_tests places bytes.now) }
{
    check_opening(bytes)?;
    check_voxels(bytes, places)
}

// Stores a voxel as shot n.
fn put_voxel(coords: &mut [u16], n: usize, x: u8, y: u8, z: u8)
    requires { n < shot_count coords.old }
    ensures { Wrote coords.old coords.new (place_of n) (place_of (n + 1)) (numbers_of x y z) }
{
    job::shot::put(coords, n, u16::from(x), u16::from(y), u16::from(z));
}

// Stores so many voxels as shots.
fn store_voxels(bytes: &[u8], coords: &mut [u16], count: usize)
    requires count_in_bounds { voxel_at count ≤ length bytes.now }
    requires count_bound { count ≤ shot_count coords.old }
    ensures { coords.new ≡ in_front (voxels bytes.now 0 count) coords.old }
{
    for n in 0..count {
        let at = VOXELS_AT + 4 * n;
        put_voxel(coords, n, bytes[at], bytes[at + 1], bytes[at + 2]);
    }
}

// Reads a VOX file into the coordinate slice, or says why not.
pub fn read_vox(bytes: &[u8], coords: &mut [u16]) -> Result<Stored, Refusal>
    ensures { VoxCall bytes.now coords.old result coords.new }
{
    check_file(bytes, job::shot::count(coords))?;
    let shots = number(bytes, COUNT_AT) as usize;
    store_voxels(bytes, coords, shots);
    Ok(Stored {
        field: largest_side(bytes),
        edge: 1,
        grid: 1,
        shots,
    })
}
