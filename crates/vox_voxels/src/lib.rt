// The sides and the voxels of a VOX file, at their places in SIZE and XYZI: whether a side is out of range, the largest side, and the first
// voxel that is outside SIZE or has colour 0. specs/Voxels.antt has each in words of the bytes. Stands on `vox_chunks` for numbers, and on
// `job`.
#![tactic(auto)]

ghost use Rattle.std.specs.Prelude.{◌≡◌, ◌||◌, ◌+◌, ◌≤◌, leb, length};
ghost use Rattle.job.specs.Checking.{outside};
ghost use Rattle.vox_voxels.specs.Voxels.{side_on, wrong_side, largest_side, voxel_at, wrong_voxel, first_wrong};

use vox_chunks::number;

// Where the sides and the voxels stand.
const SIDES_AT: usize = 32;

const VOXELS_AT: usize = 60;

// The three sides of SIZE.
#[derive(Clone, Copy)]
struct Sides {
    x: u32,
    y: u32,
    z: u32,
}

// The sides of SIZE, at 20.
fn sides_of(bytes: &[u8]) -> Sides
    requires { 44 ≤ length bytes.now }
    ensures x { result.x ≡ side_on bytes.now 0 }
    ensures y { result.y ≡ side_on bytes.now 1 }
    ensures z { result.z ≡ side_on bytes.now 2 }
{
    Sides {
        x: number(bytes, SIDES_AT),
        y: number(bytes, SIDES_AT + 4),
        z: number(bytes, SIDES_AT + 8),
    }
}

// Whether a side is not 1 to 256.
fn is_wrong_side(side: u32) -> bool
    ensures { result ≡ outside 1 256 side }
{
    side < 1 || 256 < side
}

// Whether some side of SIZE is not 1 to 256.
pub fn has_wrong_side(bytes: &[u8]) -> bool
    requires { 44 ≤ length bytes.now }
    ensures { result ≡ wrong_side bytes.now 0 || (wrong_side bytes.now 1 || wrong_side bytes.now 2) }
{
    let sides = sides_of(bytes);
    is_wrong_side(sides.x) || is_wrong_side(sides.y) || is_wrong_side(sides.z)
}

// The largest side of SIZE.
pub fn largest_side(bytes: &[u8]) -> u16
    requires in_bounds { 44 ≤ length bytes.now }
    requires bytes_bound { largest_side bytes.now ≤ 256 }
    ensures { result ≡ largest_side bytes.now }
{
    let sides = sides_of(bytes);
    sides.x.max(sides.y).max(sides.z) as u16
}

// Whether a coordinate is not below a side.
fn is_beyond(side: u32, coordinate: u8) -> bool
    ensures { result ≡ leb side coordinate }
{
    side <= u32::from(coordinate)
}

// Whether voxel n is outside SIZE or has colour 0.
#[tactic(auto, unfolding(crate::specs::Voxels::wrong_voxel))]
fn is_wrong_voxel(bytes: &[u8], n: usize) -> bool
    requires { voxel_at n + 4 ≤ length bytes.now }
    ensures { result ≡ wrong_voxel bytes.now n }
{
    let sides = sides_of(bytes);
    let at = VOXELS_AT + 4 * n;
    is_beyond(sides.x, bytes[at])
        || is_beyond(sides.y, bytes[at + 1])
        || is_beyond(sides.z, bytes[at + 2])
        || bytes[at + 3] == 0
}

// The first such voxel of so many, or their number.
pub fn first_wrong(bytes: &[u8], count: usize) -> usize
    requires { voxel_at count ≤ length bytes.now }
    ensures { result ≡ first_wrong bytes.now 0 count }
{
    for n in 0..count {
        if is_wrong_voxel(bytes, n) {
            return n;
        }
    }
    count
}
