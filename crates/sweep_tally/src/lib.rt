// Corners met one after the other: their sums, and their records in a lent buffer as far as it has room. Stands on `lattice_sums`, and on
// the packed weights of `lattice_weights`.
//
// `t` are the corner sums so far, `buf` is the lent buffer, `n` the number of a record, and `p` a pattern's byte.
#![tactic(auto)]

ghost use Rattle.std.specs.Prelude.{◌≡◌, ◌+◌, ◌≤◌, length};
ghost use Rattle.lattice.specs.Listing.{corner_record};
ghost use Rattle.lattice_sums.specs.CornerSums.{RoomFor};
ghost use Rattle.lattice_weights.specs.Packed.{Packed};
ghost use Rattle.sweep_tally.specs.Found.{corner_of, stored_record, state, meet};

use lattice_sums::sums::CornerSums;

// The record of a corner.
fn record_of(x: u16, y: u16, z: u16, p: u8) -> [u8; 7]
    ensures { result ≡ corner_record (corner_of x y z p) }
{
    let [x0, x1] = x.to_le_bytes();
    let [y0, y1] = y.to_le_bytes();
    let [z0, z1] = z.to_le_bytes();
    [x0, x1, y0, y1, z0, z1, p]
}

// Writes record n, if the buffer has room for it.
fn put(buf: &mut [u8], n: usize, bytes: &[u8; 7])
    ensures { buf.new ≡ stored_record buf.old n bytes.now }
{
    if n < buf.len() / 7 {
        buf[7 * n..7 * n + 7].copy_from_slice(bytes);
    }
}

// One corner more, of pattern p: added to the sums, and its record stored where there is room. The weights are lent.
pub fn meet(
    t: CornerSums,
    weights: &[i8],
    buf: &mut [u8],
    x: u16,
    y: u16,
    z: u16,
    p: u8,
) -> CornerSums
    requires { (x ≤ 1024) × (y ≤ 1024) × (z ≤ 1024) × RoomFor 1 t × Packed weights.now }
    ensures { state result buf.new ≡ meet (state t buf.old) (corner_of x y z p) }
{
    put(buf, t.corners, &record_of(x, y, z, p));
    t.add(weights, x, y, z, p)
}
