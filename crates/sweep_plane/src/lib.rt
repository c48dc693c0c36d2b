// The corners of a plane across x, of boxes that begin on it or before it, and from the images of the layer below it to those of the
// layer above. Stands on `sweep_layer`, `sweep_points` and `sweep_settling`.
//
// `l`, `u` and `names` are as in `sweep_image`; `from`, `old` and `n` as in `sweep_layer`; `t` are the corner sums so far, and `buf` is the
// lent buffer with their records. A *turn* is what is done at a plane on which boxes begin or end.
#![tactic(auto)]

ghost use Rattle.std.specs.Prelude.{◌<◌, ◌≤◌};
ghost use Rattle.lattice.specs.Cells.{plane_points};
ghost use Rattle.lattice_sums.specs.CornerSums.{RoomFor};
ghost use Rattle.lattice_weights.specs.Packed.{Packed};
ghost use Rattle.sweep_overlaps.specs.Overlaps.{shade};
ghost use Rattle.sweep_faces.specs.Layers.{About, touching};
ghost use Rattle.sweep_tally.specs.Found.{state};
ghost use Rattle.sweep_plane.specs.Plane.{Both, PlaneOut, EndsOn};

use lattice_sums::sums::CornerSums;

// The corners of a plane on which boxes begin or end.
fn turn(
    field: u16,
    boxes: &[u16],
    x: u16,
    from: usize,
    old: usize,
    n: usize,
    ends: usize,
    l: &mut [u64],
    u: &mut [u64],
    names: &mut [u64],
    weights: &[i8],
    t: CornerSums,
    buf: &mut [u8],
) -> CornerSums
    requires about { About field boxes.now x from old n × (1 ≤ field) × (x ≤ field) × (0 < n) × (n ≤ 4096) × (ends ≤ 4096) }
    requires both { Both field (touching boxes.now x old) l.old u.old names.old
        × Packed weights.now × RoomFor (plane_points 1024) t }
    ensures plane_out { PlaneOut field boxes.now x n (state t buf.old) (state result buf.new) }
    ensures both_2 { Both field (shade boxes.now x n) l.new u.new names.new }
{
    sweep_layer::renew(field, boxes, x, from, old, n, ends, l, u, names);
    let s = sweep_points::lines(field, x, l, u, names, weights, t, buf);
    sweep_settling::settle(field, u, l, names);
    s
}

// The corners of the plane x. Of the boxes those before `from` have ended, those before `old` begin before the plane, those from `old`
// up to `n` on it, and `ends` counts those that end on it. Both images show the layer below the plane, and then the layer above it.
pub fn plane(
    field: u16,
    boxes: &[u16],
    x: u16,
    from: usize,
    old: usize,
    n: usize,
    ends: usize,
    l: &mut [u64],
    u: &mut [u64],
    names: &mut [u64],
    weights: &[i8],
    t: CornerSums,
    buf: &mut [u8],
) -> CornerSums
    requires about { About field boxes.now x from old n × (1 ≤ field) × (x ≤ field) × (n ≤ 4096) × EndsOn boxes.now x old ends }
    requires both { Both field (touching boxes.now x old) l.old u.old names.old
        × Packed weights.now × RoomFor (plane_points 1024) t }
    ensures plane_out { PlaneOut field boxes.now x n (state t buf.old) (state result buf.new) }
    ensures both_2 { Both field (shade boxes.now x n) l.new u.new names.new }
{
    let turning = ends + (n - old);
    if n == 0 || turning == 0 {
        return t;
    }
    turn(
        field, boxes, x, from, old, n, ends, l, u, names, weights, t, buf,
    )
}
