// The corners of boxes that rise by where they begin on x: the planes across x are gone through with the boxes about each, and a plane on which
// none begins or ends is passed over. Stands on `sweep_order` and `sweep_plane`.
//
// `l`, `u` and `names` are as in `sweep_image`; `from`, `old` and `n` as in `sweep_layer`; `ends` counts the boxes by the plane on which they
// end, `t` are the corner sums so far, and `buf` is the lent buffer with their records.
#![tactic(auto)]

ghost use Rattle.lattice.specs.Boxes.{box_cells};
ghost use Rattle.lattice_weights.specs.Packed.{Packed};
ghost use Rattle.sweep_faces.specs.Layers.{touching};
ghost use Rattle.sweep_order.specs.Order.{Given, EndsRow};
ghost use Rattle.sweep_plane.specs.Plane.{Both};
ghost use Rattle.sweep_planes.specs.Planes.{AllFound};

use lattice_sums::sums::CornerSums;
use sweep_order::{first_past, pass};

// All planes, one after the other, from blank images.
pub fn planes(
    field: u16,
    boxes: &[u16],
    count: usize,
    ends: &[u16],
    l: &mut [u64],
    u: &mut [u64],
    names: &mut [u64],
    weights: &[i8],
    buf: &mut [u8],
) -> CornerSums
    requires given { Given field boxes.now count × EndsRow boxes.now count ends.now × Packed weights.now }
    requires both { Both field (touching boxes.now 0 0) l.old u.old names.old }
    ensures { AllFound field (box_cells boxes.now count) buf.old result buf.new }
{
    let mut t = CornerSums::new();
    let mut from = 0;
    let mut old = 0;
    for x in 0..=field {
        let n = first_past(boxes, count, old, x);
        from = pass(boxes, from, old, x);
        t = sweep_plane::plane(
            field,
            boxes,
            x,
            from,
            old,
            n,
            usize::from(ends[usize::from(x)]),
            l,
            u,
            names,
            weights,
            t,
            buf,
        );
        old = n;
    }
    t
}
