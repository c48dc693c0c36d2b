// A rectangle of the layer above a plane across x, painted where no box shows yet, which is found by carving it: a box that meets a rectangle
// has its part of it already; what is left of the rectangle is at most four rectangles, and each is carved by the boxes before that one,
// from the newest down, since where boxes follow one another along a stroke the newest hides most of it.
//
// `l` and `u` are the images of the layers below and above the plane, `names` the columns in which they may differ; `boxes`, `x`, `from`,
// `to` and `r` are as in `sweep_overlaps`.
//
// specs/Painting.antt says what cells painted are. Stands on `lattice`, `sweep_image`, `sweep_names` and `sweep_overlaps`.
#![tactic(auto)]

ghost use Rattle.std.specs.Prelude.{◌≤◌};
ghost use Rattle.sweep_image.specs.Images.{in_rect};
ghost use Rattle.sweep_names.specs.Names.{Tells, Lent};
ghost use Rattle.sweep_overlaps.specs.Overlaps.{FirstBoxes};
ghost use Rattle.sweep_painting.specs.Painting.{Painted};

use sweep_image::{Fill, Rect, SIDES};
use sweep_names::fill_and_name;
use sweep_overlaps::{common, fuel_left, last_meeting};

// Paints a rectangle where the image shows all boxes before number `to`. It calls itself for the parts around what the last box that meets
// the rectangle has of it, down to number `from`, with the boxes before that one; what that box has is painted already. The fuel bounds how
// many boxes are asked: where it is used up, the rectangle is painted as a whole. Gives the fuel that is left.
fn paint_parts(
    field: u16,
    boxes: &[u16],
    x: u16,
    from: usize,
    to: usize,
    r: Rect,
    l: &[u64],
    u: &mut [u64],
    names: &mut [u64],
    fuel: usize,
) -> usize
    requires high_le_field { r.high ≤ field }
    requires to_le_field { r.to ≤ field }
    requires first_boxes { FirstBoxes field boxes.now to }
    requires from_le_to { from ≤ to }
    requires lent { Lent field l.now u.old names.old }
    ensures painted { Painted field boxes.now x to (in_rect r) u.old u.new }
    ensures tells { Tells field l.now u.new names.new }
{
    if r.is_empty() {
        return fuel;
    }
    if fuel == 0 {
        fill_and_name(field, Fill::Set, r, l, u, names);
        return 0;
    }
    let end = last_meeting(boxes, x, from, to, r);
    let mut left = fuel_left(fuel, end, to);
    if end == from {
        fill_and_name(field, Fill::Set, r, l, u, names);
        return left;
    }
    let last = end - 1;
    let core = common(boxes, last, r);
    for side in SIDES {
        left = paint_parts(
            field,
            boxes,
            x,
            from,
            last,
            r.part(core, side),
            l,
            u,
            names,
            left,
        );
    }
    left
}

// The fuel for a rectangle: small ones are painted whole.
fn fuel_to_paint(r: Rect) -> usize
    requires { (r.high ≤ 1024) × (r.to ≤ 1024) }
{
    let cells = r.size();
    if cells < 32768 { 0 } else { cells / 128 }
}

// Paints a rectangle where the image shows all boxes before number `to`; those from number `from` on are asked what they hide of it.
pub fn paint_rect(
    field: u16,
    boxes: &[u16],
    x: u16,
    from: usize,
    to: usize,
    r: Rect,
    l: &[u64],
    u: &mut [u64],
    names: &mut [u64],
)
    requires high_le_field { r.high ≤ field }
    requires to_le_field { r.to ≤ field }
    requires first_boxes { FirstBoxes field boxes.now to }
    requires from_le_to { from ≤ to }
    requires lent { Lent field l.now u.old names.old }
    ensures painted { Painted field boxes.now x to (in_rect r) u.old u.new }
    ensures tells { Tells field l.now u.new names.new }
{
    paint_parts(field, boxes, x, from, to, r, l, u, names, fuel_to_paint(r));
}
