// A rectangle of the layer above a plane across x, shown anew: what no box has of it any more is wiped, which is found by carving it, without
// asking cell by cell. A box that meets a rectangle covers its part of it; what is left of the rectangle is at most four rectangles, and each
// is carved by the boxes after that one, from the oldest on.
//
// `l` and `u` are the images of the layers below and above the plane, `names` the columns in which they may differ; `boxes`, `x`, `from`,
// `to` and `r` are as in `sweep_overlaps`. *Again* says that a rectangle is cleared and then shown box by box.
//
// specs/Carving.antt says what a rectangle shown anew is. Stands on `lattice`, `sweep_image`, `sweep_names` and `sweep_overlaps`.
#![tactic(auto)]

ghost use Rattle.std.specs.Prelude.{◌+◌, ◌≤◌, length};
ghost use Rattle.sweep_image.specs.Images.{Turned, Beside, RectIn, image_size};
ghost use Rattle.sweep_names.specs.Names.{Tells, Lent};
ghost use Rattle.sweep_overlaps.specs.Overlaps.{shade_of, shade_from, FirstBoxes};
ghost use Rattle.sweep_carving.specs.Carving.{replaced, joined, Carved};

use sweep_image::{Fill, Rect, SIDES, fill_rect};
use sweep_names::{fill_and_name, name};
use sweep_overlaps::{common, first_meeting, fuel_left, meets};

// Sets what box i has of a rectangle in an image, if it ends past the plane x.
fn fill_common(field: u16, boxes: &[u16], x: u16, i: usize, r: Rect, u: &mut [u64])
    requires rect_in { RectIn field r }
    requires first_boxes { FirstBoxes field boxes.now (i + 1) }
    requires field_bound { (field ≤ 1024) × (image_size field ≤ length u.old) }
    ensures turned { Turned field (joined r (shade_of boxes.now x i)) u.old u.new }
    ensures beside { Beside r u.old u.new }
{
    if meets(boxes, i, x, r) {
        fill_rect(field, Fill::Set, common(boxes, i, r), u);
    }
}

// Shows a rectangle anew, box by box: clears it, and sets what each box that ends past the plane x has of it, from number `from` on and
// before number `to`. Most of its words are in the end as they were, so its columns are named once, in the end.
pub fn again(
    field: u16,
    boxes: &[u16],
    x: u16,
    from: usize,
    to: usize,
    r: Rect,
    l: &[u64],
    u: &mut [u64],
    names: &mut [u64],
)
    requires rect_in { RectIn field r }
    requires first_boxes { FirstBoxes field boxes.now to }
    requires from_le_to { from ≤ to }
    requires lent { Lent field l.now u.old names.old }
    ensures turned { Turned field (replaced r (shade_from boxes.now x from to)) u.old u.new }
    ensures tells { Tells field l.now u.new names.new }
{
    fill_rect(field, Fill::Clear, r, u);
    for i in from..to {
        fill_common(field, boxes, x, i, r, u);
    }
    name(field, r, l, u, names);
}

// Shows a rectangle anew where the image shows all boxes before number `to`, and none before number `from` has a cell of the rectangle:
// wipes what no box covers of it. It calls itself for the parts around what the first box that meets the rectangle has of it, with the
// boxes after that one; so the calls nest no deeper than there are boxes. The fuel bounds how many boxes are asked: where it is used up, the
// rectangle is shown anew box by box. Gives the fuel that is left.
fn carve(
    field: u16,
    boxes: &[u16],
    x: u16,
    from: usize,
    to: usize,
    r: Rect,
    l: &[u64],
    u: &mut [u64],
    names: &mut [u64],
    fuel: usize,
) -> usize
    requires high_le_field { r.high ≤ field }
    requires to_le_field { r.to ≤ field }
    requires first_boxes { FirstBoxes field boxes.now to }
    requires from_le_to { from ≤ to }
    requires lent { Lent field l.now u.old names.old }
    ensures carved { Carved field boxes.now x from to r u.old u.new }
    ensures tells { Tells field l.now u.new names.new }
{
    if r.is_empty() {
        return fuel;
    }
    if fuel == 0 {
        again(field, boxes, x, from, to, r, l, u, names);
        return 0;
    }
    let place = first_meeting(boxes, x, from, to, r);
    let mut left = fuel_left(fuel, from, place);
    if place == to {
        fill_and_name(field, Fill::Clear, r, l, u, names);
        return left;
    }
    let core = common(boxes, place, r);
    for side in SIDES {
        left = carve(
            field,
            boxes,
            x,
            place + 1,
            to,
            r.part(core, side),
            l,
            u,
            names,
            left,
        );
    }
    left
}

// The fuel for a rectangle.
fn fuel_to_carve(r: Rect) -> usize
    requires { (r.high ≤ 1024) × (r.to ≤ 1024) }
{
    r.size() / 8 + 64
}

// Shows a rectangle anew where the image shows all boxes before number `to`, and none before number `from` has a cell of the rectangle.
pub fn carve_rect(
    field: u16,
    boxes: &[u16],
    x: u16,
    from: usize,
    to: usize,
    r: Rect,
    l: &[u64],
    u: &mut [u64],
    names: &mut [u64],
)
    requires high_le_field { r.high ≤ field }
    requires to_le_field { r.to ≤ field }
    requires first_boxes { FirstBoxes field boxes.now to }
    requires from_le_to { from ≤ to }
    requires lent { Lent field l.now u.old names.old }
    ensures carved { Carved field boxes.now x from to r u.old u.new }
    ensures tells { Tells field l.now u.new names.new }
{
    carve(field, boxes, x, from, to, r, l, u, names, fuel_to_carve(r));
}
