// Rectangles of a layer of cells, and the boxes that meet them: the first box that does, or the last, and the cells that a box has of a
// rectangle.
//
// Here and in the crates above: `boxes` has six numbers a box, `x` is a plane across x, `r` a rectangle of the layer above it, and `from` and
// `to` bound the numbers of the boxes that are looked at. The *shade* of some boxes are the cells of that layer that they have.
//
// specs/Overlaps.antt says which cells these are. Stands on `lattice` and `sweep_image`.
#![tactic(auto)]

ghost use Rattle.std.specs.Prelude.{◌≡◌, ◌+◌, ◌-◌, ◌*◌, ◌≤◌, length};
ghost use Rattle.lattice.specs.Boxes.{box_at};
ghost use Rattle.sweep_image.specs.Images.{RectIn};
ghost use Rattle.sweep_image.specs.Rects.{shared_rect};
ghost use Rattle.ground.specs.FirstPlace.{FirstPlace};
ghost use Rattle.sweep_overlaps.specs.Overlaps.{rect_of, FirstBoxes, four_of, overlaps_rect, meets_rect, meets_at, LastMeeting};

use sweep_image::Rect;

// The rectangle of box i on y and z.
pub fn rect(boxes: &[u16], i: usize) -> Rect
    requires { 6 * i + 6 ≤ length boxes.now }
    ensures { result ≡ rect_of (box_at boxes.now i) }
{
    let at = 6 * i;
    Rect {
        low: boxes[at + 2],
        high: boxes[at + 3],
        from: boxes[at + 4],
        to: boxes[at + 5],
    }
}

// Four numbers as one, sixteen bits each.
fn four(a: u16, b: u16, c: u16, d: u16) -> u64
    ensures { result ≡ four_of a b c d }
{
    ((u64::from(d) * 65536 + u64::from(c)) * 65536 + u64::from(b)) * 65536 + u64::from(a)
}

// Whether box i meets a rectangle on y and z. The four tests are one, since which of them fails is hard to predict: in each sixteen bits of
// the sum the highest bit says whether an end of the box has reached the bound that the rectangle sets.
fn overlaps(boxes: &[u16], i: usize, r: Rect) -> bool
    requires first_boxes { FirstBoxes 1024 boxes.now (i + 1) }
    requires rect_in { RectIn 1024 r }
    ensures { result ≡ overlaps_rect (box_at boxes.now i) r }
{
    let t = rect(boxes, i);
    let ends = four(t.low, t.high, t.from, t.to);
    let bounds = four(32768 - r.high, 32767 - r.low, 32768 - r.to, 32767 - r.from);
    (ends + bounds) & 0x8000_8000_8000_8000 == 0x8000_0000_8000_0000
}

// Whether box i meets a rectangle on y and z, and ends past the plane x.
pub fn meets(boxes: &[u16], i: usize, x: u16, r: Rect) -> bool
    requires first_boxes { FirstBoxes 1024 boxes.now (i + 1) }
    requires rect_in { RectIn 1024 r }
    ensures { result ≡ meets_rect (box_at boxes.now i) x r }
{
    overlaps(boxes, i, r) && x < boxes[6 * i + 1]
}

// The number of the first box, from number `from` on and before number `to`, that ends past the plane x and meets a rectangle; or else
// `to`.
pub fn first_meeting(boxes: &[u16], x: u16, from: usize, to: usize, r: Rect) -> usize
    requires first_boxes { FirstBoxes 1024 boxes.now to }
    requires from_le_to { from ≤ to }
    requires rect_in { RectIn 1024 r }
    ensures { FirstPlace (meets_at boxes.now x r) from to result }
{
    (from..to).find(|&i| meets(boxes, i, x, r)).unwrap_or(to)
}

// One past the number of the last box, down to number `from` and before number `to`, that ends past the plane x and meets a rectangle; or
// else `from`.
pub fn last_meeting(boxes: &[u16], x: u16, from: usize, to: usize, r: Rect) -> usize
    requires first_boxes { FirstBoxes 1024 boxes.now to }
    requires from_le_to { from ≤ to }
    requires rect_in { RectIn 1024 r }
    ensures { LastMeeting boxes.now x from to r result }
{
    for i in (from..to).rev() {
        if meets(boxes, i, x, r) {
            return i + 1;
        }
    }
    from
}

// The cells of a rectangle that box i has.
pub fn common(boxes: &[u16], i: usize, r: Rect) -> Rect
    requires { 6 * i + 6 ≤ length boxes.now }
    ensures { result ≡ shared_rect r (rect_of (box_at boxes.now i)) }
{
    r.shared(rect(boxes, i))
}

// The fuel that is left when the boxes from one number up to another were asked: fuel bounds how many boxes a carving may ask. None is left
// where they were as many as it was for, or more.
pub fn fuel_left(fuel: usize, from: usize, place: usize) -> usize
    requires { from ≤ place }
    ensures { result ≡ fuel - (place - from + 1) }
{
    fuel.saturating_sub(place - from).saturating_sub(1)
}
