// Boxes in their order along x: the first that begins past a plane, those that end before it, and how many end on each plane. Stands on
// `lattice` and `ground`.
//
// `boxes` has six numbers a box, `count` of them, rising by where they begin on x; `x` is a plane; the boxes before number `from` end before it,
// those before `old` begin before it.
#![tactic(auto)]

ghost use Rattle.std.specs.Prelude.{◌≡◌, ◌+◌, ◌*◌, ◌<◌, ◌≤◌, length, get_or, set};
ghost use Rattle.ground.specs.FirstPlace.{FirstPlace};
ghost use Rattle.sweep_order.specs.Order.{Given, begins_past, lasts_to, EndsRow};

// The first box from `old` on that begins past the plane x, or the number of boxes.
pub fn first_past(boxes: &[u16], count: usize, old: usize, x: u16) -> usize
    requires { (6 * count ≤ length boxes.now) × (old ≤ count) × (count ≤ 4096) }
    ensures { FirstPlace (begins_past boxes.now x) old count result }
{
    (old..count).find(|i| x < boxes[6 * *i]).unwrap_or(count)
}

// Passes over the boxes from `from` on that end before the plane x, up to the first that does not, or to `old`.
pub fn pass(boxes: &[u16], from: usize, old: usize, x: u16) -> usize
    requires { (6 * old ≤ length boxes.now) × (from ≤ old) × (old ≤ 4096) }
    ensures { FirstPlace (lasts_to boxes.now x) from old result }
{
    (from..old).find(|i| x <= boxes[6 * *i + 1]).unwrap_or(old)
}

// One more at a place of a row.
fn count_one(row: &mut [u16], place: u16)
    requires { (place < length row.old) × (get_or row.old place 0 ≤ 4096) }
    ensures { row.new ≡ set row.old place (get_or row.old place 0 + 1) }
{
    row[usize::from(place)] += 1;
}

// Counts the boxes by the plane on which they end.
pub fn count_ends(field: u16, boxes: &[u16], count: usize, row: &mut [u16])
    requires { Given field boxes.now count × EndsRow boxes.now 0 row.old }
    ensures { EndsRow boxes.now count row.new }
{
    for ends in boxes[..6 * count].chunks_exact(6) {
        count_one(row, ends[1]);
    }
}
