// The box of a shot as six numbers in a slot: where it begins and ends on x, on y and on z. Stands on `job` and `buffer`.
//
// `c` are the coordinates of a list, `i` is a shot of it, `e` its edge, and `n` the number of a slot.
#![tactic(auto)]

ghost use Rattle.std.specs.Prelude.{◌≡◌, [], ◌∷◌, ◌+◌, ◌*◌, ◌≤◌, ◌<◌, length};
ghost use Rattle.buffer.specs.Wrote.{Wrote};
ghost use Rattle.lattice.specs.Shots.{InField};
ghost use Rattle.job.specs.Job.{shot_count, shot_at};
ghost use Rattle.sweep_boxes.specs.Boxes.{boxes_of};

// Puts the two ends of a span.
fn put_span(boxes: &mut [u16], at: usize, a: u16, e: u16)
    requires { (a + e ≤ 1024) × (at + 2 ≤ length boxes.old) }
    ensures { Wrote boxes.old boxes.new at (at + 2) (a ∷ (a + e) ∷ []) }
{
    boxes[at] = a;
    boxes[at + 1] = a + e;
}

// Puts the box of shot i into slot n.
pub fn put_box(edge: u16, c: &[u16], i: usize, boxes: &mut [u16], n: usize)
    requires { (i < shot_count c.now) × InField 1024 (shot_at edge c.now i) × (n < 4096) × (length boxes.old ≡ 24576) }
    ensures { Wrote boxes.old boxes.new (6 * n) (6 * (n + 1)) (boxes_of edge c.now (i ∷ [])) }
{
    let at = 6 * n;
    let x = job::shot::x_of(c, i);
    let y = job::shot::y_of(c, i);
    let z = job::shot::z_of(c, i);
    let e = job::shot::edge_of(edge, c, i);
    put_span(boxes, at, x, e);
    put_span(boxes, at + 2, y, e);
    put_span(boxes, at + 4, z, e);
}
