// The layer above a plane across x, from the layer below it: face by face; or, where many boxes end on the plane, all boxes are shown anew.
// Stands on `sweep_faces`, `sweep_carving` and `sweep_overlaps`.
//
// `boxes`, `x`, `r`, `l`, `u` and `names` are as in `sweep_overlaps` and `sweep_image`; `from`, `old` and `n` as in `sweep_faces`, and `ends`
// counts the boxes that end on the plane.
#![tactic(auto)]

ghost use Rattle.std.specs.Prelude.{◌+◌, ◌*◌, ◌<◌, ◌≤◌};
ghost use Rattle.sweep_names.specs.Names.{Tells, Lent};
ghost use Rattle.sweep_overlaps.specs.Overlaps.{shade};
ghost use Rattle.sweep_faces.specs.Layers.{About, touching, Becomes};

use sweep_faces::{paint_faces, rect, release};
use sweep_image::Rect;

// Shows all boxes anew that reach past the plane.
fn renew_all(
    field: u16,
    boxes: &[u16],
    x: u16,
    from: usize,
    old: usize,
    n: usize,
    l: &[u64],
    u: &mut [u64],
    names: &mut [u64],
)
    requires { About field boxes.now x from old n × (1 ≤ field) × Lent field l.now u.old names.old }
    ensures becomes { Becomes field (touching boxes.now x old) (shade boxes.now x n) u.old u.new }
    ensures tells { Tells field l.now u.new names.new }
{
    let whole = Rect {
        low: 0,
        high: field,
        from: 0,
        to: field,
    };
    sweep_carving::again(field, boxes, x, from, n, whole, l, u, names);
}

// The same, face by face.
fn renew_faces(
    field: u16,
    boxes: &[u16],
    x: u16,
    from: usize,
    old: usize,
    n: usize,
    l: &[u64],
    u: &mut [u64],
    names: &mut [u64],
)
    requires { About field boxes.now x from old n × Lent field l.now u.old names.old }
    ensures becomes { Becomes field (touching boxes.now x old) (shade boxes.now x n) u.old u.new }
    ensures tells { Tells field l.now u.new names.new }
{
    release(field, boxes, x, from, old, n, l, u, names);
    paint_faces(field, boxes, x, from, old, n, l, u, names);
}

// Whether it pays to show all boxes anew: many boxes end, and each of their faces would be asked of all boxes.
fn pays(field: u16, r: Rect, boxes: usize, ended: usize) -> bool
    requires { (field ≤ 1024) × (r.high ≤ 1024) × (r.to ≤ 1024) × (1 ≤ boxes) × (ended ≤ 4096) }
{
    let side = usize::from(field);
    r.size() / 126 + 8 + side * side / 63 / boxes < 4 * ended
}

// From the layer below the plane to the layer above it, where about `ends` boxes end on the plane.
pub fn renew(
    field: u16,
    boxes: &[u16],
    x: u16,
    from: usize,
    old: usize,
    n: usize,
    ends: usize,
    l: &[u64],
    u: &mut [u64],
    names: &mut [u64],
)
    requires { About field boxes.now x from old n × (1 ≤ field) × (0 < n) × (n ≤ 4096) × (ends ≤ 4096)
        × Lent field l.now u.old names.old }
    ensures becomes { Becomes field (touching boxes.now x old) (shade boxes.now x n) u.old u.new }
    ensures tells { Tells field l.now u.new names.new }
{
    if pays(field, rect(boxes, 0), n - from + 1, ends) {
        renew_all(field, boxes, x, from, old, n, l, u, names);
    } else {
        renew_faces(field, boxes, x, from, old, n, l, u, names);
    }
}
