// The faces of the boxes about a plane across x, from the layer below the plane to the layer above it: those of the boxes that end on the plane
// are taken away, those of the boxes that begin on it put in, each as far as no other box hides it. Stands on `sweep_carving` and
// `sweep_painting`.
//
// `boxes`, `x`, `r`, `l`, `u` and `names` are as in `sweep_overlaps` and `sweep_image`. *About* the plane x, of the first `n` boxes those before
// number `from` end before it, those before `old` begin before it, the others on it; `q` is one of them.
#![tactic(auto)]

ghost use Rattle.std.specs.Prelude.{◌≡◌, ◌+◌, ◌*◌, ◌<◌, ◌≤◌, length};
ghost use Rattle.lattice.specs.Boxes.{box_at};
ghost use Rattle.sweep_names.specs.Names.{Tells, Lent};
ghost use Rattle.sweep_overlaps.specs.Overlaps.{rect_of, shade};
ghost use Rattle.sweep_faces.specs.Layers.{About, touching, released, Becomes};

pub use sweep_overlaps::rect;

// Takes the face of box q away, if the box ends on the plane.
fn release_face(
    field: u16,
    boxes: &[u16],
    x: u16,
    from: usize,
    old: usize,
    n: usize,
    q: usize,
    l: &[u64],
    u: &mut [u64],
    names: &mut [u64],
)
    requires { About field boxes.now x from old n × (q < old) × Lent field l.now u.old names.old }
    ensures becomes { Becomes field (released boxes.now x old q) (released boxes.now x old (q + 1)) u.old u.new }
    ensures tells { Tells field l.now u.new names.new }
{
    if boxes[6 * q + 1] == x {
        let r = rect(boxes, q);
        sweep_carving::carve_rect(field, boxes, x, from, old, r, l, u, names);
    }
}

// Takes the faces of the boxes that end on the plane away: what is left are the boxes that reach past it.
pub fn release(
    field: u16,
    boxes: &[u16],
    x: u16,
    from: usize,
    old: usize,
    n: usize,
    l: &[u64],
    u: &mut [u64],
    names: &mut [u64],
)
    requires { About field boxes.now x from old n × Lent field l.now u.old names.old }
    ensures becomes { Becomes field (touching boxes.now x old) (shade boxes.now x old) u.old u.new }
    ensures tells { Tells field l.now u.new names.new }
{
    for q in from..old {
        release_face(field, boxes, x, from, old, n, q, l, u, names);
    }
}

// Puts the face of box q in, which begins on the plane.
fn paint_face(
    field: u16,
    boxes: &[u16],
    x: u16,
    from: usize,
    old: usize,
    n: usize,
    q: usize,
    l: &[u64],
    u: &mut [u64],
    names: &mut [u64],
)
    requires { About field boxes.now x from old n × (old ≤ q) × (q < n) × Lent field l.now u.old names.old }
    ensures becomes { Becomes field (shade boxes.now x q) (shade boxes.now x (q + 1)) u.old u.new }
    ensures tells { Tells field l.now u.new names.new }
{
    let r = rect(boxes, q);
    sweep_painting::paint_rect(field, boxes, x, from, q, r, l, u, names);
}

// Puts the faces of the boxes in that begin on the plane.
pub fn paint_faces(
    field: u16,
    boxes: &[u16],
    x: u16,
    from: usize,
    old: usize,
    n: usize,
    l: &[u64],
    u: &mut [u64],
    names: &mut [u64],
)
    requires { About field boxes.now x from old n × Lent field l.now u.old names.old }
    ensures becomes { Becomes field (shade boxes.now x old) (shade boxes.now x n) u.old u.new }
    ensures tells { Tells field l.now u.new names.new }
{
    for q in old..n {
        paint_face(field, boxes, x, from, old, n, q, l, u, names);
    }
}
