// The corners of a column: the points where the four words about a line make a corner, one after the other. Stands on `sweep_words`,
// `sweep_image` and `sweep_tally`.
//
// `l` and `u` are the images of the lower and the upper layer, `k` is a column of them, `x` the plane and `y` the line; `l0`, `l1`, `u0` and `u1`
// are the four words, `t` are the corner sums before a function and `s` those so far, `buf` is the lent buffer; `m` has the bits of a word that
// are still to be looked at.
#![tactic(auto)]

ghost use Rattle.std.specs.Prelude.{◌≡◌, ◌+◌, ◌-◌, ◌*◌, ◌≤◌, length};
ghost use Rattle.lattice.specs.Cells.{line_points};
ghost use Rattle.lattice_sums.specs.CornerSums.{RoomFor};
ghost use Rattle.lattice_weights.specs.Packed.{Packed};
ghost use Rattle.sweep_image.specs.Images.{word_at, rows};
ghost use Rattle.sweep_tally.specs.Found.{state, found};
ghost use Rattle.sweep_columns.specs.Columns.{column_corners, column_at, Inside};

use lattice_sums::sums::CornerSums;

// The corners among the points of column k, by the four words about the line.
fn points(
    l0: u64,
    l1: u64,
    u0: u64,
    u1: u64,
    k: usize,
    x: u16,
    y: u16,
    weights: &[i8],
    t: CornerSums,
    buf: &mut [u8],
) -> CornerSums
    requires { (x ≤ 1024) × (y ≤ 1024) × (k ≤ 16) × Packed weights.now × RoomFor (line_points 1024 - 63 * k) t × Inside k l0 l1 u0 u1 }
    ensures { state result buf.new ≡ found (state t buf.old) (column_corners x y k l0 l1 u0 u1) }
{
    let mut s = t;
    let mut m = sweep_words::corner_places(l0, l1, u0, u1);
    // Kept so: set bits are taken off a word, and no index is counted; an iterator over them would be a type and its laws for this loop.
    while m != 0 {
        let b = sweep_words::lowest(m);
        let p = sweep_words::pattern(l0, l1, u0, u1, b);
        s = sweep_tally::meet(s, weights, buf, x, y, (63 * k + b) as u16, p);
        m = sweep_words::without_lowest(m);
    }
    s
}

// The corners of column k of the line y.
pub fn column(
    l: &[u64],
    u: &[u64],
    k: usize,
    x: u16,
    y: u16,
    weights: &[i8],
    t: CornerSums,
    buf: &mut [u8],
) -> CornerSums
    requires x_bound { (x ≤ 1024) × (y ≤ 1024) × (k ≤ 16) × Packed weights.now × RoomFor (line_points 1024 - 63 * k) t }
    requires rows_in_bounds { ((k + 1) * rows ≤ length l.now) × ((k + 1) * rows ≤ length u.now) }
    requires inside { Inside k (word_at l.now k y) (word_at l.now k (y + 1)) (word_at u.now k y) (word_at u.now k (y + 1)) }
    ensures { state result buf.new ≡ found (state t buf.old) (column_at x y l.now u.now k) }
{
    let i = k * sweep_image::ROWS;
    let j = usize::from(y);
    let l0 = l[i + j];
    let l1 = l[i + (j + 1)];
    let u0 = u[i + j];
    let u1 = u[i + (j + 1)];
    points(l0, l1, u0, u1, k, x, y, weights, t, buf)
}
