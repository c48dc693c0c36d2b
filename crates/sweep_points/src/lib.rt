// The corners of a plane across x, from the images of the layers below and above it: line after line, and in each line the columns that the
// two rows about it name. Stands on `sweep_columns`, `sweep_blanks`, `sweep_names` and `sweep_tally`.
//
// `l` and `u` are the images of the lower and the upper layer, `names` the columns in which they may differ, row by row, and `k` is a column.
// `x` is the plane, `y` a line of it, `t` are the corner sums before a function and `s` those so far, `buf` is the lent buffer; `m` has the bits of
// a word that are still to be looked at.
#![tactic(auto)]

ghost use Rattle.std.specs.Prelude.{◌≡◌, ◌+◌, ◌<◌, ◌≤◌, length, get_or};
ghost use Rattle.std.specs.Int.Bits.{bit_or};
ghost use Rattle.lattice.specs.Cells.{line_points, plane_points};
ghost use Rattle.lattice_sums.specs.CornerSums.{RoomFor};
ghost use Rattle.lattice_weights.specs.Packed.{Packed};
ghost use Rattle.sweep_names.specs.Names.{Tells};
ghost use Rattle.sweep_tally.specs.Found.{state, found};
ghost use Rattle.sweep_points.specs.Points.{Layers, PlaneFound, line_at};

use lattice_sums::sums::CornerSums;
use sweep_blanks::next_named;
use sweep_columns::column;

// The columns that row j or the row after it names.
fn named(names: &[u64], j: usize) -> u64
    requires { j + 1 < length names.now }
    ensures { result ≡ bit_or (get_or names.now j 0) (get_or names.now (j + 1) 0) }
{
    names[j] | names[j + 1]
}

// The corners of the line y of a field: a column that neither of its rows names is the same in both layers, so it has none.
fn line(
    field: u16,
    x: u16,
    y: u16,
    l: &[u64],
    u: &[u64],
    names: &[u64],
    weights: &[i8],
    t: CornerSums,
    buf: &mut [u8],
) -> CornerSums
    requires field_bound { (field ≤ 1024) × (x ≤ 1024) × (y ≤ field) × Packed weights.now × RoomFor (line_points 1024) t }
    requires layers { Layers field x l.now u.now × Tells field l.now u.now names.now }
    ensures { state result buf.new ≡ found (state t buf.old) (line_at field x l.now u.now y) }
{
    let mut s = t;
    let mut m = named(names, usize::from(y));
    // Kept so: set bits are taken off a word, and no index is counted; an iterator over them would be a type and its laws for this loop.
    while m != 0 {
        let k = sweep_words::lowest(m);
        s = column(l, u, k, x, y, weights, s, buf);
        m = sweep_words::without_lowest(m);
    }
    s
}

// The corners of the plane x of the solid whose layers below and above it the images l and u show; `names` names the columns where they
// may differ.
pub fn lines(
    field: u16,
    x: u16,
    l: &[u64],
    u: &[u64],
    names: &[u64],
    weights: &[i8],
    t: CornerSums,
    buf: &mut [u8],
) -> CornerSums
    requires field_bound { (field ≤ 1024) × (x ≤ field) × Packed weights.now × RoomFor (plane_points 1024) t }
    requires layers { Layers field x l.now u.now × Tells field l.now u.now names.now }
    ensures { PlaneFound field x l.now u.now (state t buf.old) (state result buf.new) }
{
    let end = usize::from(field) + 1;
    let mut s = t;
    let mut y = next_named(names, 0, end);
    // Kept so: from row to row goes a search for the next that names a column, so no range has them.
    while y < end {
        s = line(field, x, y as u16, l, u, names, weights, s, buf);
        y = next_named(names, y + 1, end);
    }
    s
}
