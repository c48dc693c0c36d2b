// The columns in which the images of the layers below and above a plane across x may differ, named row by row: bit k of entry y names column
// k in row y. A rectangle set or cleared in the upper image has its columns named where the two differ. Stands on `sweep_image` and
// `sweep_words`, which say what `l`, `u`, `k`, `y` and `r` are. Names that *tell* leave out no word in which the images differ.
#![tactic(auto)]

ghost use Rattle.std.specs.Prelude.{◌+◌, ◌/◌, ◌≤◌, length};
ghost use Rattle.sweep_image.specs.Images.{RectIn, Turned, filled, words_from, in_words};
ghost use Rattle.sweep_image.specs.Changes.{Changed};
ghost use Rattle.sweep_names.specs.Names.{Tells, TellsBut, Lent, LentBut, named_if};

use sweep_image::{Fill, ROWS, Rect, fill_rect};

// Names a column, by its bit, in the rows from a on and before b where the two images differ in it.
fn name_rows(l: &[u64], u: &[u64], names: &mut [u64], at: usize, a: usize, b: usize, bit: u64)
    requires { (a ≤ b) × (b ≤ length names.old) × (at + b ≤ length l.now) × (at + b ≤ length u.now) }
    ensures { Changed (named_if l.now u.now at bit) a b names.old names.new }
{
    // Kept so: tried: no proof of what a `zip` over `iter_mut` writes.
    for y in a..b {
        names[y] |= if l[at + y] == u[at + y] { 0 } else { bit };
    }
}

// Names one of the columns of a rectangle, in the rows where the two images differ in it.
fn name_column(field: u16, k: usize, r: Rect, l: &[u64], u: &[u64], names: &mut [u64])
    requires rect_in { RectIn field r × (k ≤ r.to / 63) }
    requires lent_but { LentBut field (words_from r k) l.now u.now names.old }
    ensures { TellsBut field (words_from r (k + 1)) l.now u.now names.new }
{
    let a = usize::from(r.low) + 1;
    let b = usize::from(r.high) + 1;
    name_rows(l, u, names, k * ROWS, a, b, sweep_words::bit(k));
}

// Names the columns of a rectangle, where the two images differ in them.
pub fn name(field: u16, r: Rect, l: &[u64], u: &[u64], names: &mut [u64])
    requires rect_in { RectIn field r }
    requires lent_but { LentBut field (in_words r) l.now u.now names.old }
    ensures { Tells field l.now u.now names.new }
{
    for k in usize::from(r.from) / 63..=usize::from(r.to) / 63 {
        name_column(field, k, r, l, u, names);
    }
}

// Sets or clears the cells of a rectangle in the upper image, and names its columns.
pub fn fill_and_name(field: u16, fill: Fill, r: Rect, l: &[u64], u: &mut [u64], names: &mut [u64])
    requires rect_in { RectIn field r }
    requires lent { Lent field l.now u.old names.old }
    ensures turned { Turned field (filled fill r) u.old u.new }
    ensures tells { Tells field l.now u.new names.new }
{
    fill_rect(field, fill, r, u);
    name(field, r, l, u, names);
}
