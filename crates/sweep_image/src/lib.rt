// Bit images of a layer of cells about a plane across x: rectangles of cells set and cleared, what two of them share, and the at most four
// that are left of one around another in it. Stands on `sweep_words`.
//
// Here and in the crates above: `l` and `u` are the images of the layers below and above a plane, `names` the columns in which the two may
// differ, row by row; `k` is a column, `y` a row, `r` a rectangle, and `field` the side of the field. An image has a column for each 63
// places on z, of a word for each row; an image that is *turned* shows what it showed with a change.
#![tactic(auto)]

ghost use Rattle.std.specs.Prelude.{◌≡◌, ℕ, ◌*◌, ◌/◌, ◌≤◌, length, map};
ghost use Rattle.sweep_image.specs.Images.{RectIn, Turned, Beside, filled, image_size};
ghost use Rattle.sweep_image.specs.Rects.{empty_rect, size_of, shared_rect, part_of};
ghost use Rattle.sweep_image.specs.Changes.{masked, ColumnFilled};

// How many rows a column of an image has.
pub const ROWS: usize = 1026;

// The cells of a layer after `low` and up to `high` on y, and after `from` and up to `to` on z, by the points where they end.
#[derive(Clone, Copy)]
pub struct Rect {
    pub low: u16,
    pub high: u16,
    pub from: u16,
    pub to: u16,
}

// The sides of a rectangle on which it is left around another in it: below and above that one on y; in its rows, before and after it on z.
#[derive(Clone, Copy)]
pub enum Side {
    Below,
    Above,
    Before,
    After,
}

// All of them.
pub const SIDES: [Side; 4] = [Side::Below, Side::Above, Side::Before, Side::After];

impl Rect {
    // Whether it has no cell.
    pub fn is_empty(self) -> bool
        ensures { result ≡ empty_rect self }
    {
        self.high <= self.low || self.to <= self.from
    }

    // How many cells it has.
    pub fn size(self) -> usize
        requires { (self.high ≤ 1024) × (self.to ≤ 1024) }
        ensures { (result ≡ size_of self) × (result ≤ 1048576) }
    {
        usize::from(self.high.saturating_sub(self.low))
            * usize::from(self.to.saturating_sub(self.from))
    }

    // The cells that it shares with another.
    pub fn shared(self, other: Rect) -> Rect
        ensures { result ≡ shared_rect self other }
    {
        Rect {
            low: self.low.max(other.low),
            high: self.high.min(other.high),
            from: self.from.max(other.from),
            to: self.to.min(other.to),
        }
    }

    // The part of it on a side of one in it.
    pub fn part(self, core: Rect, side: Side) -> Rect
        ensures { result ≡ part_of self core side }
    {
        match side {
            Side::Below => Rect {
                high: core.low,
                ..self
            },
            Side::Above => Rect {
                low: core.high,
                ..self
            },
            Side::Before => Rect {
                to: core.from,
                from: self.from,
                ..core
            },
            Side::After => Rect {
                from: core.to,
                to: self.to,
                ..core
            },
        }
    }
}

// What becomes of the cells of a rectangle: they are set, or cleared.
#[derive(Clone, Copy)]
pub enum Fill {
    Set,
    Clear,
}

// Changes each word.
fn change_rows<F: Fn(u64) -> u64>(rows: &mut [u64], change: F)
    requires { F.IsAlwaysCallable change }
    ensures { (g : ℕ → ℕ) → ((w v : ℕ) → F.post change w v → v ≡ g w) → rows.new ≡ map g rows.old }
{
    for w in rows.iter_mut() {
        *w = change(*w);
    }
}

// Sets the bits of v in each word, or clears them.
fn fill_rows(fill: Fill, rows: &mut [u64], v: u64)
    ensures { rows.new ≡ map (masked fill v) rows.old }
{
    match fill {
        Fill::Set => change_rows(rows, |w| w | v),
        Fill::Clear => change_rows(rows, |w| w & !v),
    }
}

// Sets or clears the cells of a rectangle in one of its columns of an image.
fn fill_column(field: u16, fill: Fill, k: usize, r: Rect, u: &mut [u64])
    requires rect_in { RectIn field r × (field ≤ 1024) × (r.from / 63 ≤ k) × (k ≤ r.to / 63) }
    requires field_in_bounds { image_size field ≤ length u.old }
    ensures column_filled { ColumnFilled fill r k u.old u.new }
    ensures beside { Beside r u.old u.new }
{
    let at = k * ROWS;
    let a = at + usize::from(r.low) + 1;
    let b = at + usize::from(r.high) + 1;
    let v = sweep_words::interval(k, usize::from(r.from), usize::from(r.to));
    fill_rows(fill, &mut u[a..b], v);
}

// Sets or clears the cells of a rectangle in an image, column by column.
pub fn fill_rect(field: u16, fill: Fill, r: Rect, u: &mut [u64])
    requires rect_in { RectIn field r × (field ≤ 1024) }
    requires field_in_bounds { image_size field ≤ length u.old }
    ensures turned { Turned field (filled fill r) u.old u.new }
    ensures beside { Beside r u.old u.new }
{
    for k in usize::from(r.from) / 63..=usize::from(r.to) / 63 {
        fill_column(field, fill, k, r, u);
    }
}
