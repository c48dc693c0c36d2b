// The image of the layer below a plane across x brought to the image of the layer above it: the named columns are copied, and then none is
// named. Stands on `sweep_names`, `sweep_image` and `sweep_words`; `l`, `u` and `names` are as there, and `m` has the columns of a row that are
// yet to be copied.
#![tactic(auto)]

ghost use Rattle.std.specs.Prelude.{◌≡◌, true, ℕ, ◌+◌, ◌<◌, ◌≤◌, length, get_or};
ghost use Rattle.sweep_image.specs.Changes.{Changed};
ghost use Rattle.sweep_names.specs.Names.{name_rows, Tells, Lent};
ghost use Rattle.sweep_settling.specs.Settling.{Settled};

// Copies the named columns of row y from the upper image to the lower one; then it names none.
fn settle_row(field: u16, u: &[u64], l: &mut [u64], names: &mut [u64], y: usize)
    requires y_lt_name_rows { y < name_rows }
    requires lent { Lent field l.old u.now names.old }
    ensures tells { Tells field l.new u.now names.new }
    ensures changed { Changed (λ i w. 0) y (y + 1) names.old names.new }
    ensures l_len_unchanged { length l.new ≡ length l.old }
{
    let mut m = names[y];
    // Kept so: set bits are taken off a word, and no index is counted; an iterator over them would be a type and its laws for this loop.
    while m != 0 {
        let at = sweep_words::lowest(m) * sweep_image::ROWS + y;
        l[at] = u[at];
        m = sweep_words::without_lowest(m);
    }
    names[y] = 0;
}

// The eight rows from y on name no column.
fn blank(names: &[u64], y: usize) -> bool
    requires { y + 8 ≤ length names.now }
    ensures { result ≡ true → (i : ℕ) → y ≤ i → i < y + 8 → get_or names.now i 0 ≡ 0 }
{
    names[y..y + 8].iter().fold(0, |bits, w| bits | w) == 0
}

// Settles the eight rows from y on.
fn settle_eight(field: u16, u: &[u64], l: &mut [u64], names: &mut [u64], y: usize)
    requires y_bound { y + 8 ≤ name_rows }
    requires lent { Lent field l.old u.now names.old }
    ensures tells { Tells field l.new u.now names.new }
    ensures changed { Changed (λ i w. 0) y (y + 8) names.old names.new }
    ensures l_len_unchanged { length l.new ≡ length l.old }
{
    if !blank(names, y) {
        for i in y..y + 8 {
            settle_row(field, u, l, names, i);
        }
    }
}

// Copies the named columns from the upper image to the lower one, which then shows the same; then no column is named.
pub fn settle(field: u16, u: &[u64], l: &mut [u64], names: &mut [u64])
    requires { Lent field l.old u.now names.old }
    ensures { Settled field u.now l.old l.new names.new }
{
    for y in (0..usize::from(field) + 1).step_by(8) {
        settle_eight(field, u, l, names, y);
    }
}
