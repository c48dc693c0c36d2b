// Rows that name no column, in which the images of the layers about a plane are the same, passed over eight at a time. Stands on `sweep_names`.
//
// `names` are the columns in which the images may differ, row by row, and `y` is a row.
#![tactic(auto)]

ghost use Rattle.std.specs.Prelude.{◌≡◌, ◌+◌, ◌<◌, ◌≤◌, length};
ghost use Rattle.sweep_names.specs.Names.{name_rows};
ghost use Rattle.sweep_blanks.specs.Blanks.{Blank};

// How many rows from y on can be passed over: none where the row or the one above it names a column, else eight or one.
fn blank_rows(names: &[u64], y: usize) -> usize
    requires { y + 8 < length names.now }
    ensures { Blank names.now y (y + result) × (result ≤ 8) }
{
    let two = names[y] | names[y + 1];
    if two != 0 {
        return 0;
    }
    let four = (names[y + 2] | names[y + 3]) | (names[y + 4] | names[y + 5]);
    let three = (names[y + 6] | names[y + 7]) | names[y + 8];
    let seven = four | three;
    if seven != 0 {
        return 1;
    }
    8
}

// The next row to look at from y on, or `end`: no row that is passed over names a column, nor does the row above it.
pub fn next_named(names: &[u64], y: usize, end: usize) -> usize
    requires { (y ≤ end) × (end ≤ 1025) × (length names.now ≡ name_rows) }
    ensures { Blank names.now y result × (y ≤ result) × (result ≤ end) }
{
    let mut i = y;
    // Kept so: a step is eight rows or one, so no range has the rows that are looked at.
    while i < end {
        let n = blank_rows(names, i);
        if n == 0 {
            return i;
        }
        i += n;
    }
    end
}
