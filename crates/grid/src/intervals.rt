// Intervals of an axis: whether a shot meets one, and how many it meets. docs/SCOPE.md, 'The grid index'.
ghost use Rattle.std.specs.Prelude.{◌≡◌, ◌+◌, ◌-◌, ◌*◌, ◌/◌, ◌<◌, ◌≤◌, length};
ghost use Rattle.job.specs.Job.{shot_count};
ghost use Rattle.grid.specs.Quotients.{Quotients};
ghost use Rattle.grid.specs.Grid.{meets, axis_of, on_axis, meets_on, span_of};

use job::shot;

// The three axes of the field.
#[derive(Clone, Copy)]
pub enum Axis {
    X,
    Y,
    Z,
}

// The axis of a number: 0 is x, 1 is y, and any other is z.
impl From<u16> for Axis {
    ghost from_gives = { λ number axis. axis ≡ axis_of number };

    fn from(number: u16) -> Axis {
        match number {
            0 => Axis::X,
            1 => Axis::Y,
            _ => Axis::Z,
        }
    }
}

// The number of grid cells.
pub fn cells_of(grid: u16) -> usize
    requires { grid ≤ 64 }
    ensures { result ≡ grid * grid * grid }
{
    let side = usize::from(grid);
    side * side * side
}

// The coordinate of a shot on an axis.
fn on_axis(coords: &[u16], axis: Axis, shot: usize) -> u16
    requires { shot < shot_count coords.now }
    ensures { result ≡ on_axis axis coords.now shot }
{
    match axis {
        Axis::X => shot::x_of(coords, shot),
        Axis::Y => shot::y_of(coords, shot),
        Axis::Z => shot::z_of(coords, shot),
    }
}

// Whether an interval of an axis shares a point with the edge of a shot, ends included. One comparison and no branch: where the edge ends
// before the interval begins, the difference wraps to more than the two are long.
fn interval_meets(width: u16, interval: u16, at: u16, edge: u16) -> bool
    ensures { result ≡ meets width interval at edge }
{
    let low = u32::from(interval) * u32::from(width);
    let end = u32::from(at) + u32::from(edge);
    end.wrapping_sub(low) <= u32::from(width) + u32::from(edge)
}

impl Axis {
    // Whether a shot meets an interval of the axis.
    pub fn is_met(self, coords: &[u16], edge: u16, width: u16, interval: u16, shot: u32) -> bool
        requires { shot < shot_count coords.now }
        ensures { result ≡ meets_on self width interval edge coords.now shot }
    {
        let number = shot as usize;
        let at = on_axis(coords, self, number);
        interval_meets(width, interval, at, shot::edge_of(edge, coords, number))
    }
}

// Whether a shot meets an interval of an axis, which is named by its number.
pub fn shot_meets(
    coords: &[u16],
    edge: u16,
    axis: u16,
    width: u16,
    interval: u16,
    shot: u32,
) -> bool
    requires { shot < shot_count coords.now }
    ensures { result ≡ meets_on (axis_of axis) width interval edge coords.now shot }
{
    Axis::from(axis).is_met(coords, edge, width, interval, shot)
}

// The quotient of a number by a width, given those of the numbers below it.
fn quotient(width: u16, table: &[u16], at: u16) -> u16
    requires le_width { 1 ≤ width }
    requires quotients { Quotients width at table.now }
    ensures { result ≡ at / width }
{
    if at < width {
        0
    } else {
        table[usize::from(at - width)] + 1
    }
}

// Fills a table with the quotients of the first numbers by a width. Each is found from an earlier one, without a division.
pub(crate) fn quotients(width: u16, numbers: u16, table: &mut [u16])
    requires le_width { 1 ≤ width }
    requires numbers_in_bounds { numbers ≤ length table.old }
    ensures { Quotients width numbers table.new }
{
    for at in 0..numbers {
        table[usize::from(at)] = quotient(width, table, at);
    }
}

// How many intervals of an axis a shot meets: from the first, in which the unit before it lies, to that in which it ends, or the last.
pub(crate) fn span(grid: u16, width: u16, table: &[u16], at: u16, edge: u16) -> usize
    requires le_width { 1 ≤ width }
    requires edge_bound { at + edge ≤ grid * width }
    requires quotients { Quotients width (at + edge + 1) table.now }
    ensures { result ≡ span_of grid width at edge }
{
    let first = usize::from(table[usize::from(at.saturating_sub(1))]);
    let after = usize::from(table[usize::from(at) + usize::from(edge)]) + 1;
    after.min(usize::from(grid)) - first
}
