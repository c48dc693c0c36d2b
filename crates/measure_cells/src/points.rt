// Point by point over the field: the pattern of each lattice point through the cover test, and what it counts.
// One run serves the eight cells about a point, since closed boxes that touch are enough (proofs/CoverRuns.antt of `grid_cover`), and of it
// only the shots that reach the line of the point (proofs/LineLaws.antt).
ghost use Rattle.std.specs.Prelude.{◌≡◌, ◌+◌, ◌*◌, ◌/◌, ◌≤◌, length};
ghost use Rattle.lattice.specs.Cells.{below};
ghost use Rattle.lattice_sums.specs.CornerSums.{totals_of};
ghost use Rattle.job.specs.Job.{seen};
ghost use Rattle.grid_cover.specs.Cover.{run_covers};
ghost use Rattle.measure_intake.specs.Intake.{solid};
ghost use Rattle.measure_tallies.specs.Tallies.{plus, AtMost};
ghost use Rattle.measure_cells.specs.Points.{line_from, line_to, plane_to, planes_to, quad, InInterval, PointsInInterval, before_points, before_line, before_plane};

use grid::indexed::Indexed;
use grid::intervals::cells_of;
use grid_cover::first_covering;
use grid_runs::run_of;
use lattice_sums::sums::Totals;
use measure_lines::narrow_to_line;
use measure_tallies::tally;

// Whether the run covers the cell that ends at (x, y, z); no cell ends at 0.
fn cell_ends(coords: &[u16], edge: u16, run: &[u32], x: u16, y: u16, z: u16) -> bool
    ensures { result ≡ below (run_covers edge coords.now run.now) x y z }
{
    x != 0 && y != 0 && z != 0 && first_covering(coords, edge, run, x - 1, y - 1, z - 1).is_some()
}

// The four cells about the line at (x, y) that end at z, as bits 0, 2, 4 and 6. An empty run needs no test.
fn quad_ends(coords: &[u16], edge: u16, run: &[u32], x: u16, y: u16, z: u16) -> u8
    requires x_bound { x ≤ 1024 }
    requires y_bound { y ≤ 1024 }
    ensures { (result ≡ quad (run_covers edge coords.now run.now) x y z) × (result ≤ 85) }
{
    if run.is_empty() {
        return 0;
    }
    let p = u8::from(cell_ends(coords, edge, run, x, y, z));
    let q = u8::from(cell_ends(coords, edge, run, x, y + 1, z));
    let r = u8::from(cell_ends(coords, edge, run, x + 1, y, z));
    let s = u8::from(cell_ends(coords, edge, run, x + 1, y + 1, z));
    p + 4 * q + 16 * r + 64 * s
}

// The figures with those of the points of the line at (x, y) from one on, as a run covers the cells about them. Each cell about the line is
// asked once: what is above a point is below the next.
fn count_points(
    coords: &[u16],
    edge: u16,
    run: &[u32],
    x: u16,
    y: u16,
    from: u16,
    points: u16,
    t: Totals,
) -> Totals
    requires x_bound { x ≤ 1024 }
    requires y_bound { y ≤ 1024 }
    requires points_bound { from + points ≤ 1025 }
    requires at_most { AtMost before_points t }
    ensures { result ≡ plus t (line_from (run_covers edge coords.now run.now) x y from points) }
{
    let mut sums = t;
    let mut low = quad_ends(coords, edge, run, x, y, from);
    for i in 0..points {
        let high = quad_ends(coords, edge, run, x, y, from + i + 1);
        sums = tally(sums, low + 2 * high);
        low = high;
    }
    sums
}

// An interval of an axis that holds a lattice point: the last one at the far side.
fn interval_at(field: u16, grid: u16, x: u16) -> u16
    requires le_grid { 1 ≤ grid }
    requires bound { 1 ≤ field / grid }
    requires grid_value { grid * (field / grid) ≡ field }
    requires x_le_field { x ≤ field }
    ensures { InInterval (field / grid) grid result x }
{
    if x == field {
        grid - 1
    } else {
        x / (field / grid)
    }
}

// The figures with those of points of the line at (x, y) that lie in interval gz of the third axis: the run of the grid cell that holds
// them, narrowed to the shots that reach the line.
fn count_interval(
    list: Indexed,
    x: u16,
    y: u16,
    gz: u16,
    from: u16,
    points: u16,
    few: &mut [u32],
    t: Totals,
) -> Totals
    requires x_le_field { x ≤ list.job.field }
    requires y_le_field { y ≤ list.job.field }
    requires points_in_interval { let job = list.job in PointsInInterval (job.field / job.grid) job.grid gz from points }
    requires few_len { length few.old ≡ 4096 }
    requires at_most { AtMost before_points t }
    ensures { result ≡ plus t (line_from (solid (seen list.entry.job)) x y from points) }
{
    let job = list.job;
    let gx = interval_at(job.field, job.grid, x);
    let gy = interval_at(job.field, job.grid, y);
    let side = usize::from(job.grid);
    let cell = (usize::from(gx) * side + usize::from(gy)) * side + usize::from(gz);
    let run = run_of(list.work, cells_of(job.grid), cell);
    let found = narrow_to_line(job.coords, job.edge, run, x, y, few);
    count_points(job.coords, job.edge, &few[..found], x, y, from, points, t)
}

// The figures with those of the points of the line at (x, y) before the far side, interval by interval.
fn count_intervals(list: Indexed, x: u16, y: u16, few: &mut [u32], t: Totals) -> Totals
    requires x_le_field { x ≤ list.job.field }
    requires y_le_field { y ≤ list.job.field }
    requires few_len { length few.old ≡ 4096 }
    requires at_most { AtMost before_line t }
    ensures { let job = list.entry.job in result ≡ plus t (line_to (solid (seen job)) job.field x y) }
{
    let job = list.job;
    let width = job.field / job.grid;
    let mut sums = t;
    for gz in 0..job.grid {
        sums = count_interval(list, x, y, gz, gz * width, width, few, sums);
    }
    sums
}

// The figures with those of the line of points at (x, y): the point of the far side lies in the last interval.
fn count_line(list: Indexed, x: u16, y: u16, few: &mut [u32], t: Totals) -> Totals
    requires x_le_field { x ≤ list.job.field }
    requires y_le_field { y ≤ list.job.field }
    requires few_len { length few.old ≡ 4096 }
    requires at_most { AtMost before_line t }
    ensures { let job = list.entry.job in result ≡ plus t (line_to (solid (seen job)) (job.field + 1) x y) }
{
    let sums = count_intervals(list, x, y, few, t);
    count_interval(list, x, y, list.job.grid - 1, list.job.field, 1, few, sums)
}

// The figures with those of the plane of points at x.
fn count_plane(list: Indexed, x: u16, few: &mut [u32], t: Totals) -> Totals
    requires x_le_field { x ≤ list.job.field }
    requires few_len { length few.old ≡ 4096 }
    requires at_most { AtMost before_plane t }
    ensures { let job = list.entry.job in result ≡ plus t (plane_to (solid (seen job)) (job.field + 1) (job.field + 1) x) }
{
    let mut sums = t;
    for y in 0..=list.job.field {
        sums = count_line(list, x, y, few, sums);
    }
    sums
}

// The figures of the planes of points before `to`, from those of the planes before `from`, of a list with its index.
pub fn count_planes(list: Indexed, from: u16, to: u16, t: Totals) -> Totals
    requires from_le_to { from ≤ to }
    requires to_bound { to ≤ list.job.field + 1 }
    requires t_value { let job = list.job in t ≡ planes_to job.field (solid (seen job)) from }
    ensures { let job = list.entry.job in result ≡ planes_to job.field (solid (seen job)) to }
{
    let mut few = [0; 4096];
    let mut sums = t;
    for x in from..to {
        sums = count_plane(list, x, &mut few, sums);
    }
    sums
}

// The totals and the corner count of a list with its index.
pub fn count_field(list: Indexed) -> Totals
    ensures { let job = list.entry.job in result ≡ totals_of job.field (solid (seen job)) }
{
    let none = Totals {
        volume: 0,
        area: 0,
        edge: 0,
        inner: 0,
        corners: 0,
    };
    count_planes(list, 0, list.job.field + 1, none)
}
