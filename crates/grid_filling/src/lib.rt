// Putting the uniform grid index of a list into a lent work slice. docs/SCOPE.md, 'The grid index'.
//
// `build` leaves the index as a function of the list (specs/Grid.antt of `grid`), and past it what was there. The shots are narrowed to a
// slab, a row and a cell, and each run goes behind the one before it; nothing of the work slice serves as scratch. specs/Filling.antt says
// what stands in the slice while it is filled. Stands on `grid`, whose index it puts in, and on `buffer`, `job` and `ground`.
#![tactic(auto)]

ghost use Rattle.std.specs.Prelude.{◌≡◌, ◌+◌, ◌-◌, ◌*◌, ◌≤◌, ◌<◌, length, set};
ghost use Rattle.ground.specs.Numbers.{up_to, AllBelow};
ghost use Rattle.job.specs.Job.{shot_count, seen};
ghost use Rattle.buffer.specs.Wrote.{Wrote, in_front};
ghost use Rattle.grid.specs.declared.intervals.Axis.TheVariants.{Z};
ghost use Rattle.grid.specs.Grid.{grid_cells, run_of, row_of, slab_of, need, index_of};
ghost use Rattle.grid_filling.specs.Filling.{Front, narrowed, Ready, Grew};

use grid::intervals::{Axis, cells_of};
use job::valid::ValidJob;

// Of the shots in `from`, puts those that meet an interval of an axis to the front of `to`, in their order, and gives how many. Every shot
// goes behind those that are kept, where the next one takes its place unless it is kept too: nothing branches on the test.
fn narrow(
    coords: &[u16],
    edge: u16,
    axis: Axis,
    width: u16,
    interval: u16,
    from: &[u32],
    to: &mut [u32],
) -> usize
    requires all_below { AllBelow (shot_count coords.now) from.now }
    requires from_in_bounds { length from.now ≤ length to.old }
    ensures { Front to.new result (narrowed axis width interval edge coords.now from.now) }
{
    let mut kept = 0;
    for &shot in from {
        to[kept] = shot;
        kept += usize::from(axis.is_met(coords, edge, width, interval, shot));
    }
    kept
}

// Puts a run from a place on, and gives the place after it. In a fine grid most runs are empty, and cost no call of a copy.
fn put_run(run: &[u32], work: &mut [u32], at: usize) -> usize
    requires { at + length run.now ≤ length work.old }
    ensures { Wrote work.old work.new at result run.now }
{
    let end = at + run.len();
    if at < end {
        work[at..end].copy_from_slice(run);
    }
    end
}

// Puts the run of a grid cell behind the runs before it, and its starting place; gives the place after the run. The run is narrowed in
// `run`, so that the work slice gets its entries alone.
fn fill_cell(
    coords: &[u16],
    edge: u16,
    width: u16,
    gz: u16,
    cell: usize,
    base: usize,
    row: &[u32],
    run: &mut [u32],
    work: &mut [u32],
    at: usize,
) -> usize
    requires cell_lt_base { cell < base }
    requires base_le_at { base ≤ at }
    requires at_bound { at < 4294967296 }
    requires all_below { AllBelow (shot_count coords.now) row.now }
    requires row_in_bounds { length row.now ≤ length run.old }
    requires row_in_bounds_2 { at + length (narrowed Z width gz edge coords.now row.now) ≤ length work.old }
    ensures { Wrote (set work.old cell (at - base)) work.new at result
        (narrowed Z width gz edge coords.now row.now) }
{
    work[cell] = (at - base) as u32;
    let n = narrow(coords, edge, Axis::Z, width, gz, row, run);
    put_run(&run[..n], work, at)
}

// Puts in the grid cells of a row, given the shots that touch it.
fn fill_cells(
    list: ValidJob,
    line: usize,
    row: &[u32],
    run: &mut [u32],
    work: &mut [u32],
    at: usize,
) -> usize
    requires line_bound { let job = seen list.job in
        line < job.grid * job.grid }
    requires row_value { row.now ≡ row_of (seen list.job) line }
    requires row_in_bounds { length row.now ≤ length run.old }
    requires ready { let job = seen list.job in
        Ready (run_of job) (grid_cells job) (line * job.grid) at work.old }
    ensures { let job = seen list.entry.job in
        Grew (run_of job) (grid_cells job)
        (line * job.grid) (line * job.grid + job.grid) work.old work.new result }
{
    let job = list.job;
    let width = job.field / job.grid;
    let base = cells_of(job.grid) + 1;
    let mut next = at;
    for gz in 0..job.grid {
        let cell = line * usize::from(job.grid) + usize::from(gz);
        next = fill_cell(
            job.coords, job.edge, width, gz, cell, base, row, run, work, next,
        );
    }
    next
}

// Puts in a row, given the shots that touch its slab.
fn fill_row(
    list: ValidJob,
    gx: u16,
    gy: u16,
    slab: &[u32],
    row: &mut [u32],
    run: &mut [u32],
    work: &mut [u32],
    at: usize,
) -> usize
    requires gx_lt_grid { gx < list.job.grid }
    requires gy_lt_grid { gy < list.job.grid }
    requires slab_value { slab.now ≡ slab_of (seen list.job) gx }
    requires in_bounds { (4096 ≤ length row.old) × (4096 ≤ length run.old) }
    requires ready { let job = seen list.job in
        Ready (run_of job) (grid_cells job) ((gx * job.grid + gy) * job.grid) at work.old }
    ensures { let job = seen list.entry.job in
        Grew (run_of job) (grid_cells job)
        ((gx * job.grid + gy) * job.grid) ((gx * job.grid + gy) * job.grid + job.grid) work.old work.new result }
{
    let job = list.job;
    let width = job.field / job.grid;
    let n = narrow(job.coords, job.edge, Axis::Y, width, gy, slab, row);
    let line = usize::from(gx) * usize::from(job.grid) + usize::from(gy);
    fill_cells(list, line, &row[..n], run, work, at)
}

// Puts in the rows of a slab, given the shots that touch it.
fn fill_rows(
    list: ValidJob,
    gx: u16,
    slab: &[u32],
    row: &mut [u32],
    run: &mut [u32],
    work: &mut [u32],
    at: usize,
) -> usize
    requires gx_lt_grid { gx < list.job.grid }
    requires slab_value { slab.now ≡ slab_of (seen list.job) gx }
    requires in_bounds { (4096 ≤ length row.old) × (4096 ≤ length run.old) }
    requires ready { let job = seen list.job in
        Ready (run_of job) (grid_cells job) (gx * job.grid * job.grid) at work.old }
    ensures { let job = seen list.entry.job in
        Grew (run_of job) (grid_cells job)
        (gx * job.grid * job.grid) ((gx + 1) * job.grid * job.grid) work.old work.new result }
{
    let mut next = at;
    for gy in 0..list.job.grid {
        next = fill_row(list, gx, gy, slab, row, run, work, next);
    }
    next
}

// Puts in a slab, given all shots.
fn fill_slab(list: ValidJob, gx: u16, all: &[u32], work: &mut [u32], at: usize) -> usize
    requires gx_lt_grid { gx < list.job.grid }
    requires all_value { all.now ≡ up_to (shot_count list.job.coords.now) }
    requires ready { let job = seen list.job in
        Ready (run_of job) (grid_cells job) (gx * job.grid * job.grid) at work.old }
    ensures { let job = seen list.entry.job in
        Grew (run_of job) (grid_cells job)
        (gx * job.grid * job.grid) ((gx + 1) * job.grid * job.grid) work.old work.new result }
{
    let job = list.job;
    let width = job.field / job.grid;
    let mut slab = [0; 4096];
    let mut row = [0; 4096];
    let mut run = [0; 4096];
    let n = narrow(job.coords, job.edge, Axis::X, width, gx, all, &mut slab);
    fill_rows(list, gx, &slab[..n], &mut row, &mut run, work, at)
}

// Puts in all slabs.
fn fill_slabs(list: ValidJob, all: &[u32], work: &mut [u32], at: usize) -> usize
    requires all_value { all.now ≡ up_to (shot_count list.job.coords.now) }
    requires ready { let job = seen list.job in
        Ready (run_of job) (grid_cells job) 0 at work.old }
    ensures { let job = seen list.entry.job in
        Grew (run_of job) (grid_cells job)
        0 (grid_cells job) work.old work.new result }
{
    let mut next = at;
    for gx in 0..list.job.grid {
        next = fill_slab(list, gx, all, work, next);
    }
    next
}

// Numbers the places of a slice: 0, 1, 2, ..
fn number(places: &mut [u32])
    requires { length places.old ≤ 4096 }
    ensures { places.new ≡ up_to (length places.old) }
{
    for (number, place) in places.iter_mut().enumerate() {
        *place = number as u32;
    }
}

// Puts the index of a list into the work slice; the entries past the index keep their values.
pub fn build(list: ValidJob, work: &mut [u32])
    requires coords_in_bounds { need (seen list.job) ≤ length work.old }
    ensures { work.new ≡ in_front (index_of (seen list.entry.job)) work.old }
{
    let mut all = [0; 4096];
    number(&mut all);
    let shots = list.job.count();
    let cells = cells_of(list.job.grid);
    let end = fill_slabs(list, &all[..shots], work, cells + 1);
    work[cells] = (end - (cells + 1)) as u32;
}
