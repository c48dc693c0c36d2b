// Requests (iii) and (iv), of the cover test: it names the first covering shot of the run that it is given, in that of an index the lowest of
// the list, or says none.
ghost use Rattle.std.specs.Prelude.{◌||◌, ◌+◌, ◌*◌, ◌/◌, ◌≤◌, leb, ◌≡◌, length};
ghost use Rattle.job.specs.Job.{seen};
ghost use Rattle.grid.specs.Grid.{holding};
ghost use Rattle.grid_cover.specs.Cover.{lowest_covering};
ghost use Rattle.acceptance.specs.CoverTest.{FirstNamed, InField, Covered};

use grid::indexed::Indexed;
use grid::intervals::cells_of;
use job::Job;

// Asks about the cell (i, j, k) with any run.
pub fn first_covering(coords: &[u16], edge: u16, run: &[u32], i: u16, j: u16, k: u16) -> Option<u32>
    ensures { FirstNamed edge coords.now run.now i j k result }
{
    grid_cover::first_covering(coords, edge, run, i, j, k)
}

// The number of a grid cell, from that of its row or slab and the interval of width `width` that holds a cell of the next axis.
fn numbered(high: usize, grid: u16, cell: u16, width: u16) -> usize
    requires high_bound { high ≤ 4294901760 }
    requires le_width { 1 ≤ width }
    ensures { result ≡ high * grid + cell / width }
{
    high * usize::from(grid) + usize::from(cell / width)
}

// The number of the grid cell that holds the unit cell (i, j, k).
fn holding_cell(field: u16, grid: u16, i: u16, j: u16, k: u16) -> usize
    requires le_grid { 1 ≤ grid }
    requires bound { 1 ≤ field / grid }
    ensures { result ≡ holding field grid i j k }
{
    let width = field / grid;
    let slab = numbered(0, grid, i, width);
    let row = numbered(slab, grid, j, width);
    numbered(row, grid, k, width)
}

// Whether the cell (i, j, k) lies outside the field.
fn outside(field: u16, i: u16, j: u16, k: u16) -> bool
    ensures { result ≡ (leb field i || (leb field j || leb field k)) }
{
    field <= i || field <= j || field <= k
}

// Asks the cover test about the cell (i, j, k) of the field of a list with its index.
fn covering(list: Indexed, i: u16, j: u16, k: u16) -> Option<u32>
    requires { InField list.job.field i j k }
    ensures { result ≡ lowest_covering list.entry.job.edge list.entry.job.coords.now i j k }
{
    let job = list.job;
    let cell = holding_cell(job.field, job.grid, i, j, k);
    let run = grid_runs::run_of(list.work, cells_of(job.grid), cell);
    grid_cover::first_covering(job.coords, job.edge, run, i, j, k)
}

// Makes the index of a list and asks the cover test about the cell (i, j, k).
pub fn lowest_covering(job: Job, work: &mut [u32], i: u16, j: u16, k: u16) -> Option<u32>
    ensures { Covered (seen job.entry) (length work.old) i j k result }
{
    measure_intake::indexed(job, work).ok()?;
    if outside(job.field, i, j, k) {
        return None;
    }
    covering(Indexed { job, work }, i, j, k)
}
