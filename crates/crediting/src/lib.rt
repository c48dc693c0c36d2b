// The crediting call: each cell of the field that a list covers is credited to its lowest covering shot. docs/SCOPE.md, 'Credits'.
//
// specs/Credits.antt says what it answers and leaves; proofs/CreditTheorems.antt, the file to read first, what the credits are good for. A
// grid cell's block of unit cells is carved by the run of that grid cell, which names the lowest covering shots of its cells. Stands on
// `measure_intake`, `crediting_carving` and `grid_runs`.
#![tactic(auto)]

ghost use Rattle.std.specs.Prelude.{◌≡◌, ◌+◌, ◌*◌, ◌/◌, ◌≤◌, ◌<◌, length};
ghost use Rattle.job.specs.Job.{shot_count, seen};
ghost use Rattle.crediting_carving.specs.Blocks.{added, size_of, RoomFor};
ghost use Rattle.crediting.specs.Credits.{credits_of, CreditCall};
ghost use Rattle.crediting.specs.GridBlocks.{interval_of, block_of, cell_credits};
ghost use Rattle.buffer.specs.Wrote.{in_front};

use crediting_carving::blocks::{Block, Span};
use crediting_carving::carve;
use grid::indexed::Indexed;
use grid::intervals::cells_of;
use grid_runs::run_of;
use job::Job;
use measure_intake::indexed;
use refusals::Refusal;

// The unit cells of an interval of an axis.
fn interval(width: u16, number: usize) -> Span
    requires width_bound { (number + 1) * width ≤ 1024 }
    requires number_bound { number < 64 }
    ensures { result ≡ interval_of width number }
{
    let place = number as u16;
    Span {
        from: place * width,
        to: (place + 1) * width,
    }
}

// The unit cells of a grid cell.
fn block_of(field: u16, grid: u16, cell: usize) -> Block
    requires le_grid { 1 ≤ grid }
    requires grid_bound { grid ≤ 64 }
    requires field_bound { grid * (field / grid) ≤ 1024 }
    requires cell_bound { cell < grid * grid * grid }
    ensures { result ≡ block_of field grid cell }
{
    let width = field / grid;
    let n = usize::from(grid);
    Block {
        x: interval(width, cell / n / n),
        y: interval(width, cell / n % n),
        z: interval(width, cell % n),
    }
}

// Credits the unit cells of a grid cell.
fn credit_cell(list: Indexed, cell: usize, credits: &mut [u32])
    requires cell_bound { cell < list.job.grid * list.job.grid * list.job.grid }
    requires shots_placed { shot_count list.job.coords.now ≤ length credits.old }
    requires room_for { RoomFor (size_of (block_of list.job.field list.job.grid cell)) credits.old }
    ensures { credits.new ≡ added credits.old (cell_credits (seen list.entry.job) cell) }
{
    let job = list.job;
    let run = run_of(list.work, cells_of(job.grid), cell);
    let block = block_of(job.field, job.grid, cell);
    carve(job.coords, job.edge, run, block, credits);
}

// Puts in the credits of a list with its index: a place a shot.
fn credit_shots(list: Indexed, credits: &mut [u32])
    requires shots_placed { shot_count list.job.coords.now ≡ length credits.old }
    ensures { let job = list.entry.job in credits.new ≡ credits_of job.field job.edge job.coords.now }
{
    credits.fill(0);
    for cell in 0..cells_of(list.job.grid) {
        credit_cell(list, cell, credits);
    }
}

// Puts them into the first places of a slice that has a place for each shot; later places keep their values.
fn store(list: Indexed, credits: &mut [u32])
    requires shots_placed { shot_count list.job.coords.now ≤ length credits.old }
    ensures { let job = list.entry.job in credits.new ≡ in_front (credits_of job.field job.edge job.coords.now) credits.old }
{
    let shots = list.job.count();
    credit_shots(list, &mut credits[..shots]);
}

// Credits the cells that a list covers, each to its lowest covering shot, and leaves the list's index in the work slice. Refusals as in
// measuring, and then 16, which leaves the finished index in the work slice and the credits as lent.
pub fn credit(job: Job, work: &mut [u32], credits: &mut [u32]) -> Result<(), Refusal>
    ensures { CreditCall (seen job.entry) work.old credits.old
        result work.new credits.new }
{
    indexed(job, work)?;
    let shots = job.count();
    if credits.len() < shots {
        return Err(Refusal::ShortCredits { shots });
    }
    store(Indexed { job, work }, credits);
    Ok(())
}
