// Request (ii): an absent grid field means 16, and the writer leaves out 16; the totals and the listing of a list are the same in another
// grid.
ghost use Rattle.job.specs.Job.{seen};
ghost use Rattle.acceptance.specs.Grids.{GridRead, GridWritten, ListedAlike};

use job::{Job, Stored};
use lattice_sums::sums::Totals;
use refusals::Refusal;

// Reads a shot file.
pub fn read(bytes: &[u8], coords: &mut [u16]) -> Result<Stored, Refusal>
    ensures { GridRead bytes.now result }
{
    shotfile_reader::read(bytes, coords)
}

// Writes a shot file.
pub fn write(job: Job, bytes: &mut [u8]) -> Result<usize, Refusal>
    ensures { GridWritten (seen job.entry) result bytes.new }
{
    shotfile_writer::write(job, bytes)
}

// What listing two lists answers.
#[derive(Clone, Copy)]
pub struct Both {
    pub one: Result<Totals, Refusal>,
    pub two: Result<Totals, Refusal>,
}

// Lists one list in two grids.
pub fn list_in_two_grids(
    job: Job,
    other_grid: u16,
    work: &mut [u32],
    buffer: &mut [u8],
    other_work: &mut [u32],
    other_buffer: &mut [u8],
) -> Both
    ensures { ListedAlike result buffer.new other_buffer.new }
{
    let one = measure::list(job, work, buffer);
    let other = Job {
        grid: other_grid,
        ..job
    };
    let two = measure::list(other, other_work, other_buffer);
    Both { one, two }
}
