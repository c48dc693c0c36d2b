// Condition 1: handed any numbers, bytes and slices, a call accepts or names its refusal from the published list, exactly where that
// refusal's condition is the first to hold, and leaves each lent buffer in the stated state. That of pricing is `price` of prices.
ghost use Rattle.job.specs.Job.{seen};
ghost use Rattle.acceptance.specs.Condition1.{CheckAnswered, IndexAnswered, MeasureAnswered, ListAnswered, CreditAnswered, WriteAnswered, ReadAnswered, VoxAnswered};

use job::{Job, Stored};
use lattice_sums::sums::Totals;
use refusals::Refusal;

// Checking a list: refusals 1, 2 and 6 to 9.
pub fn check(job: Job) -> Result<(), Refusal>
    ensures { CheckAnswered (seen job.entry) result }
{
    job.check()
}

// Making the index: also 10.
pub fn index(job: Job, work: &mut [u32]) -> Result<(), Refusal>
    ensures { IndexAnswered (seen job.entry) work.old result work.new }
{
    measure_intake::indexed(job, work)
}

// Measuring: as making the index.
pub fn measure(job: Job, work: &mut [u32]) -> Result<Totals, Refusal>
    ensures { MeasureAnswered (seen job.entry) work.old result work.new }
{
    measure::measure(job, work)
}

// Counting again answers as measuring does.
pub fn recount(job: Job, work: &mut [u32]) -> Result<Totals, Refusal>
    ensures { MeasureAnswered (seen job.entry) work.old result work.new }
{
    measure_cells::recount(job, work)
}

// Listing: also 11.
pub fn list(job: Job, work: &mut [u32], buffer: &mut [u8]) -> Result<Totals, Refusal>
    ensures { ListAnswered (seen job.entry) work.old buffer.old
        result work.new buffer.new }
{
    measure::list(job, work, buffer)
}

// Crediting: also 16.
pub fn credit(job: Job, work: &mut [u32], credits: &mut [u32]) -> Result<(), Refusal>
    ensures { CreditAnswered (seen job.entry) work.old credits.old
        result work.new credits.new }
{
    crediting::credit(job, work, credits)
}

// Writing a shot file: refusals 1, 2, 6 to 9 and 12.
pub fn write(job: Job, bytes: &mut [u8]) -> Result<usize, Refusal>
    ensures { WriteAnswered (seen job.entry) bytes.old result bytes.new }
{
    shotfile_writer::write(job, bytes)
}

// Reading a shot file: refusals 2 to 5 and 17.
pub fn read(bytes: &[u8], coords: &mut [u16]) -> Result<Stored, Refusal>
    ensures { ReadAnswered bytes.now coords.old result coords.new }
{
    shotfile_reader::read(bytes, coords)
}

// Reading a VOX file: refusals 2, 3 and 13 to 15.
pub fn read_vox(bytes: &[u8], coords: &mut [u16]) -> Result<Stored, Refusal>
    ensures { VoxAnswered bytes.now coords.old result coords.new }
{
    vox::read_vox(bytes, coords)
}
