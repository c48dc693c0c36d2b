// Condition 2: the totals are the published cell counts; writing a valid list to a shot file and reading it gives that list with its
// settings; reading a valid list's shortest file and writing it gives its bytes: by request (vii) it is the only file that is read, and every
// file that is read is rewritten to its own bytes.
ghost use Rattle.job.specs.Job.{seen};
ghost use Rattle.acceptance.specs.Condition2.{TotalsCounted, WrittenAndRead, ReadAndWritten};

use crate::parts::front;
use job::{Job, Stored};
use lattice_sums::sums::Totals;
use refusals::Refusal;

// The totals of a list.
pub fn totals(job: Job, work: &mut [u32]) -> Result<Totals, Refusal>
    ensures { TotalsCounted (seen job.entry) result }
{
    measure::measure(job, work)
}

// Writes a list and reads what was written.
pub fn write_and_read(job: Job, bytes: &mut [u8], again: &mut [u16]) -> Result<Stored, Refusal>
    ensures { WrittenAndRead (seen job.entry) bytes.old again.old
        result again.new }
{
    let length = shotfile_writer::write(job, bytes)?;
    shotfile_reader::read(front(bytes, length), again)
}

// Reads a file and writes the list that was read.
pub fn read_and_write(bytes: &[u8], coords: &mut [u16], again: &mut [u8]) -> Result<usize, Refusal>
    ensures { ReadAndWritten bytes.now coords.old again.old result again.new }
{
    let stored = shotfile_reader::read(bytes, coords)?;
    shotfile_writer::write(stored.job(coords), again)
}
