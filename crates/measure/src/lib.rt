// The measuring and the listing call: the totals of a list, its corner count and its corner listing, with the grid index in the lent
// work slice.
//
// specs/Answers.antt says what listing answers and leaves, and specs/Intake.antt of `measure_intake` what measuring does;
// proofs/Condition3.antt, the file to read first, what that means for every accepted list. Both calls count by the corner sums over the
// corner points that `sweep` finds. Stands on `measure_intake` and `sweep`.
#![tactic(auto)]

ghost use Rattle.std.specs.Prelude.{◌≡◌, ◌*◌, ◌≤◌, length};
ghost use Rattle.lattice.specs.Listing.{listing, corner_count};
ghost use Rattle.lattice_sums.specs.CornerSums.{totals_of};
ghost use Rattle.job.specs.Job.{seen};
ghost use Rattle.measure_intake.specs.Intake.{solid, MeasureCall};
ghost use Rattle.measure.specs.Answers.{CornersListed, ListCall};
ghost use Rattle.buffer.specs.Wrote.{in_front};

use grid::indexed::Indexed;
use job::Job;
use lattice_sums::sums::Totals;
use measure_intake::indexed;
use refusals::Refusal;

// The totals of a list with its index.
fn count(list: Indexed) -> Totals
    ensures { let job = seen list.entry.job in result ≡ totals_of job.field (solid job) }
{
    let mut no_room = [0u8; 1];
    sweep::sweep(list, &mut no_room).totals()
}

// Puts the listing of a list with its index into a buffer that has room for it.
fn store(list: Indexed, buffer: &mut [u8])
    requires coords_in_bounds { let job = seen list.job in 7 * corner_count job.field (solid job) ≤ length buffer.old }
    ensures { let job = seen list.entry.job in buffer.new ≡ in_front (listing job.field (solid job)) buffer.old }
{
    sweep::sweep(list, buffer);
}

// Counts the corners of a list with its index, and lists them where the buffer has room.
fn list_corners(list: Indexed, buffer: &mut [u8]) -> Result<Totals, Refusal>
    ensures { let job = seen list.entry.job in CornersListed job.field (solid job) buffer.old result buffer.new }
{
    let totals = count(list);
    let corners = totals.corners;
    if buffer.len() / 7 < corners {
        return Err(Refusal::ShortListing { corners });
    }
    store(list, buffer);
    Ok(totals)
}

// Measures a list: gives its four totals and its corner count, and leaves its index in the work slice. Refusals 1, 2, 6, 7, 8, 9, 10,
// in this order, change nothing.
pub fn measure(job: Job, work: &mut [u32]) -> Result<Totals, Refusal>
    ensures { MeasureCall (seen job.entry) work.old result work.new }
{
    indexed(job, work)?;
    Ok(count(Indexed { job, work }))
}

// Measures a list and fills the front of the buffer with its corner listing. Refusals as in measuring, and then 11, which leaves the
// finished index in the work slice and the buffer as lent.
pub fn list(job: Job, work: &mut [u32], buffer: &mut [u8]) -> Result<Totals, Refusal>
    ensures { ListCall (seen job.entry) work.old buffer.old
        result work.new buffer.new }
{
    indexed(job, work)?;
    list_corners(Indexed { job, work }, buffer)
}
