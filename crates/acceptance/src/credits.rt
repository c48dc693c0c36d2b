// Request (iv), of the crediting call: each shot has the cells of which it is the lowest covering shot; the credits sum to the volume; a
// repeat of an earlier shot has none; another order never moves the sum; shots without credit can be left out.
ghost use Rattle.job.specs.Job.{job_of, seen};
ghost use Rattle.acceptance.specs.Credits.{Credited, SumsAlike, LeftOut};

use job::Job;
use lattice_sums::sums::Totals;
use refusals::Refusal;

// Credits a list.
pub fn credit(job: Job, work: &mut [u32], credits: &mut [u32]) -> Result<(), Refusal>
    ensures { Credited (seen job.entry) credits.old result credits.new }
{
    crediting::credit(job, work, credits)
}

// What crediting two lists answers.
#[derive(Clone, Copy)]
pub struct TwoChecked {
    pub one: Result<(), Refusal>,
    pub two: Result<(), Refusal>,
}

// Credits two lists in one field, of any orders, edges and grids.
pub fn credit_in_two_orders(
    job: Job,
    work: &mut [u32],
    credits: &mut [u32],
    other_edge: u16,
    other_grid: u16,
    other_coords: &[u16],
    other_work: &mut [u32],
    other_credits: &mut [u32],
) -> TwoChecked
    ensures { SumsAlike (seen job.entry) (job_of job.entry.field other_edge other_grid other_coords.now)
        result credits.new other_credits.new }
{
    let one = crediting::credit(job, work, credits);
    let other = Job {
        field: job.field,
        edge: other_edge,
        grid: other_grid,
        coords: other_coords,
    };
    let two = crediting::credit(other, other_work, other_credits);
    TwoChecked { one, two }
}

// What crediting a list, and listing it and another, answers.
#[derive(Clone, Copy)]
pub struct CreditedLists {
    pub credited: Result<(), Refusal>,
    pub one: Result<Totals, Refusal>,
    pub two: Result<Totals, Refusal>,
}

// Credits a list, and lists it and another of its shots.
pub fn leave_out(
    job: Job,
    others: &[u16],
    work: &mut [u32],
    credits: &mut [u32],
    buffer: &mut [u8],
    other_buffer: &mut [u8],
) -> CreditedLists
    ensures { LeftOut (seen job.entry) (job_of job.entry.field job.entry.edge job.entry.grid others.now)
        result credits.new buffer.new other_buffer.new }
{
    let credited = crediting::credit(job, work, credits);
    let one = measure::list(job, work, buffer);
    let two = measure::list(
        Job {
            coords: others,
            ..job
        },
        work,
        other_buffer,
    );
    CreditedLists { credited, one, two }
}
