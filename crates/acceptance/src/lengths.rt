// Request (v): edge length counts the outer edges only, and inner length those with three covered cells; cell counts and corner sums agree on
// both.
ghost use Rattle.job.specs.Job.{seen};
ghost use Rattle.acceptance.specs.Lengths.{BothLengths};

use job::Job;
use lattice_sums::sums::Totals;
use refusals::Refusal;

// The lengths of a list.
pub fn measure(job: Job, work: &mut [u32]) -> Result<Totals, Refusal>
    ensures { BothLengths (seen job.entry) result }
{
    measure::measure(job, work)
}
