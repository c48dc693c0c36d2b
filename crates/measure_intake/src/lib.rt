// The intake of a list, which every call that measures it begins with: its checks, the length of the work slice, and its index.
//
// specs/Intake.antt says what a list's intake answers and leaves, and what measuring answers then: the totals of the cells that the
// list covers, or the first refusal of 1, 2, 6, 7, 8, 9, 10. Stands on `job`, `grid` and `grid_filling`.
#![tactic(auto)]

ghost use Rattle.job.specs.Job.{seen};
ghost use Rattle.measure_intake.specs.Intake.{IndexCall};

use job::Job;
use refusals::Refusal;

// Checks a list and puts its index into the work slice. A refusal changes nothing.
pub fn indexed(job: Job, work: &mut [u32]) -> Result<(), Refusal>
    ensures { IndexCall (seen job.entry) work.old result work.new }
{
    let list = job.valid()?;
    let need = grid::need::need(list);
    if work.len() < need {
        return Err(Refusal::ShortWork { entries: need });
    }
    grid_filling::build(list, work);
    Ok(())
}
