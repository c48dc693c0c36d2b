// The second opinion for a disputed quote: the totals and the corner count of a list by counting, point by point, through the cover
// test. Every cell is asked, so it is slow in large fields. It shares with the sweep the intake, the runs of the index and the door
// to a shot, and nothing else. docs/SCOPE.md, 'Cells and totals'. Stands on
// `measure_tallies` for what a point counts, `measure_lines`, `measure_intake`, `grid_cover` and `grid_runs`.
#![tactic(auto)]

pub mod points;

ghost use Rattle.job.specs.Job.{seen};
ghost use Rattle.measure_intake.specs.Intake.{MeasureCall};

use crate::points::count_field;
use grid::indexed::Indexed;
use job::Job;
use lattice_sums::sums::Totals;
use measure_intake::indexed;
use refusals::Refusal;

// Counts a list: the answer and the index of the measuring call, by counting.
pub fn recount(job: Job, work: &mut [u32]) -> Result<Totals, Refusal>
    ensures { MeasureCall (seen job.entry) work.old result work.new }
{
    indexed(job, work)?;
    Ok(count_field(Indexed { job, work }))
}
