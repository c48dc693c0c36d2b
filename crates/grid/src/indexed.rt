// A list with its index.
ghost use Rattle.job.specs.Job.{seen};
ghost use Rattle.grid.specs.Grid.{Holds};
ghost use Rattle.grid.specs.HoldsOnce.{Holds-prop};

use job::Job;

// A list that the checks accept, with the slice that holds its index, and after that anything.
#[derive(Clone, Copy)]
pub struct Indexed<'a> {
    pub job: Job<'a>,
    pub work: &'a [u32],
    pub ghost holds: { Holds (seen job) work.now } by { Holds-prop (seen job) work.now },
}
