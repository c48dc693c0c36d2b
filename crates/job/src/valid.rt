// A job that the checks accept.
ghost use Rattle.job.specs.Job.{Valid, seen};
ghost use Rattle.job.specs.ValidOnce.{Valid-prop};

use crate::Job;

// A list that the checks accept, lent with its settings: what takes one need not ask that it is valid.
#[derive(Clone, Copy)]
pub struct ValidJob<'a> {
    pub job: Job<'a>,
    pub ghost valid: { Valid (seen job) } by { Valid-prop (seen job) },
}
