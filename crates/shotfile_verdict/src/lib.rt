// Why the list of a shot file that reads well is refused, as a line of the file's text. specs/Verdicts.antt. Stands on `shotfile_lines`,
// which has the line, on `shotfile_reader` and `job`, which read and check the list, on `refusals` and `buffer`.
#![tactic(auto)]

ghost use Rattle.std.specs.Prelude.{◌≡◌, ◌+◌, ◌≤◌, length};
ghost use Rattle.buffer.specs.Wrote.{Wrote};
ghost use Rattle.job.specs.Job.{seen};
ghost use Rattle.job.specs.Checking.{checked};
ghost use Rattle.shotfile_verdict.specs.Verdicts.{list_verdict, file_verdict, coords_after};

use job::Job;
use shotfile_lines::put_refused;

// Puts the line of the refusal that the checks of a list give, or nothing.
fn put_list_verdict(job: Job, out: &mut [u8], at: usize) -> usize
    requires { at + 128 ≤ length out.old }
    ensures { Wrote out.old out.new at result (list_verdict (checked (seen job.entry))) }
{
    match job.check() {
        Ok(()) => at,
        Err(refusal) => put_refused(out, at, refusal),
    }
}

// Reads the list of a whole file, and puts the line of the refusal that it gets, or nothing.
pub fn put_verdict(bytes: &[u8], coords: &mut [u16], out: &mut [u8], at: usize) -> usize
    requires { at + 128 ≤ length out.old }
    ensures wrote { Wrote out.old out.new at result (file_verdict bytes.now coords.old) }
    ensures coordinates { coords.new ≡ coords_after bytes.now coords.old }
{
    match shotfile_reader::read(bytes, coords) {
        Ok(stored) => put_list_verdict(stored.job(coords), out, at),
        Err(_) => at,
    }
}
