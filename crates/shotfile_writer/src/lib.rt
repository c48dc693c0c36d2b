// Writing a shot file in its shortest form. docs/SCOPE.md, 'Shot file' and 'When a job is refused'. specs/Files.antt says what the file of
// a list is, specs/Calls.antt what `write` promises, specs/Conditions.antt when it refuses; proofs/Conditions.antt that each refusal is
// given exactly where it should be. Stands on `shotfile_records`, on `refusals` and `job`, whose refusals, checks and door to a shot it uses,
// on `lattice` and `buffer`.
#![tactic(auto)]

ghost use Rattle.std.specs.Prelude.{◌≡◌, ◌≤◌, ◌<◌, length};
ghost use Rattle.buffer.specs.Wrote.{in_front};
ghost use Rattle.job.specs.Job.{shot_count, seen};
ghost use Rattle.shotfile_records.specs.Numbers.{setting_fields};
ghost use Rattle.shotfile_writer.specs.Files.{coords_at, file_of};
ghost use Rattle.shotfile_writer.specs.Calls.{WriteCall};

use job::Job;
use refusals::Refusal;
use shotfile_records::{Fields, first_absent, header_absent, put_record, record_length};

// The settings of a list, as its header has them.
fn settings_of(job: Job) -> Fields
    ensures { result ≡ setting_fields (seen job.entry) }
{
    Fields {
        first: job.field,
        second: job.edge,
        third: job.grid,
    }
}

// The coordinates of a shot.
fn shot_at(job: Job, i: usize) -> Fields
    requires { i < shot_count job.coords.now }
    ensures { result ≡ coords_at job.entry.coords.now i }
{
    Fields {
        first: job.x_of(i),
        second: job.y_of(i),
        third: job.z_of(i),
    }
}

// How many bytes the file of a list takes.
fn file_length(job: Job) -> usize
    requires { shot_count job.coords.now ≤ 4096 }
    ensures { result ≡ length (file_of (seen job.entry)) }
{
    let absent = header_absent();
    let mut total = record_length(absent, settings_of(job));
    let mut last = first_absent();
    for i in 0..job.count() {
        let shot = shot_at(job, i);
        total += record_length(last, shot);
        last = shot;
    }
    total
}

// Writes the file of a list.
fn put_file(bytes: &mut [u8], job: Job)
    requires { length (file_of (seen job)) ≤ length bytes.old }
    ensures { bytes.new ≡ in_front (file_of (seen job.entry)) bytes.old }
{
    let absent = header_absent();
    let mut at = put_record(bytes, 0, absent, settings_of(job));
    let mut last = first_absent();
    for i in 0..job.count() {
        let shot = shot_at(job, i);
        at = put_record(bytes, at, last, shot);
        last = shot;
    }
}

// Writes a list as the shortest file that says it, and gives how many bytes that has, or says why not.
pub fn write(job: Job, bytes: &mut [u8]) -> Result<usize, Refusal>
    ensures { WriteCall (seen job.entry) bytes.old result bytes.new }
{
    job.check()?;
    let needed = file_length(job);
    if bytes.len() < needed {
        return Err(Refusal::ShortFile { bytes: needed });
    }
    put_file(bytes, job);
    Ok(needed)
}
