// From the bytes of a shot file to the bytes that the program `credits` prints: a line for each shot, its number and its credit, or the line
// of a refusal. specs/Credited.antt says what the text is. Stands on `crediting`, on `shotfile_reader`, on
// `quoting_text` and `text_refusal`, and on `text_parts`.
#![tactic(auto)]

ghost use Rattle.std.specs.Prelude.{◌+◌, ◌*◌, ◌≤◌, length};
ghost use Rattle.job.specs.Job.{seen};
ghost use Rattle.buffer.specs.Wrote.{Wrote};
ghost use Rattle.crediting_text.specs.Credited.{credit_line, credit_lines, ListCredited, FileCredited};

use job::Job;
use text_parts::{put_byte, put_digits};

// Puts the line of a shot.
fn put_credit(out: &mut [u8], at: usize, shot: usize, credit: u32) -> usize
    requires { at + 42 ≤ length out.old }
    ensures { Wrote out.old out.new at result (credit_line shot credit) }
{
    // Kept so: a `usize` has no `From` into `u64`, and `try_from` with a proof that it never fails is no plainer.
    let numbered = put_digits(out, at, 20, shot as u64);
    let split = put_byte(out, numbered, b' ');
    let credited = put_digits(out, split, 20, u64::from(credit));
    put_byte(out, credited, b'\n')
}

// Puts the lines of all shots at the front.
fn put_credits(out: &mut [u8], credits: &[u32]) -> usize
    requires { 42 * length credits.now ≤ length out.old }
    ensures { Wrote out.old out.new 0 result (credit_lines credits.now) }
{
    let mut next = 0;
    for (shot, &credit) in credits.iter().enumerate() {
        next = put_credit(out, next, shot, credit);
    }
    next
}

// Credits the cells of a list, and puts what is printed for it to the front.
fn credit_list(job: Job, work: &mut [u32], credits: &mut [u32], out: &mut [u8]) -> usize
    requires { 172032 ≤ length out.old }
    ensures { ListCredited (seen job.entry) work.old credits.old
        out.old result work.new credits.new out.new }
{
    let checked = crediting::credit(job, work, credits);
    match checked {
        Ok(()) => {
            let shots = job.count();
            put_credits(out, &credits[..shots])
        }
        Err(refusal) => text_refusal::refuse(out, refusal),
    }
}

// Reads a shot file, credits the cells of the list that it holds, and puts what is printed to the front of a slice of at least 172,032
// bytes. The coordinates, the index and the credits of the list stay in the other slices.
pub fn credit_file(
    bytes: &[u8],
    coords: &mut [u16],
    work: &mut [u32],
    credits: &mut [u32],
    out: &mut [u8],
) -> usize
    requires { 172032 ≤ length out.old }
    ensures { FileCredited bytes.now coords.old work.old credits.old out.old
        result coords.new work.new credits.new out.new }
{
    let read = shotfile_reader::read(bytes, coords);
    match read {
        Ok(stored) => credit_list(stored.job(coords), work, credits, out),
        Err(refusal) => text_refusal::refuse(out, refusal),
    }
}
