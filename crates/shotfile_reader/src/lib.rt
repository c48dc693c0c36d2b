// Reading a shot file: a cursor takes one record and goes on to the next from there; the file is checked whole before anything is stored.
// docs/SCOPE.md, 'Shot file' and 'When a job is refused'. specs/Files.antt says what a file says, specs/Calls.antt what `read` promises,
// specs/Conditions.antt when it refuses; proofs/Conditions.antt that each refusal is given exactly where it should be. Stands on
// `shotfile_records`, on `refusals` and `job`, whose refusals and door to a shot it uses, on `lattice`, `buffer` and `ground`.
#![tactic(auto)]

ghost use Rattle.std.specs.Prelude.{◌≡◌, ◌≤◌};
ghost use Rattle.buffer.specs.Wrote.{in_front};
ghost use Rattle.job.specs.Job.{shot_count};
ghost use Rattle.shotfile_reader.specs.Files.{step_at, shots_from, next_shots};
ghost use Rattle.shotfile_reader.specs.Calls.{count_of, ReadCall};

use job::Stored;
use refusals::Refusal;
use shotfile_records::{Fields, first_absent, header_absent, take_record};

// The most shots that a file may have.
const MOST: usize = 4096;

// A place of a shot file, and the coordinates of the last shot taken: zeros before the first.
#[derive(Clone, Copy)]
pub struct Cursor {
    pub at: usize,
    pub last: Fields,
}

impl Cursor {
    // Takes one record, and gives the cursor after it, which holds the shot's coordinates; nothing where no record is left.
    pub fn step(self, bytes: &[u8]) -> Result<Option<Cursor>, Refusal>
        ensures { result ≡ step_at bytes.now self }
    {
        if bytes.len() <= self.at {
            return Ok(None);
        }
        let record = take_record(bytes, self.at, self.last)?;
        Ok(Some(Cursor {
            at: record.end,
            last: record.fields,
        }))
    }
}

// Checks the records from a cursor on, where so many shots have a place, and counts them.
fn count_shots(bytes: &[u8], places: usize, start: Cursor) -> Result<usize, Refusal>
    ensures { result ≡ count_of (shots_from 4096 places bytes.now start) }
{
    let mut c = start;
    for n in 0..MOST {
        if bytes.len() <= c.at {
            return Ok(n);
        }
        if places <= n {
            return Err(Refusal::NoPlace { at: c.at });
        }
        match c.step(bytes)? {
            Some(next) => c = next,
            None => return Ok(n),
        }
    }
    if bytes.len() <= c.at {
        return Ok(MOST);
    }
    Err(Refusal::TooManyShots { at: c.at })
}

// Stores the coordinates of the next n shots from a cursor on.
fn store_shots(bytes: &[u8], coords: &mut [u16], start: Cursor, n: usize)
    requires { n ≤ shot_count coords.old }
    ensures { coords.new ≡ in_front (next_shots n bytes.now start) coords.old }
{
    let mut c = start;
    for i in 0..n {
        match c.step(bytes) {
            Ok(Some(next)) => {
                let shot = next.last;
                job::shot::put(coords, i, shot.first, shot.second, shot.third);
                c = next;
            }
            Ok(None) => return,
            Err(_) => return,
        }
    }
}

// Reads a file into the coordinate slice, or says why not.
pub fn read(bytes: &[u8], coords: &mut [u16]) -> Result<Stored, Refusal>
    ensures { ReadCall bytes.now coords.old result coords.new }
{
    let header = take_record(bytes, 0, header_absent())?;
    let start = Cursor {
        at: header.end,
        last: first_absent(),
    };
    let shots = count_shots(bytes, job::shot::count(coords), start)?;
    store_shots(bytes, coords, start, shots);
    Ok(Stored {
        field: header.fields.first,
        edge: header.fields.second,
        grid: header.fields.third,
        shots,
    })
}
