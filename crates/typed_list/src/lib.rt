// A shot list as it is typed: plain text, a setting or a shot a line. `read_text` takes a text to a list with its settings, or to its
// first mistake. specs/Lists.antt says what a text says. Stands on `typed_line`, which reads a single line, on `typed_draft`, which has what
// the lines above say, on `job`, whose door stores a shot, and on `buffer`; its examples also on `text_parts` and `shotfile_records`.
#![tactic(auto)]

ghost use Rattle.std.specs.Prelude.{◌≡◌, ◌+◌, ◌≤◌, length, Some};
ghost use Rattle.buffer.specs.Wrote.{Wrote, in_front};
ghost use Rattle.job.specs.Job.{shot_count, place_of};
ghost use Rattle.typed_line.specs.Words.{lines_of};
ghost use Rattle.typed_list.specs.Lists.{mistake_text, stored, coords_of, shots_in, typed_list, typed_coords};

use job::Stored;
use std::fmt;
use typed_draft::{Draft, nothing_yet, then};
use typed_line::{Entry, Mistake, read_line};

// The first mistake of a text, with its line, from 1.
#[derive(Clone, Copy, PartialEq, Eq, Debug)]
pub struct MistakeAt {
    pub line: usize,
    pub mistake: Mistake,
}

impl fmt::Display for MistakeAt {
    ghost output = { λ at. Some (mistake_text at) };

    fn fmt<W: fmt::Write>(&self, f: &mut fmt::Formatter<W>) -> fmt::Result {
        write!(f, "line {}: {}", self.line, self.mistake)
    }
}

// The list that all lines say.
fn list_of(d: Draft) -> Stored
    ensures { result ≡ stored d }
{
    let settings = d.settings();
    Stored {
        field: settings.first,
        edge: settings.second,
        grid: settings.third,
        shots: d.shots,
    }
}

// What the whole text says, where so many shots have a place.
fn check_text(text: &[u8], places: usize) -> Result<Stored, MistakeAt>
    ensures { result ≡ typed_list places text.now }
{
    let mut d = nothing_yet();
    for (above, line) in text.split(|b| *b == b'\n').enumerate() {
        d = then(d, places, read_line(line)).map_err(|mistake| MistakeAt {
            line: above + 1,
            mistake,
        })?;
    }
    Ok(list_of(d))
}

// Stores what a line says after n shots, if it is a shot, and gives the number of shots after it.
fn store_entry(coords: &mut [u16], n: usize, entry: Result<Entry, Mistake>) -> usize
    requires { place_of n + length (coords_of entry) ≤ length coords.old }
    ensures { Wrote coords.old coords.new (place_of n) (place_of result) (coords_of entry) }
{
    match entry {
        Ok(Entry::Shot { x, y, z }) => {
            job::shot::put(coords, n, x, y, z);
            n + 1
        }
        _ => n,
    }
}

// Stores the coordinates of the shots of a text.
fn store_text(text: &[u8], coords: &mut [u16])
    requires { length (shots_in (lines_of text.now)) ≤ length coords.old }
    ensures { coords.new ≡ in_front (shots_in (lines_of text.now)) coords.old }
{
    let mut n = 0;
    for line in text.split(|b| *b == b'\n') {
        n = store_entry(coords, n, read_line(line));
    }
}

// Reads a text, and stores the coordinates of its shots unless it has a mistake.
pub fn read_text(text: &[u8], coords: &mut [u16]) -> Result<Stored, MistakeAt>
    ensures answer { result ≡ typed_list (shot_count coords.old) text.now }
    ensures coordinates { coords.new ≡ typed_coords text.now coords.old }
{
    let list = check_text(text, job::shot::count(coords))?;
    store_text(text, coords);
    Ok(list)
}
