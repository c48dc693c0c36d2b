// Request (vi): from a listing and an x, the part of the lent bytes that holds all records with that x, and nothing else, empty if none; a
// reader steps through its records, each once in order, and says done where no whole record is left. Where x values fall somewhere, the part
// is the first unbroken run; for a listing that the software made, that run is all such corners.
ghost use Rattle.std.specs.Prelude.{◌≤◌, length};
ghost use Rattle.job.specs.Job.{seen};
ghost use Rattle.acceptance.specs.Sections.{PartAt, PlacesAt, MetAfter, MetNext, MetAt, MetListed, PutPart, PartsPut};

use job::Job;
use section::{Corner, Places};

// The part of any bytes at an x.
pub fn part_at(listing: &[u8], x: u16) -> &[u8]
    ensures { PartAt listing.now x result.now }
{
    section::part(listing, x)
}

// Where the part lies.
pub fn places_at(listing: &[u8], x: u16) -> Places
    ensures { PlacesAt listing.now x result }
{
    section::places_of(listing, x)
}

// What a reader that is opened on any bytes meets after so many steps.
pub fn meet(listing: &[u8], steps: usize) -> Option<Corner>
    ensures { MetAfter listing.now steps result }
{
    section::open(listing, 0).nth(steps)
}

// The same by the calls that go from place to place: the place after so many records, and the record there.
pub fn meet_by_places(listing: &[u8], steps: usize) -> Option<Corner>
    ensures { MetAfter listing.now steps result }
{
    let mut at = 0;
    for _ in 0..steps {
        at = section::next_from(listing, at);
    }
    section::step_from(listing, at)
}

// What a reader that is opened at any place meets one step on.
pub fn meet_next(listing: &[u8], at: usize) -> Option<Corner>
    ensures { MetNext listing.now at result }
{
    section::step_after(listing, at)
}

// What a reader that is opened on the part at an x meets after so many steps.
pub fn meet_at(listing: &[u8], x: u16, steps: usize) -> Option<Corner>
    ensures { MetAt listing.now x steps result }
{
    let part = section::part(listing, x);
    meet(part, steps)
}

// The same of a listing that the software made.
pub fn meet_listed(
    job: Job,
    work: &mut [u32],
    buffer: &mut [u8],
    x: u16,
    steps: usize,
) -> Option<Corner>
    ensures { MetListed (seen job.entry) (length work.old) (length buffer.old) x steps result }
{
    let totals = measure::list(job, work, buffer).ok()?;
    let end = 7 * totals.corners;
    meet_at(&buffer[..end], x, steps)
}

// Puts a part at a place if there is room for it.
fn put_part(out: &mut [u8], at: usize, part: &[u8]) -> usize
    requires { at ≤ length out.old }
    ensures { PutPart out.old out.new at result part.now }
{
    if out.len() - at < part.len() {
        return at;
    }
    text_parts::put_word(out, at, part)
}

// Puts the parts at x = 0 .. side of a listing one after another.
pub fn put_parts(out: &mut [u8], listing: &[u8], side: u16) -> usize
    ensures { PartsPut listing.now side out.old out.new result }
{
    let mut next = 0;
    for x in 0..side {
        let part = section::part(listing, x);
        next = put_part(out, next, part);
    }
    let last = section::part(listing, side);
    put_part(out, next, last)
}
