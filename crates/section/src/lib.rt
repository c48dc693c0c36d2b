// The part of a listing, whole or damaged, that holds the corners at one x, and a reader that steps through records. docs/SCOPE.md, 'Corners at
// one x'.
//
// First the core by offset, then the reader, a struct that keeps the lent listing and its place: an iterator over the records from there on,
// which calls the core. `step_from`, `next_from` and `step_after` step by it with plain parameters.
// specs/Section.antt says what is read and what the part is; proofs/ListedRuns.antt, what that means for a listing that the software made.
// Stands on `lattice`.
#![tactic(auto)]

ghost use Rattle.std.specs.Prelude.{Bool, ◌≡◌, ℕ, ◌+◌, ◌-◌, ◌*◌, ◌/◌, ◌<◌, ◌≤◌, length, get_or, drop};
ghost use Rattle.std.specs.Iterator.{at_most};
ghost use Rattle.lattice.specs.Listing.{read_back};
ghost use Rattle.section.specs.Section.{step_from, after_at, Steps, by_x, count_before, places_of, part_with};

// A record of a listing: a corner point and its pattern.
#[derive(Clone, Copy)]
pub struct Corner {
    pub x: u16,
    pub y: u16,
    pub z: u16,
    pub pattern: u8,
}

// The bytes from `first` up to `end`, `end` not among them.
#[derive(Clone, Copy)]
pub struct Places {
    pub first: usize,
    pub end: usize,
}

// The record at a place, or none where no whole one is left.
pub fn record_at(listing: &[u8], at: usize) -> Option<Corner>
    ensures { result ≡ step_from listing.now at }
{
    let [x0, x1, y0, y1, z0, z1, pattern, ..] = listing.get(at..)? else {
        return None;
    };
    Some(Corner {
        x: u16::from_le_bytes([*x0, *x1]),
        y: u16::from_le_bytes([*y0, *y1]),
        z: u16::from_le_bytes([*z0, *z1]),
        pattern: *pattern,
    })
}

// The place after the record at a place; the same place where no whole record is left.
pub fn after(listing: &[u8], at: usize) -> usize
    ensures { result ≡ after_at listing.now at }
{
    match record_at(listing, at) {
        Some(_) => at + 7,
        None => at,
    }
}

// The x of the record of a number.
fn x_at(listing: &[u8], number: usize) -> u16
    requires { number < length listing.now / 7 }
    ensures { result ≡ get_or listing.now (7 * number) 0 + get_or listing.now (7 * number + 1) 0 * 256 }
{
    let at = 7 * number;
    u16::from_le_bytes([listing[at], listing[at + 1]])
}

// The number of the first record from one on whose x passes a test, or the number of records. Of each record the x alone is read.
fn first_from<F: Fn(u16) -> bool>(listing: &[u8], from: usize, passes: F) -> usize
    requires callable { F.IsAlwaysCallable passes }
    requires inside { from ≤ length listing.now / 7 }
    ensures { (p : ℕ → Bool) → ((x : ℕ) (r : Bool) → F.post passes x r → r ≡ p x) → result ≡ from + count_before (by_x p) (drop from (read_back listing.now)) }
{
    let records = listing.len() / 7;
    for number in from..records {
        if passes(x_at(listing, number)) {
            return number;
        }
    }
    records
}

// Where the first unbroken run of records with that x lies; 0 to 0 where there is none. A damaged listing is searched like any other: the
// search neither bisects nor stops at a larger x.
pub fn places_of(listing: &[u8], x: u16) -> Places
    ensures { result ≡ places_of listing.now x }
{
    let first = first_from(listing, 0, |other| other == x);
    let end = first_from(listing, first, |other| other != x);
    if first == end {
        return Places { first: 0, end: 0 };
    }
    Places {
        first: 7 * first,
        end: 7 * end,
    }
}

// The bytes of that run, as a part of the lent ones.
pub fn part(listing: &[u8], x: u16) -> &[u8]
    ensures { result.now ≡ part_with listing.now x }
{
    let Places { first, end } = places_of(listing, x);
    &listing[first..end]
}

// A reader: the lent listing, or a part of one, and the place of the next record. It goes over the records from there on.
#[derive(Drop)]
pub struct Corners<'a> {
    pub listing: &'a [u8],
    pub at: usize,
}

// A reader of the lent bytes from a place on.
pub fn open<'a>(listing: &'a [u8], at: usize) -> Corners<'a>
    ensures { (result.listing ≡ listing.entry) × (result.at ≡ at) }
{
    Corners { listing, at }
}

impl<'a> Corners<'a> {
    // The record at its place, or none.
    pub fn corner(&self) -> Option<Corner>
        ensures { result ≡ step_from self.now.listing.now self.now.at }
    {
        record_at(self.listing, self.at)
    }
}

// A step gives the record at the reader's place and moves it one record on; a reader that is done stays.
impl<'a> Iterator for Corners<'a> {
    type Item = Corner;

    ghost next_gives = { Steps };

    ghost remaining = { λ reader. at_most ((length reader.listing.now - reader.at) / 7) };

    fn next(&mut self) -> Option<Corner> {
        let corner = record_at(self.listing, self.at)?;
        self.at = after(self.listing, self.at);
        Some(corner)
    }
}

// The record at a place, by the reader.
pub fn step_from(listing: &[u8], at: usize) -> Option<Corner>
    ensures { result ≡ step_from listing.now at }
{
    open(listing, at).next()
}

// The place after it, by the reader.
pub fn next_from(listing: &[u8], at: usize) -> usize
    ensures { result ≡ after_at listing.now at }
{
    let mut reader = open(listing, at);
    reader.next();
    reader.at
}

// What the reader meets one step on: it keeps the listing that it was opened on.
pub fn step_after(listing: &[u8], at: usize) -> Option<Corner>
    ensures { result ≡ step_from listing.now (after_at listing.now at) }
{
    let mut reader = open(listing, at);
    reader.next();
    reader.next()
}
