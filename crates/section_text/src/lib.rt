// The corners of one x of a listing as the text that the program `corners_at` prints: a line a corner, `x y z pattern`. A long text goes out in
// blocks of 2,048 lines, each put into a lent slice. specs/CornerLines.antt says what the text is and proofs/BlockLaws.antt that the blocks,
// one after another, are all of it. Stands on `section`, by whose reader it steps, and on `text_parts`.
#![tactic(auto)]

ghost use Rattle.std.specs.Prelude.{◌≡◌, ◌+◌, ◌*◌, ◌/◌, ◌≤◌, length, take, drop};
ghost use Rattle.buffer.specs.Wrote.{Wrote};
ghost use Rattle.lattice.specs.Listing.{read_back};
ghost use Rattle.section_text.specs.CornerLines.{digits_then, corner_line, corner_lines, block_count, block_lines};

use section::Corner;
use text_parts::{put_byte, put_digits};

// The bytes of a listing that make a block: 2,048 records.
const BLOCK: usize = 14336;

// Puts a number of at most n digits, and the byte after it.
fn put_number(out: &mut [u8], at: usize, n: usize, a: u64, end: u8) -> usize
    requires { at + n + 1 ≤ length out.old }
    ensures { Wrote out.old out.new at result (digits_then n a end) }
{
    let ended = put_digits(out, at, n, a);
    put_byte(out, ended, end)
}

// Puts the line of a corner.
fn put_corner(out: &mut [u8], at: usize, corner: Corner) -> usize
    requires { at + 22 ≤ length out.old }
    ensures { Wrote out.old out.new at result (corner_line corner.x corner.y corner.z corner.pattern) }
{
    let to_y = put_number(out, at, 5, u64::from(corner.x), b' ');
    let to_z = put_number(out, to_y, 5, u64::from(corner.y), b' ');
    let to_pattern = put_number(out, to_z, 5, u64::from(corner.z), b' ');
    put_number(out, to_pattern, 3, u64::from(corner.pattern), b'\n')
}

// Puts the lines of all records of a listing at the front.
fn put_corners(out: &mut [u8], listing: &[u8]) -> usize
    requires { 22 * (length listing.now / 7) ≤ length out.old }
    ensures { Wrote out.old out.new 0 result (corner_lines (read_back listing.now)) }
{
    let mut next = 0;
    for corner in section::open(listing, 0) {
        next = put_corner(out, next, corner);
    }
    next
}

// The bytes of a block; none where it begins past them.
fn block(listing: &[u8], number: usize) -> &[u8]
    ensures { result.now ≡ take 14336 (drop (14336 * number) listing.now) }
{
    let start = BLOCK.saturating_mul(number).min(listing.len());
    let end = start.saturating_add(BLOCK).min(listing.len());
    &listing[start..end]
}

// How many blocks there are of a listing, or of a part of one.
pub fn block_count(listing: &[u8]) -> usize
    ensures { result ≡ block_count listing.now }
{
    listing.len() / BLOCK + 1
}

// Puts the lines of a block, counted from 0, at the front of a slice of at least 22 bytes for each of its records, and gives their length.
pub fn put_block(out: &mut [u8], listing: &[u8], number: usize) -> usize
    requires { 45056 ≤ length out.old }
    ensures { Wrote out.old out.new 0 result (block_lines listing.now number) }
{
    let records = block(listing, number);
    put_corners(out, records)
}
