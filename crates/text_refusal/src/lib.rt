// The line of a refusal, its number and its detail, put into a lent slice. specs/RefusalLine.antt says what the line is. Stands on `refusals`,
// whose refusals they are, and on `text_parts` and `buffer`.
#![tactic(auto)]

ghost use Rattle.std.specs.Prelude.{◌≤◌, length};
ghost use Rattle.buffer.specs.Wrote.{Wrote};
ghost use Rattle.text_refusal.specs.RefusalLine.{refusal_line, refusal_text};

use refusals::Refusal;
use text_parts::{put_byte, put_digits, put_word};

// Puts the line of a refusal with this number and detail at the front, and gives its length.
fn refusal_line(out: &mut [u8], number: u8, detail: usize) -> usize
    requires { 128 ≤ length out.old }
    ensures { Wrote out.old out.new 0 result (refusal_line number detail) }
{
    let refused = put_word(out, 0, b"refused");
    let first = put_byte(out, refused, b' ');
    let numbered = put_digits(out, first, 20, u64::from(number));
    let second = put_byte(out, numbered, b' ');
    // Kept so: a `usize` has no `From` into `u64`, and `try_from` with a proof that it never fails is no plainer.
    let detailed = put_digits(out, second, 20, detail as u64);
    put_byte(out, detailed, b'\n')
}

// Puts the line of a refusal to the front.
pub fn refuse(out: &mut [u8], refusal: Refusal) -> usize
    requires { 128 ≤ length out.old }
    ensures { Wrote out.old out.new 0 result (refusal_text refusal) }
{
    let told = refusals::notice_of(refusal);
    refusal_line(out, told.number, told.detail)
}
