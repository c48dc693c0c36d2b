// The lines of a shot file's text: a setting, a shot with its number and place, a refusal with its sentence. Each is put at a place of a
// lent slice, and the answer is the place after the line; every other place keeps its value. specs/Lines.antt says what the lines are.
// Stands on `shotfile_records` and `refusals`, whose fields and refusals it puts, and on `text_parts`, `text_wording` and `buffer` for the
// bytes of a text.
#![tactic(auto)]

ghost use Rattle.std.specs.Prelude.{◌+◌, ◌≤◌, length};
ghost use Rattle.std.specs.Int.{from_bool};
ghost use Rattle.buffer.specs.Wrote.{Wrote};
ghost use Rattle.shotfile_lines.specs.Lines.{labelled, note, setting_line, settings, shot_line, place_text, refused_line};

use refusals::{Place, Refusal, notice_of};
use shotfile_records::Fields;
use text_parts::{put_byte, put_digits, put_word};
use text_wording::put_sentence;

// Puts a label and a decimal value.
fn put_labelled(out: &mut [u8], at: usize, label: &[u8], a: u64) -> usize
    requires { at + length label.now + 20 ≤ length out.old }
    ensures wrote { Wrote out.old out.new at result (labelled label.now a) }
    ensures few { result ≤ at + length label.now + 20 }
{
    let named = put_word(out, at, label);
    put_digits(out, named, 20, a)
}

// Puts the note that a setting is not in the file, unless it stands there.
fn put_note(out: &mut [u8], at: usize, stands: bool) -> usize
    requires { at + 10 ≤ length out.old }
    ensures wrote { Wrote out.old out.new at result (note (from_bool stands)) }
    ensures few { result ≤ at + 10 }
{
    if stands {
        return at;
    }
    put_word(out, at, b" # default")
}

// Puts the line of a setting, whose name ends with a space.
// Kept so: a bool for the bit would ask more of callers than a byte, whose other values mean that the setting stands.
pub fn put_setting(out: &mut [u8], at: usize, name: &[u8], value: u16, bit: u8) -> usize
    requires { at + length name.now + 31 ≤ length out.old }
    ensures wrote { Wrote out.old out.new at result (setting_line name.now value bit) }
    ensures few { result ≤ at + length name.now + 31 }
{
    let valued = put_labelled(out, at, name, u64::from(value));
    let noted = put_note(out, valued, bit != 0);
    put_byte(out, noted, b'\n')
}

// Puts the three lines of a header with this map.
pub fn put_settings(out: &mut [u8], at: usize, map: u8, header: Fields) -> usize
    requires { at + 128 ≤ length out.old }
    ensures wrote { Wrote out.old out.new at result (settings map header) }
    ensures few { result ≤ at + 128 }
{
    let field = put_setting(out, at, b"field ", header.first, map % 2);
    let edge = put_setting(out, field, b"edge ", header.second, map / 2 % 2);
    put_setting(out, edge, b"grid ", header.third, map / 4)
}

// Puts the line of shot n, whose map is at a place of the file.
pub fn put_shot(out: &mut [u8], at: usize, shot: Fields, n: usize, byte: usize) -> usize
    requires { at + 125 ≤ length out.old }
    ensures { Wrote out.old out.new at result (shot_line shot n byte) }
{
    let x = put_labelled(out, at, b"shot ", u64::from(shot.first));
    let y = put_labelled(out, x, b" ", u64::from(shot.second));
    let z = put_labelled(out, y, b" ", u64::from(shot.third));
    let numbered = put_labelled(out, z, b" # number ", n as u64);
    let placed = put_labelled(out, numbered, b", byte ", byte as u64);
    put_byte(out, placed, b'\n')
}

// Puts where a refusal with this detail is met: the byte of a map, a shot, or nothing.
fn put_place(out: &mut [u8], at: usize, place: Place, detail: usize) -> usize
    requires { at + 29 ≤ length out.old }
    ensures wrote { Wrote out.old out.new at result (place_text place detail) }
    ensures few { result ≤ at + 29 }
{
    match place {
        Place::Byte => put_labelled(out, at, b" at byte ", detail as u64),
        Place::Shot => put_labelled(out, at, b" at shot ", detail as u64),
        Place::Nowhere => at,
    }
}

// Puts the line of a refusal, with its sentence.
pub fn put_refused(out: &mut [u8], at: usize, refusal: Refusal) -> usize
    requires { at + 128 ≤ length out.old }
    ensures { Wrote out.old out.new at result (refused_line refusal) }
{
    let told = notice_of(refusal);
    let numbered = put_labelled(out, at, b"refused ", u64::from(told.number));
    let met = told.met;
    let placed = put_place(out, numbered, met, told.detail);
    let split = put_word(out, placed, b": ");
    let said = put_sentence(out, split, refusal);
    put_byte(out, said, b'\n')
}
