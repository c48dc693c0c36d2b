// A shot file as plain text, one record a line, put into a lent slice: what the program `shots` prints. The settings, the shots with their
// numbers and places, and, at the end, why the file or its list is refused, if it is. specs/Text.antt says what the text is.
// Stands on `shotfile_lines`, `shotfile_shots` and `shotfile_verdict`, which have the lines, on `shotfile_reader` and `shotfile_records`, on
// `job`, `refusals` and `buffer`.
#![tactic(auto)]

ghost use Rattle.std.specs.Prelude.{◌≤◌, length};
ghost use Rattle.shotfile_text.specs.Text.{TextCall};

use shotfile_lines::{put_refused, put_settings};
use shotfile_reader::Cursor;
use shotfile_records::{first_absent, header_absent, take_record};
use shotfile_shots::put_shots;
use shotfile_verdict::put_verdict;

// Puts the text of a file at the front, and gives its length: its settings, its shots and the verdict on its list, or the refusal of its
// header. The list of a file that reads well is in the coordinate slice then.
pub fn put_text(bytes: &[u8], coords: &mut [u16], out: &mut [u8]) -> usize
    requires { 524288 ≤ length out.old }
    ensures { TextCall bytes.now coords.old out.old result coords.new out.new }
{
    match take_record(bytes, 0, header_absent()) {
        Ok(header) => {
            let set = put_settings(out, 0, bytes[0], header.fields);
            let start = Cursor {
                at: header.end,
                last: first_absent(),
            };
            let listed = put_shots(bytes, out, set, start);
            put_verdict(bytes, coords, out, listed)
        }
        Err(refusal) => put_refused(out, 0, refusal),
    }
}
