// What is printed for an answer of measuring: the lines of its quote, or the line of its refusal. specs/Quoting.antt has the text of a file's
// list, and proofs/TextLaws.antt what a call leaves that reads a file, measures its list and puts the text. Stands on `text_report`
// and `text_refusal`, and on the answers of `shotfile_reader` and `measure_intake`.
#![tactic(auto)]

ghost use Rattle.std.specs.Prelude.{◌≤◌, length};
ghost use Rattle.buffer.specs.Wrote.{Wrote};
ghost use Rattle.quoting_text.specs.Quoting.{answer_text};

use lattice_sums::sums::Totals;
use refusals::Refusal;

// Puts what is printed for an answer to the front.
pub fn put_answer(out: &mut [u8], measured: Result<Totals, Refusal>) -> usize
    requires { 256 ≤ length out.old }
    ensures { Wrote out.old out.new 0 result (answer_text measured) }
{
    match measured {
        Ok(totals) => text_report::quote_lines(out, totals),
        Err(refusal) => text_refusal::refuse(out, refusal),
    }
}
