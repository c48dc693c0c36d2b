// The five lines of a quote, put into a lent slice. specs/Lines.antt says what the lines are. Stands on `text_parts` and on the totals of
// `lattice_sums`.
#![tactic(auto)]

ghost use Rattle.std.specs.Prelude.{◌≤◌, length};
ghost use Rattle.buffer.specs.Wrote.{Wrote};
ghost use Rattle.text_report.specs.Lines.{quote_lines};

use lattice_sums::sums::Totals;
use text_parts::put_line;

// Puts the five lines of a quote at the front, and gives their length.
pub fn quote_lines(out: &mut [u8], t: Totals) -> usize
    requires { 256 ≤ length out.old }
    ensures { Wrote out.old out.new 0 result (quote_lines t) }
{
    let volume = put_line(out, 0, b"volume", t.volume);
    let area = put_line(out, volume, b"area", t.area);
    let edge = put_line(out, area, b"edge", t.edge);
    let inner = put_line(out, edge, b"inner", t.inner);
    // Kept so: a `usize` has no `From` into `u64`, and `try_from` with a proof that it never fails is no plainer.
    put_line(out, inner, b"corners", t.corners as u64)
}
