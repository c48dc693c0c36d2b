// The second opinion, with a word on standard error about how far it is: the answer of `measure_cells::recount`, its planes counted in
// pieces. On a terminal one line moves with each plane; elsewhere there is a line for each 256 planes that are followed by more, so that a
// small field says nothing. Stands on `measure_cells`, `measure_intake` and `text_parts`.
#![tactic(auto)]

ghost use Rattle.std.specs.Prelude.{◌≡◌, ◌+◌, ◌≤◌, ◌<◌};
ghost use Rattle.lattice_sums.specs.CornerSums.{totals_of};
ghost use Rattle.job.specs.Job.{seen};
ghost use Rattle.measure_intake.specs.Intake.{solid, MeasureCall};

use grid::indexed::Indexed;
use job::Job;
use lattice_sums::sums::Totals;
use measure_cells::points::count_planes;
use measure_intake::indexed;
use refusals::Refusal;
use std::io::{IsTerminal, Print};
use std::rt::Stderr;
use text_parts::put_digits;

// Writes words to standard error.
fn show_words(stderr: Stderr, words: &[u8]) {
    let _ = stderr.write_all(words);
}

// Writes a number to standard error.
fn show_number(stderr: Stderr, a: u64) {
    let mut digits = [0u8; 20];
    let n = put_digits(&mut digits, 0, 20, a);
    show_words(stderr, &digits[..n]);
}

// Says on standard error how many of the planes are counted: on a terminal the line stays, to be overwritten. Of none it says nothing.
fn show(stderr: Stderr, terminal: bool, plane: u16, planes: u16) {
    if plane == 0 {
        return;
    }
    show_words(stderr, b"recount: plane ");
    show_number(stderr, u64::from(plane));
    show_words(stderr, b" of ");
    show_number(stderr, u64::from(planes));
    show_words(stderr, if terminal { b"\r" } else { b"\n" });
}

// Takes the line of a terminal away.
fn clear(stderr: Stderr, terminal: bool) {
    if terminal {
        show_words(stderr, b"                            \r");
    }
}

// How many planes are a piece.
fn piece(terminal: bool) -> u16
    ensures { (1 ≤ result) × (result ≤ 256) }
{
    if terminal { 1 } else { 256 }
}

// The totals and the corner count of a list with its index, piece by piece.
fn count_shown(stderr: Stderr, terminal: bool, list: Indexed) -> Totals
    ensures { let job = list.entry.job in result ≡ totals_of job.field (solid (seen job)) }
{
    let field = list.job.field;
    let planes = piece(terminal);
    let mut sums = Totals {
        volume: 0,
        area: 0,
        edge: 0,
        inner: 0,
        corners: 0,
    };
    for x in (0..field + 1).step_by(usize::from(planes)) {
        show(stderr, terminal, x, field + 1);
        sums = count_planes(list, x, (x + planes).min(field + 1), sums);
    }
    clear(stderr, terminal);
    sums
}

// Counts a list: the answer and the index of the measuring call, by counting, shown on standard error.
pub fn recount(stderr: Stderr, job: Job, work: &mut [u32]) -> Result<Totals, Refusal>
    ensures { MeasureCall (seen job.entry) work.old result work.new }
{
    indexed(job, work)?;
    let terminal = stderr.is_terminal();
    Ok(count_shown(stderr, terminal, Indexed { job, work }))
}
