// Condition 3: for every accepted list, whatever its grid, order and overlaps, the totals are the cell counts and the corner sums, the corner
// count is the number of corner points, the listing has each corner once, with its pattern, rising, and nothing else, and the corner sums
// from its bytes alone are the same figures; two listings are the same bytes exactly when the two lists cure the same cells.
ghost use Rattle.std.specs.Prelude.{◌*◌, ◌≤◌, ◌≡◌, length, take};
ghost use Rattle.job.specs.Job.{seen};
ghost use Rattle.acceptance.specs.Condition3.{TotalsAgree, CornersListed, CellsCompared};
ghost use Rattle.text_same.specs.Same.{same};
ghost use Rattle.acceptance.specs.Comparing.{Fits, comparison};

use crate::parts::front;
use job::Job;
use lattice_sums::sums::Totals;
use refusals::Refusal;
use text_same::same_bytes;

// Of a measured list.
pub fn measure(job: Job, work: &mut [u32]) -> Result<Totals, Refusal>
    ensures { TotalsAgree (seen job.entry) result }
{
    measure::measure(job, work)
}

// Of a list counted again.
pub fn recount(job: Job, work: &mut [u32]) -> Result<Totals, Refusal>
    ensures { TotalsAgree (seen job.entry) result }
{
    measure_cells::recount(job, work)
}

// Of a listed one.
pub fn list(job: Job, work: &mut [u32], buffer: &mut [u8]) -> Result<Totals, Refusal>
    ensures { CornersListed (seen job.entry) result buffer.new }
{
    measure::list(job, work, buffer)
}

// The listing bytes of a buffer: 7 for each corner.
fn listed(buffer: &[u8], totals: Totals) -> &[u8]
    requires { 7 * totals.corners ≤ length buffer.now }
    ensures { result.now ≡ take (7 * totals.corners) buffer.now }
{
    front(buffer, 7 * totals.corners)
}

// Whether the listing bytes of two lists that are accepted are the same.
fn compare_bytes(totals: Totals, buffer: &[u8], others: Totals, other: &[u8]) -> bool
    requires listed { 7 * totals.corners ≤ length buffer.now }
    requires others_listed { 7 * others.corners ≤ length other.now }
    ensures { result ≡ same (take (7 * totals.corners) buffer.now) (take (7 * others.corners) other.now) }
{
    same_bytes(listed(buffer, totals), listed(other, others))
}

// Compares the listing bytes of two lists, by what listing them answered.
fn compare_listed(
    one: Result<Totals, Refusal>,
    buffer: &[u8],
    two: Result<Totals, Refusal>,
    other: &[u8],
) -> Result<bool, Refusal>
    requires fits { Fits one buffer.now }
    requires other_fits { Fits two other.now }
    ensures { result ≡ comparison one buffer.now two other.now }
{
    Ok(compare_bytes(one?, buffer, two?, other))
}

// Of two lists: both are listed, and their listing bytes compared; or one is refused.
pub fn compare(
    job: Job,
    work: &mut [u32],
    buffer: &mut [u8],
    other: Job,
    other_work: &mut [u32],
    other_buffer: &mut [u8],
) -> Result<bool, Refusal>
    ensures { CellsCompared
        (seen job.entry) (length work.old) (length buffer.old)
        (seen other.entry) (length other_work.old) (length other_buffer.old)
        result }
{
    let one = measure::list(job, work, buffer);
    let two = measure::list(other, other_work, other_buffer);
    compare_listed(one, buffer, two, other_buffer)
}
