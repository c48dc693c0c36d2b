// Random lists, measured by the measuring call, by the listing call and by the program that counts cells (docs/SCOPE.md, 'Jobs with known
// totals'). The same list in another grid has the same listing. A list that disagrees is printed at once; the counts at the end tell what
// was tried. What other lists have the same listing, what its bytes say by themselves, the index and the credits are held to a second
// implementation in tests/differential.
#![tactic(auto)]

mod counts;
mod lent;
mod listings;
mod lists;

use crate::counts::{Counts, add, judge};
use crate::lent::{bytes, entries, places};
use crate::lists::Settings;
use job::Job;
use job::shot::{count, first};
use lattice_sums::sums::Totals;
use refusals::Refusal;
use std::rt::Stdout;

// The list of these settings, in a grid.
fn job_in<'a>(settings: Settings, grid: u16, coords: &'a [u16]) -> Job<'a> {
    Job {
        field: settings.field,
        edge: settings.edge,
        grid,
        coords,
    }
}

// The figures by the measuring call.
fn measured(job: Job) -> Result<Totals, Refusal> {
    let mut work = entries();
    measure::measure(job, &mut work)
}

// The figures by counting cells.
fn recounted(job: Job) -> Result<Totals, Refusal> {
    let mut work = entries();
    measure_cells::recount(job, &mut work)
}

// The figures by the listing call.
fn listed(job: Job, listing: &mut [u8]) -> Result<Totals, Refusal> {
    let mut work = entries();
    measure::list(job, &mut work, listing)
}

// A list has this listing.
fn has_listing(job: Job, answer: Result<Totals, Refusal>, listing: &[u8]) -> bool {
    let mut second = bytes();
    let again = listed(job, &mut second);
    listings::same(answer, listing, again, &second)
}

// Counts whether two ways agree.
fn tally(agrees: bool, count: &mut usize, disagreements: &mut usize) {
    if agrees {
        add(count, 1);
    } else {
        add(disagreements, 1);
    }
}

// The figures of a list, by every other way.
fn compare_figures(
    stdout: Stdout,
    settings: Settings,
    job: Job,
    answer: Result<Totals, Refusal>,
    counts: &mut Counts,
) {
    let measured = listings::agree(answer, measured(job));
    let agrees = judge(stdout, measured, b"measure", settings, job.coords);
    tally(agrees, &mut counts.measured, &mut counts.disagreements);
    let recounted = listings::agree(answer, recounted(job));
    let agrees = judge(stdout, recounted, b"recount", settings, job.coords);
    tally(agrees, &mut counts.recounted, &mut counts.disagreements);
}

// The same list in another grid has the same listing.
fn compare_grids(
    stdout: Stdout,
    settings: Settings,
    coords: &[u16],
    answer: Result<Totals, Refusal>,
    listing: &[u8],
    counts: &mut Counts,
) {
    if settings.grid == settings.other {
        return;
    }
    let other = job_in(settings, settings.other, coords);
    let same = has_listing(other, answer, listing);
    let agrees = judge(stdout, same, b"grid", settings, coords);
    tally(agrees, &mut counts.regridded, &mut counts.disagreements);
}

// Lists a list, and measures it in every other way.
fn try_list(stdout: Stdout, settings: Settings, coords: &[u16], counts: &mut Counts) {
    let mut listing = bytes();
    let job = job_in(settings, settings.grid, coords);
    let answer = listed(job, &mut listing);
    let totals = answer.unwrap_or_default();
    add(&mut counts.lists, 1);
    add(&mut counts.shots, settings.shots);
    add(&mut counts.points, totals.corners);
    add(&mut counts.inners, usize::from(0 < totals.inner));
    compare_figures(stdout, settings, job, answer, counts);
    compare_grids(stdout, settings, coords, answer, &listing, counts);
}

// Tries a list whose shots are the first that are drawn.
fn try_drawn(stdout: Stdout, settings: Settings, shots: &[u16], counts: &mut Counts) {
    let n = settings.shots;
    if n <= count(shots) {
        try_list(stdout, settings, first(shots, n), counts);
    }
}

// Draws a list, and tries it.
fn try_number(stdout: Stdout, number: usize, counts: &mut Counts) {
    let settings = lists::draw_settings(number);
    let mut shots = places();
    lists::draw_shots(settings, &mut shots);
    try_drawn(stdout, settings, &shots, counts);
}

// Tries so many lists.
fn try_lists(stdout: Stdout, lists: usize) -> Counts {
    let mut counts = Counts::default();
    for number in 0..lists {
        try_number(stdout, number, &mut counts);
    }
    counts
}

fn main(rt: HostRuntime) {
    counts::print_all(rt.stdout(), try_lists(rt.stdout(), 12288));
}
