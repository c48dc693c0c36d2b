// What a run counts, and what it prints of a list that disagrees.
use crate::lists::Settings;
use check_print::{print_number, print_slice, print_words};
use std::rt::Stdout;

#[derive(Clone, Copy, Default)]
pub(crate) struct Counts {
    pub(crate) lists: usize,
    pub(crate) shots: usize,
    pub(crate) points: usize,
    pub(crate) inners: usize,
    pub(crate) measured: usize,
    pub(crate) recounted: usize,
    pub(crate) regridded: usize,
    pub(crate) disagreements: usize,
}

// So many more of a count.
pub(crate) fn add(count: &mut usize, more: usize) {
    *count = count.saturating_add(more);
}

// Prints a list that disagrees.
fn print_list(stdout: Stdout, settings: Settings, coords: &[u16]) {
    print_words(stdout, b" disagrees, field");
    print_number(stdout, u64::from(settings.field));
    print_words(stdout, b" edge");
    print_number(stdout, u64::from(settings.edge));
    print_words(stdout, b" grid");
    print_number(stdout, u64::from(settings.grid));
    print_words(stdout, b" other grid");
    print_number(stdout, u64::from(settings.other));
    print_slice(stdout, coords);
    print_words(stdout, b"\n");
}

// Whether two ways agree; where they do not, what disagrees is printed, and its list.
pub(crate) fn judge(
    stdout: Stdout,
    agrees: bool,
    what: &[u8],
    settings: Settings,
    coords: &[u16],
) -> bool {
    if !agrees {
        print_words(stdout, what);
        print_list(stdout, settings, coords);
    }
    agrees
}

// Prints a count on a line of its own.
fn print_count(stdout: Stdout, name: &[u8], count: usize) {
    print_words(stdout, name);
    print_number(stdout, count as u64);
    print_words(stdout, b"\n");
}

// Prints all counts: what was tried, and how often the same was found.
pub(crate) fn print_all(stdout: Stdout, counts: Counts) {
    print_count(stdout, b"lists", counts.lists);
    print_count(stdout, b"shots", counts.shots);
    print_count(stdout, b"corner points", counts.points);
    print_count(stdout, b"lists with inner length", counts.inners);
    print_count(stdout, b"measured as listed", counts.measured);
    print_count(stdout, b"recounted as listed", counts.recounted);
    print_count(stdout, b"listed the same in another grid", counts.regridded);
    print_count(stdout, b"disagreements", counts.disagreements);
}
