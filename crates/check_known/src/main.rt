// Runs the calls on the jobs of its standard input, a line each: the jobs with known totals of docs/SCOPE.md, the limits named under its
// table, each refusal of the measuring, the listing and the crediting call, files that leave out the grid size, and shot files at the edges
// of the format and of each refusal of the reader and the writer. Every place that is lent is junk before the call. A line of output names
// the job and the call, gives the answer, and then, of each lent slice, how many places in front changed and how many in all kept their junk:
// together they are all places where only the front was written. The index in front is printed too, where it is short, and so are the
// credits; the listing always. Of a file it has the lent slice before and after (files.rt).
//
// A line of the data is a name, a colon, and numbers with a blank before each: which calls (1 credit, 3 measure, list and credit, 4 read,
// 5 write), field, edge, grid, the lengths of the slices that are lent (work entries, bytes, credit or coordinate places), how many numbers
// the list or file has, and these. Where fewer are given, the first of them is repeated. A line without a colon is a comment.
#![tactic(auto)]

mod files;
mod junk;
mod lines;
mod parts;

ghost use Rattle.std.specs.Prelude.{◌≤◌, length};

use crate::lines::{read_numbers, until};
use crate::parts::front;
use check_print::{print_number, print_refusal, print_words};
use job::Job;
use lattice_sums::sums::Totals;
use refusals::Refusal;
use std::rt::Stdout;

// How long the lent slices are, and how many numbers the list or file has.
#[derive(Clone, Copy)]
struct Sizes {
    entries: u16,
    bytes: u16,
    places: u16,
    numbers: u16,
}

fn print_answer(stdout: Stdout, answer: Result<Totals, Refusal>) {
    match answer {
        Ok(totals) => {
            print_number(stdout, totals.volume);
            print_number(stdout, totals.area);
            print_number(stdout, totals.edge);
            print_number(stdout, totals.inner);
            print_number(stdout, totals.corners as u64);
        }
        Err(refusal) => print_refusal(stdout, refusal),
    }
}

fn print_checked(stdout: Stdout, answer: Result<(), Refusal>) {
    match answer {
        Ok(()) => print_words(stdout, b" accepted"),
        Err(refusal) => print_refusal(stdout, refusal),
    }
}

// Prints what measuring answered, and what became of the work slice.
fn print_measured(stdout: Stdout, call: &[u8], answer: Result<Totals, Refusal>, work: &[u32]) {
    print_words(stdout, call);
    print_answer(stdout, answer);
    junk::print_front(stdout, b"; index", work, 40);
}

// The same of listing, and of the listing buffer.
fn print_listed(stdout: Stdout, answer: Result<Totals, Refusal>, work: &[u32], listing: &[u8]) {
    print_measured(stdout, b": list", answer, work);
    junk::print_listing(stdout, listing);
}

// Prints what crediting answered, and what became of both slices.
fn print_credited(stdout: Stdout, answer: Result<(), Refusal>, work: &[u32], credits: &[u32]) {
    print_words(stdout, b": credit");
    print_checked(stdout, answer);
    junk::print_front(stdout, b"; index", work, 40);
    junk::print_front(stdout, b"; credits", credits, 40);
}

// Measures, with the entries lent.
fn show_measure(stdout: Stdout, job: Job, sizes: Sizes) {
    let mut lent = [junk::ENTRY; 4100];
    let work = front(&mut lent, sizes.entries);
    let answer = measure::measure(job, work);
    print_measured(stdout, b": measure", answer, work);
}

// Lists, with the entries and the bytes lent.
fn show_list(stdout: Stdout, job: Job, sizes: Sizes) {
    let mut lent = [junk::ENTRY; 4100];
    let mut more = [junk::BYTE; 150];
    let work = front(&mut lent, sizes.entries);
    let listing = front(&mut more, sizes.bytes);
    let answer = measure::list(job, work, listing);
    print_listed(stdout, answer, work, listing);
}

// Credits, with the entries and the credit places lent.
fn show_credit(stdout: Stdout, job: Job, sizes: Sizes) {
    let mut lent = [junk::ENTRY; 4100];
    let mut more = [junk::ENTRY; 4100];
    let work = front(&mut lent, sizes.entries);
    let credits = front(&mut more, sizes.places);
    let answer = crediting::credit(job, work, credits);
    print_credited(stdout, answer, work, credits);
}

// Ends a line of output, and begins the next of the same job.
fn next_call(stdout: Stdout, name: &[u8]) {
    print_words(stdout, b"\n");
    print_words(stdout, name);
}

// A job by the calls that its line names.
fn show_calls(stdout: Stdout, name: &[u8], calls: u16, job: Job, sizes: Sizes) {
    print_words(stdout, name);
    // Kept so: the test data says calls by a number, and an enum would take a second match to make it.
    match calls {
        1 => show_credit(stdout, job, sizes),
        3 => {
            show_measure(stdout, job, sizes);
            next_call(stdout, name);
            show_list(stdout, job, sizes);
            next_call(stdout, name);
            show_credit(stdout, job, sizes);
        }
        4 => files::show_read(stdout, job.coords, sizes.numbers, sizes.places),
        _ => files::show_write(stdout, job, sizes.bytes),
    }
    print_words(stdout, b"\n");
}

// The number that has so many behind it: those given stand last, and the first of them at every place before.
fn number_before(given: &[u16], behind: usize) -> u16 {
    match given.iter().nth_back(behind) {
        Some(&number) => number,
        None => given.first().copied().unwrap_or(0),
    }
}

// Fills a list from the numbers given, the last place first.
fn spread(given: &[u16], list: &mut [u16]) {
    for (behind, place) in list.iter_mut().rev().enumerate() {
        *place = number_before(given, behind);
    }
}

// The list that its line's numbers set, with these coordinates.
fn job_of<'a>(numbers: &[u16], coords: &'a [u16]) -> Job<'a>
    requires { 8 ≤ length numbers.now }
{
    Job {
        field: numbers[1],
        edge: numbers[2],
        grid: numbers[3],
        coords,
    }
}

fn sizes_of(numbers: &[u16]) -> Sizes
    requires { 8 ≤ length numbers.now }
{
    Sizes {
        entries: numbers[4],
        bytes: numbers[5],
        places: numbers[6],
        numbers: numbers[7],
    }
}

// A job by its numbers, whose list or file is made of the last of them.
fn show_spread(stdout: Stdout, name: &[u8], numbers: &[u16], list: &mut [u16])
    requires { 8 ≤ length numbers.now }
{
    spread(&numbers[8..], list);
    let job = job_of(numbers, list);
    show_calls(stdout, name, numbers[0], job, sizes_of(numbers));
}

// A job by its numbers.
fn show_job(stdout: Stdout, name: &[u8], numbers: &[u16]) {
    if numbers.len() < 8 {
        return;
    }
    let mut list = [0u16; 12291];
    show_spread(stdout, name, numbers, front(&mut list, numbers[7]));
}

// A job by its line.
fn show_line(stdout: Stdout, line: &[u8]) {
    let end = until(line, 0, b':');
    let mut numbers = [0u16; 100];
    let n = read_numbers(&line[end..], &mut numbers);
    show_job(stdout, &line[..end], &numbers[..n]);
}

// The jobs of all lines.
fn show_lines(stdout: Stdout, text: &[u8]) {
    for line in text.split(|&byte| byte == b'\n') {
        show_line(stdout, line);
    }
}

fn main(rt: HostRuntime) {
    let mut text = [0u8; 32768];
    if let Some(n) = input::fill(rt.stdin(), &mut text) {
        show_lines(rt.stdout(), &text[..n]);
    }
}
