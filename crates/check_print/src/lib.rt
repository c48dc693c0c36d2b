// What the check programs print on standard output, in one form: a number after a space, the places of a slice after a semicolon, a
// refusal. Nothing comes back, nothing is lent that they fill, and no contract can say what a system call writes: the programs' stored output
// does.
// Stands on `refusals`.
#![tactic(auto)]

use refusals::Refusal;
use std::io::Print;
use std::rt::Stdout;

pub fn print_words(stdout: Stdout, words: &[u8]) {
    let _ = stdout.write_all(words);
}

pub fn print_number(stdout: Stdout, n: u64) {
    print_words(stdout, b" ");
    let _ = stdout.print(n);
}

pub fn print_slice<T: Copy + Into<u64>>(stdout: Stdout, places: &[T]) {
    print_words(stdout, b";");
    for &place in places {
        print_number(stdout, place.into());
    }
}

pub fn print_refusal(stdout: Stdout, refusal: Refusal) {
    print_words(stdout, b" refused");
    let told = refusals::notice_of(refusal);
    print_number(stdout, u64::from(told.number));
    print_number(stdout, told.detail as u64);
}
