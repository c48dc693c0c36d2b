// Shot files read and written: the lent slice before the call, the answer, and the slice after it. Of a slice of more than twenty places
// the last seven are printed.
use crate::parts::front;
use check_print::{print_number, print_refusal, print_slice, print_words};
use job::{Job, Stored};
use refusals::Refusal;
use std::rt::Stdout;

fn print_read(stdout: Stdout, answer: Result<Stored, Refusal>) {
    match answer {
        Ok(list) => {
            print_words(stdout, b" read");
            print_number(stdout, u64::from(list.field));
            print_number(stdout, u64::from(list.edge));
            print_number(stdout, u64::from(list.grid));
            print_number(stdout, list.shots as u64);
        }
        Err(refusal) => print_refusal(stdout, refusal),
    }
}

fn print_written(stdout: Stdout, answer: Result<usize, Refusal>) {
    match answer {
        Ok(bytes) => {
            print_words(stdout, b" written");
            print_number(stdout, bytes as u64);
        }
        Err(refusal) => print_refusal(stdout, refusal),
    }
}

// The last places of a long slice, or a short slice whole.
fn print_places(stdout: Stdout, coords: &[u16]) {
    if coords.len() <= 20 {
        print_slice(stdout, coords);
        return;
    }
    let from = coords.len() - 7;
    print_slice(stdout, &coords[from..]);
}

// Puts the numbers of a file into bytes, as far as they go.
fn put_bytes(numbers: &[u16], file: &mut [u8]) {
    for (byte, number) in file.iter_mut().zip(numbers) {
        *byte = (number % 256) as u8;
    }
}

// Reads the file of these numbers, of so many bytes, with so many places lent, and prints these before, the answer, and these after.
pub(crate) fn show_read(stdout: Stdout, numbers: &[u16], length: u16, most: u16) {
    let mut lent = [9u16; 12291];
    let mut more = [0u8; 4098];
    let coords = front(&mut lent, most);
    let file = front(&mut more, length);
    put_bytes(numbers, file);
    print_places(stdout, coords);
    let answer = shotfile_reader::read(file, coords);
    print_read(stdout, answer);
    print_places(stdout, coords);
}

// Writes a list, with so many bytes lent, and prints these before, the answer, and these after.
pub(crate) fn show_write(stdout: Stdout, job: Job, most: u16) {
    let mut lent = [9u8; 16];
    let file = front(&mut lent, most);
    print_slice(stdout, file);
    let answer = shotfile_writer::write(job, file);
    print_written(stdout, answer);
    print_slice(stdout, file);
}
