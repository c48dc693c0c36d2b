// Lent slices that are full of junk before a call, and what became of them: how many places in front changed, how many kept their junk, and
// what stands in front.
use crate::parts::front;
use check_print::{print_number, print_words};
use std::rt::Stdout;

// No index and no credit is this number, and no listing of these jobs holds this byte.
pub(crate) const ENTRY: u32 = 4294967295;

pub(crate) const BYTE: u8 = 255;

// Prints the entries before the first junk.
fn print_entries(stdout: Stdout, slice: &[u32]) {
    for &entry in slice {
        if entry == ENTRY {
            return;
        }
        print_number(stdout, u64::from(entry));
    }
}

// How many entries stand before the first junk.
fn changed(slice: &[u32]) -> usize {
    let junk = slice.iter().position(|&entry| entry == ENTRY);
    junk.unwrap_or(slice.len())
}

// How many entries are junk.
fn kept(slice: &[u32]) -> usize {
    slice.iter().filter(|&&entry| entry == ENTRY).count()
}

// Prints what became of a slice, and what stands in front where that is at most so much.
pub(crate) fn print_front(stdout: Stdout, name: &[u8], slice: &[u32], most: usize) {
    print_words(stdout, name);
    let front = changed(slice);
    print_number(stdout, front as u64);
    print_words(stdout, b" kept");
    print_number(stdout, kept(slice) as u64);
    if front == 0 {
        return;
    }
    if front <= most {
        print_words(stdout, b":");
        print_entries(stdout, slice);
    }
}

fn entry_of(byte: u8) -> u32 {
    if byte == BYTE {
        return ENTRY;
    }
    u32::from(byte)
}

// Puts the bytes of a listing into entries, as far as they go.
fn widen(listing: &[u8], wide: &mut [u32]) {
    for (entry, &byte) in wide.iter_mut().zip(listing) {
        *entry = entry_of(byte);
    }
}

// Prints what became of a listing buffer of at most 150 bytes, and the listing in it, by way of as many entries.
pub(crate) fn print_listing(stdout: Stdout, listing: &[u8]) {
    let mut more = [ENTRY; 150];
    let wide = front(&mut more, (listing.len() % 65536) as u16);
    widen(listing, wide);
    print_front(stdout, b"; listing", wide, 150);
}
