// The program for inspectors: reads a listing from standard input, whole or damaged, and prints a line `x y z pattern` for each corner at the x
// that it is started with. docs/SCOPE.md, 'Corners at one x'. What it prints are the blocks of `section_text`, of the part that `section`
// hands back; here are the word, the sizes and the sentences.
#![tactic(auto)]

ghost use Rattle.std.specs.Prelude.{◌≤◌, length};

use output::Program;
use std::io;
use std::io::Print;
use std::process::ExitCode;
use std::rt::{Env, Stdin, Stdout};

// Prints the lines of a block of a part, by way of a buffer, where standard output takes them.
fn print_block(stdout: Stdout, part: &[u8], number: usize, out: &mut [u8]) -> io::Result<()>
    requires { 45056 ≤ length out.old }
{
    let n = section_text::put_block(out, part, number);
    stdout.write_all(&out[..n])
}

// Prints the lines of a part, block by block; once standard output takes no more, that is said and no other block is tried.
fn print_part(stdout: Stdout, program: Program, part: &[u8], out: &mut [u8]) -> ExitCode
    requires { 45056 ≤ length out.old }
{
    for number in 0..section_text::block_count(part) {
        if let Err(error) = print_block(stdout, part, number, out) {
            return program.end_unwritten(error);
        }
    }
    ExitCode::SUCCESS
}

// Prints the corners of a listing at an x. Bytes behind its last whole record are noted, in one piece, so that no words of another program come
// in between.
fn print_corners(stdout: Stdout, program: Program, listing: &[u8], x: u16) -> ExitCode {
    let mut out = [0u8; 45056];
    let status = print_part(stdout, program, section::part(listing, x), &mut out);
    if listing.len() % 7 != 0 && status == ExitCode::SUCCESS {
        program.say(b"corners_at: note: the listing ends within a record, which is passed over\n");
    }
    status
}

// The same of standard input. What fills the buffer is a record more than is taken.
fn print_input(
    stdin: Stdin,
    stdout: Stdout,
    program: Program,
    buffer: &mut [u8],
    x: u16,
) -> ExitCode {
    let too_long = b": the listing has more than 131,072 records\n";
    match input::read_whole(stdin, program, buffer, too_long) {
        Some(n) => print_corners(stdout, program, &buffer[..n], x),
        None => ExitCode::SUCCESS,
    }
}

// The same, by a buffer of 131,073 records, which 131,072 and up to six bytes more do not fill.
fn print_at(stdin: Stdin, stdout: Stdout, program: Program, x: u16) -> ExitCode {
    let mut buffer = [0u8; 917511];
    print_input(stdin, stdout, program, &mut buffer, x)
}

// The x that the program is started with, which is its only word; a word that is missing, empty or longer than 64 bytes is none.
fn x_given(env: &impl Env) -> Option<u16> {
    let mut word = [0u8; 64];
    if input::has_word(env, 2) {
        return None;
    }
    let n = env.arg(1, &mut word).ok()?;
    if n == 0 {
        return None;
    }
    typed_line::number_of(&word[..n]).ok()
}

// Says how the program is used, in one piece too, and ends with 0.
fn end_misused(program: Program) -> ExitCode {
    program.say(
        b"corners_at: takes one word, the x, a number up to 65,535, and reads a listing from standard input\n",
    );
    ExitCode::SUCCESS
}

fn main(rt: HostRuntime) -> ExitCode {
    let program = Program::new(b"corners_at", rt.stderr());
    match x_given(&rt) {
        Some(x) => print_at(rt.stdin(), rt.stdout(), program, x),
        None => end_misused(program),
    }
}
