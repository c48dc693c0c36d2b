// The second opinion for a disputed quote: reads a shot file from standard input, as the quoting program does, and prints the same lines
// from totals that are counted again, cell by cell. That takes some seconds in a large field, so it says on standard error which plane
// it is at. What it prints is `recounting::recount`; here are only the sizes.
#![tactic(auto)]

use output::Program;
use std::process::ExitCode;
use std::rt::Stdout;

// Prints what is to be printed for a file.
fn print_recount(stdout: Stdout, program: Program, bytes: &[u8]) -> ExitCode {
    let mut coords = [0u16; 12288];
    let mut work = [0u32; 16384];
    let mut out = [0u8; 256];
    let n = recounting::recount(program.stderr, bytes, &mut coords, &mut work, &mut out);
    program.write_text(stdout, &out[..n])
}

fn main(rt: HostRuntime) -> ExitCode {
    let program = Program::new(b"recount", rt.stderr());
    let mut bytes = [0u8; 28680];
    match input::take(&rt, rt.stdin(), program, &mut bytes) {
        Some(n) => print_recount(rt.stdout(), program, &bytes[..n]),
        None => ExitCode::SUCCESS,
    }
}
