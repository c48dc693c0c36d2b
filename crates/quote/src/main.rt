// The quoting program: reads a shot file from standard input and prints its quote, or its refusal. docs/SCOPE.md, the end of 'Jobs with
// known totals'. What it prints is `quoting::quote`; here are only the sizes.
#![tactic(auto)]

use output::Program;
use std::process::ExitCode;
use std::rt::Stdout;

// Prints what is to be printed for a file.
fn print_quote(stdout: Stdout, program: Program, bytes: &[u8]) -> ExitCode {
    let mut coords = [0u16; 12288];
    let mut work = [0u32; 16384];
    let mut out = [0u8; 256];
    let n = quoting::quote(bytes, &mut coords, &mut work, &mut out);
    program.write_text(stdout, &out[..n])
}

fn main(rt: HostRuntime) -> ExitCode {
    let program = Program::new(b"quote", rt.stderr());
    let mut bytes = [0u8; 28680];
    match input::take(&rt, rt.stdin(), program, &mut bytes) {
        Some(n) => print_quote(rt.stdout(), program, &bytes[..n]),
        None => ExitCode::SUCCESS,
    }
}
