// The quoting program for designers: reads a VOX file from standard input and prints its quote, or its refusal. docs/SCOPE.md, 'VOX
// file'. What it prints is `quoting::quote_vox`; here are only the sizes.
#![tactic(auto)]

use output::Program;
use std::process::ExitCode;
use std::rt::{Env, Stdin, Stdout};

// Prints what is to be printed for a file; the coordinates have places for 4,096 shots. Of an accepted file that is its quote, which begins
// with the volume, and a note where it has further models; a refused one has no note.
fn print_quote(stdout: Stdout, program: Program, bytes: &[u8]) -> ExitCode {
    let mut coords = [0u16; 12288];
    let mut work = [0u32; 16384];
    let mut out = [0u8; 256];
    let n = quoting::quote_vox(bytes, &mut coords, &mut work, &mut out);
    let status = program.write_text(stdout, &out[..n]);
    if out[0] == b'v' && status == ExitCode::SUCCESS && vox_models::has_further(bytes) {
        program.note_first_model();
    }
    status
}

// Fills the buffer from standard input. A full one may lack bytes of the file, so it is not quoted.
fn quote_input(
    env: &impl Env,
    stdin: Stdin,
    stdout: Stdout,
    program: Program,
    buffer: &mut [u8],
) -> ExitCode {
    let too_long = b": the input has more than 1,048,575 bytes\n";
    match input::take_whole(env, stdin, program, buffer, too_long) {
        Some(n) => print_quote(stdout, program, &buffer[..n]),
        None => ExitCode::SUCCESS,
    }
}

fn main(rt: HostRuntime) -> ExitCode {
    let program = Program::new(b"quote_vox", rt.stderr());
    let mut buffer = [0u8; 1048576];
    quote_input(&rt, rt.stdin(), rt.stdout(), program, &mut buffer)
}
