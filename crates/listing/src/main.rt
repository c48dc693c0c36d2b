// The listing program: reads a shot file from standard input and writes the corner listing of its list, 7 bytes a corner, to standard
// output. A refusal gives one line on standard error and no listing. docs/SCOPE.md, 'Corner points'. What it writes is
// `listing_file::list_file`; here are only the sizes.
#![tactic(auto)]

use output::Program;
use std::process::ExitCode;
use std::rt::Stdout;

// Writes the listing of a file, which is made in the buffer.
fn print_listing(stdout: Stdout, program: Program, bytes: &[u8], buffer: &mut [u8]) -> ExitCode {
    let mut coords = [0u16; 12288];
    let mut work = [0u32; 16384];
    match listing_file::list_file(bytes, &mut coords, &mut work, buffer) {
        Ok(totals) => {
            let n = 7 * totals.corners;
            program.write_text(stdout, &buffer[..n])
        }
        Err(refusal) => program.end_refused(refusal),
    }
}

// The same, with room for 131,072 corners.
fn print_with_room(stdout: Stdout, program: Program, bytes: &[u8]) -> ExitCode {
    let mut buffer = [0u8; 917504];
    print_listing(stdout, program, bytes, &mut buffer)
}

fn main(rt: HostRuntime) -> ExitCode {
    let program = Program::new(b"listing", rt.stderr());
    let mut bytes = [0u8; 28680];
    match input::take(&rt, rt.stdin(), program, &mut bytes) {
        Some(n) => print_with_room(rt.stdout(), program, &bytes[..n]),
        None => ExitCode::SUCCESS,
    }
}
