// The program that shows a shot file: reads a shot file from standard input and prints it as text, one record a line, with the refusal
// at the end where there is one. What it prints is `shotfile_text::put_text`; here are only the sizes.
#![tactic(auto)]

ghost use Rattle.std.specs.Prelude.{◌≤◌, length};

use output::Program;
use std::process::ExitCode;
use std::rt::Stdout;

// Prints the text of a file, by way of two buffers.
fn print_by(
    stdout: Stdout,
    program: Program,
    bytes: &[u8],
    coords: &mut [u16],
    out: &mut [u8],
) -> ExitCode
    requires { 524288 ≤ length out.old }
{
    let n = shotfile_text::put_text(bytes, coords, out);
    program.write_text(stdout, &out[..n])
}

// Prints the text of a file.
fn print_text(stdout: Stdout, program: Program, bytes: &[u8]) -> ExitCode {
    let mut coords = [0u16; 12288];
    let mut out = [0u8; 524288];
    print_by(stdout, program, bytes, &mut coords, &mut out)
}

fn main(rt: HostRuntime) -> ExitCode {
    let program = Program::new(b"shots", rt.stderr());
    let mut bytes = [0u8; 28680];
    match input::take(&rt, rt.stdin(), program, &mut bytes) {
        Some(n) => print_text(rt.stdout(), program, &bytes[..n]),
        None => ExitCode::SUCCESS,
    }
}
