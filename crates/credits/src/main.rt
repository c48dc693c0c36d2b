// The crediting program: reads a shot file from standard input and prints, a line for each shot, its number and of how many cells it is the
// lowest covering shot; or the line of a refusal, as the quoting program does. What it prints is `crediting_text::credit_file`; here are only
// the sizes.
#![tactic(auto)]

ghost use Rattle.std.specs.Prelude.{◌≤◌, length};

use output::Program;
use std::process::ExitCode;
use std::rt::Stdout;

// Prints the credits of a file, by way of a buffer.
fn print_by(stdout: Stdout, program: Program, bytes: &[u8], out: &mut [u8]) -> ExitCode
    requires { 172032 ≤ length out.old }
{
    let mut coords = [0u16; 12288];
    let mut work = [0u32; 16384];
    let mut credits = [0u32; 4096];
    let n = crediting_text::credit_file(bytes, &mut coords, &mut work, &mut credits, out);
    program.write_text(stdout, &out[..n])
}

// Prints the credits of a file.
fn print_credits(stdout: Stdout, program: Program, bytes: &[u8]) -> ExitCode {
    let mut out = [0u8; 172032];
    print_by(stdout, program, bytes, &mut out)
}

fn main(rt: HostRuntime) -> ExitCode {
    let program = Program::new(b"credits", rt.stderr());
    let mut bytes = [0u8; 28680];
    match input::take(&rt, rt.stdin(), program, &mut bytes) {
        Some(n) => print_credits(rt.stdout(), program, &bytes[..n]),
        None => ExitCode::SUCCESS,
    }
}
