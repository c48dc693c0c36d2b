// The program that takes a drawing to a shot file: reads a VOX file from standard input and writes the shot file of its voxels, in the
// shortest form, to standard output. A refusal gives one line on standard error and no file. docs/SCOPE.md, 'VOX file'. What it writes is
// `drawn_file::write_drawing`; here are only the sizes.
#![tactic(auto)]

use output::Program;
use std::process::ExitCode;
use std::rt::{Env, Stdin, Stdout};

// Writes the shot file of a drawing, and notes where it has further models; the coordinates have places for 4,096 shots, and 28,679 bytes are
// the longest file.
fn write_file(stdout: Stdout, program: Program, bytes: &[u8]) -> ExitCode {
    let mut coords = [0u16; 12288];
    let mut file = [0u8; 28679];
    match drawn_file::write_drawing(bytes, &mut coords, &mut file) {
        Ok(n) => {
            let status = program.write_text(stdout, &file[..n]);
            if status == ExitCode::SUCCESS && vox_models::has_further(bytes) {
                program.note_first_model();
            }
            status
        }
        Err(refusal) => program.end_refused(refusal),
    }
}

// Fills the buffer from standard input. A full one may lack bytes of the file, so it is not written.
fn write_input(
    env: &impl Env,
    stdin: Stdin,
    stdout: Stdout,
    program: Program,
    buffer: &mut [u8],
) -> ExitCode {
    let too_long = b": the input has more than 1,048,575 bytes\n";
    match input::take_whole(env, stdin, program, buffer, too_long) {
        Some(n) => write_file(stdout, program, &buffer[..n]),
        None => ExitCode::SUCCESS,
    }
}

fn main(rt: HostRuntime) -> ExitCode {
    let program = Program::new(b"vox_shots", rt.stderr());
    let mut buffer = [0u8; 1048576];
    write_input(&rt, rt.stdin(), rt.stdout(), program, &mut buffer)
}
