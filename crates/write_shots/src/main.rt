// The writing program: reads a shot list that is typed as plain text from standard input, and writes its shot file, in the shortest
// form, to standard output. A mistake in the text, and a list that is refused, give one line on standard error and no file. What the
// text says is `typed_list::read_text`, and its file `shotfile_writer::write`; here are the sizes and the sentences.
#![tactic(auto)]

use job::Job;
use output::Program;
use std::process::ExitCode;
use std::rt::Stdout;
use typed_list::MistakeAt;

// Says the mistake of a text, and ends.
fn end_mistaken(program: Program, mistake: MistakeAt) -> ExitCode {
    program.tell_of(mistake);
    ExitCode::SUCCESS
}

// Writes the file of a list; 28,679 bytes are the longest file.
fn write_list(stdout: Stdout, program: Program, job: Job) -> ExitCode {
    let mut bytes = [0u8; 28679];
    match shotfile_writer::write(job, &mut bytes) {
        Ok(n) => program.write_text(stdout, &bytes[..n]),
        Err(refusal) => program.end_refused(refusal),
    }
}

// Writes the file of the list that a text says; the coordinates have places for 4,096 shots.
fn write_text(stdout: Stdout, program: Program, text: &[u8]) -> ExitCode {
    let mut coords = [0u16; 12288];
    match typed_list::read_text(text, &mut coords) {
        Ok(stored) => write_list(stdout, program, stored.job(&coords)),
        Err(mistake) => end_mistaken(program, mistake),
    }
}

fn main(rt: HostRuntime) -> ExitCode {
    let program = Program::new(b"write_shots", rt.stderr());
    let mut text = [0u8; 262144];
    let too_long = b": the text is longer than 262,143 bytes\n";
    match input::take_whole(&rt, rt.stdin(), program, &mut text, too_long) {
        Some(n) => write_text(rt.stdout(), program, &text[..n]),
        None => ExitCode::SUCCESS,
    }
}
