// What a program writes: its text on standard output, and on standard error a line, which begins with the program's name, where something is in
// the way or to be noted. What comes back is at most how a program ends, nothing is lent that they fill, and no contract can say what a system
// call writes. Stands on `text_wording`, which has the refusals in words.
#![tactic(auto)]

use refusals::Refusal;
use std::fmt::Display;
use std::io::{Error, ErrorKind, Print};
use std::process::ExitCode;
use std::rt::{Stderr, Stdout};

// A program's name, and where it says what is in the way.
#[derive(Clone, Copy)]
pub struct Program<'a> {
    pub name: &'a [u8],
    pub stderr: Stderr,
}

impl<'a> Program<'a> {
    // The program of this name.
    pub fn new(name: &'a [u8], stderr: Stderr) -> Program<'a> {
        Program { name, stderr }
    }

    // Says words on standard error. Where that cannot be written, there is nowhere to say so.
    pub fn say(self, words: &[u8]) {
        let _ = self.stderr.write_all(words);
    }

    // Says a number on standard error, in decimal digits.
    pub fn say_number(self, number: u64) {
        let _ = self.stderr.print(number);
    }

    // Says words behind the program's name.
    pub fn tell(self, words: &[u8]) {
        self.say(self.name);
        self.say(words);
    }

    // Says behind the program's name what is wrong, in the words that it has for itself, and ends the line.
    pub fn tell_of<T: Display + Drop>(self, what: T) {
        self.say(self.name);
        let _ = println!(self.stderr; ": {what}");
    }

    // Says that standard input cannot be read.
    pub fn tell_unreadable(self) {
        self.tell(b": standard input cannot be read\n");
    }

    // Says that it was given arguments.
    pub fn tell_takes_none(self) {
        self.tell(b": takes no arguments: it reads standard input\n");
    }

    // How it ends where its text was not written, or not all of it. Where the reader of a pipe has left, nothing is said, and the status is that
    // of a program which signal 13 ends, as shells have it. Else it is said, and the program ends with 0, whatever it says.
    pub fn end_unwritten(self, error: Error) -> ExitCode {
        if error.kind() == ErrorKind::BrokenPipe {
            return ExitCode::from(141);
        }
        self.tell(b": standard output cannot be written\n");
        ExitCode::SUCCESS
    }

    // Writes its text, or says that it cannot be written, or not all of it; and how it ends.
    pub fn write_text(self, stdout: Stdout, text: &[u8]) -> ExitCode {
        match stdout.write_all(text) {
            Ok(()) => ExitCode::SUCCESS,
            Err(error) => self.end_unwritten(error),
        }
    }

    // Notes that a VOX file has further models, which are passed; the answer stands.
    pub fn note_first_model(self) {
        self.tell(b": note: the file has further models; only the first is read\n");
    }

    // Says the number and the detail of a refusal, and its sentence; and ends.
    pub fn end_refused(self, refusal: Refusal) -> ExitCode {
        let told = refusals::notice_of(refusal);
        self.tell(b": refused ");
        self.say_number(u64::from(told.number));
        self.say(b" ");
        self.say_number(told.detail as u64);
        self.say(b": ");
        self.say(text_wording::sentence(refusal));
        self.say(b"\n");
        ExitCode::SUCCESS
    }
}
