// Standard input into a lent slice, until the slice is full or the input ends. A pipe may deliver in pieces.
// The only crate of a program that reads; it stands on `output`, by which it says what is in the way.
#![tactic(auto)]

ghost use Rattle.std.specs.Prelude.{length, ◌-◌, ◌≤◌};
ghost use Rattle.input.specs.Filled.{Between};

use output::Program;
use std::env::FillError;
use std::io::Read;
use std::rt::{Env, Stdin};

// How many bytes are in the slice after one read behind the first n, as many as before where the input has ended; none where it failed.
fn read_more(mut stdin: Stdin, buffer: &mut [u8], n: usize) -> Option<usize>
    requires { n ≤ length buffer.old }
    ensures { Between n (length buffer.old) result }
{
    let more = stdin.read(&mut buffer[n..]).ok()?;
    Some(n + more)
}

// Reads until the slice is full or the input ends; gives how many bytes there are, or none where a read failed.
pub fn fill(stdin: Stdin, buffer: &mut [u8]) -> Option<usize>
    ensures { Between 0 (length buffer.old) result }
{
    let mut n = 0;
    // Kept so: a read may bring fewer bytes than there is room for, so that no range has the places where reads begin.
    while n < buffer.len() {
        let m = read_more(stdin, buffer, n)?;
        if m <= n {
            return Some(n);
        }
        n = m;
    }
    Some(n)
}

// Whether the program was started with a word at this place; its name stands at place 0.
pub fn has_word(env: &impl Env, place: usize) -> bool {
    let mut first = [0u8; 1];
    !matches!(env.arg(place, &mut first), Err(FillError::NotPresent))
}

// Standard input; where a read failed, that is said.
fn read(stdin: Stdin, program: Program, buffer: &mut [u8]) -> Option<usize>
    ensures { Between 0 (length buffer.old) result }
{
    let filled = fill(stdin, buffer);
    if filled.is_none() {
        program.tell_unreadable();
    }
    filled
}

// What was filled, unless it fills all the room, since then bytes of the input may be missing: these words are said of it.
fn unless_full(
    program: Program,
    filled: Option<usize>,
    room: usize,
    too_long: &[u8],
) -> Option<usize>
    requires { Between 0 room filled }
    ensures { Between 0 (room - 1) result }
{
    let n = filled?;
    if n == room {
        program.tell(too_long);
        return None;
    }
    Some(n)
}

// What a program works on, which is standard input alone. Where it is given arguments, or a read failed, it has said so and works on nothing.
pub fn take(env: &impl Env, stdin: Stdin, program: Program, buffer: &mut [u8]) -> Option<usize>
    ensures { Between 0 (length buffer.old) result }
{
    if has_word(env, 1) {
        program.tell_takes_none();
        return None;
    }
    read(stdin, program, buffer)
}

// The same where a full slice may lack bytes of the input: these words are said of it then.
pub fn take_whole(
    env: &impl Env,
    stdin: Stdin,
    program: Program,
    buffer: &mut [u8],
    too_long: &[u8],
) -> Option<usize>
    ensures { Between 0 (length buffer.old - 1) result }
{
    let filled = take(env, stdin, program, buffer);
    unless_full(program, filled, buffer.len(), too_long)
}

// The same for a program that has arguments, which are not looked at here.
pub fn read_whole(
    stdin: Stdin,
    program: Program,
    buffer: &mut [u8],
    too_long: &[u8],
) -> Option<usize>
    ensures { Between 0 (length buffer.old - 1) result }
{
    let filled = read(stdin, program, buffer);
    unless_full(program, filled, buffer.len(), too_long)
}
