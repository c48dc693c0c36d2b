// One line of a shot list as it is typed: a setting, a shot, nothing, or a mistake. `entry::read_line` takes the bytes of a line to what
// it says, and `word::until` finds where a comment or a word ends. specs/Words.antt says how a text is cut into lines and words,
// specs/Entries.antt what a line says; proofs/Printed.antt that numbers and words that are printed read back. Stands on `text_parts`, for
// the bytes of a text and the worth of digits, on `text_same` and `ground`.
#![tactic(auto)]

pub mod entry;
pub mod word;

pub use entry::{Entry, Mistake, NumberError, Setting, number_of, read_line};
pub use word::{next_word, until};
