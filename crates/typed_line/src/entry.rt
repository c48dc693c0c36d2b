// What one line says.
ghost use Rattle.std.specs.Prelude.{◌≡◌, Some};
ghost use Rattle.typed_line.specs.Words.{words_of};
ghost use Rattle.typed_line.specs.Cursors.{OneWord, OnlyWord};
ghost use Rattle.typed_line.specs.Entries.{word_number, command_of, mistake_of, setting_of, shot_of, entry_of, line_entry, sentence};

use crate::word::{next_word, until};
use std::fmt;
use text_same::same_bytes;

// The settings of a list.
#[derive(Clone, Copy, PartialEq, Eq, Debug)]
pub enum Setting {
    Field,
    Edge,
    Grid,
}

// What the first word of a line asks for.
#[derive(Clone, Copy, PartialEq, Eq, Debug)]
pub enum Command {
    Set(Setting),
    Shoot,
}

// Why a word is no number.
#[derive(Clone, Copy, PartialEq, Eq, Debug)]
pub enum NumberError {
    // It has a byte that is no digit.
    NoDigit,
    // It is above 65,535.
    TooLarge,
}

// What is wrong with a line.
#[derive(Clone, Copy, PartialEq, Eq, Debug)]
pub enum Mistake {
    // The first word is none of field, edge, grid, shot.
    UnknownWord,
    TooFewWords,
    TooManyWords,
    // A word that should be a number has a byte that is no digit.
    NoNumber,
    // A number is above 65,535.
    LargeNumber,
    // A line above gives the same setting.
    SettingTwice,
    // There are 4,096 shots above.
    TooManyShots,
    // The coordinate slice has no three places left.
    NoPlace,
}

impl From<NumberError> for Mistake {
    ghost from_gives = { λ e m. m ≡ mistake_of e };

    fn from(error: NumberError) -> Mistake {
        match error {
            NumberError::NoDigit => Mistake::NoNumber,
            NumberError::TooLarge => Mistake::LargeNumber,
        }
    }
}

impl fmt::Display for Mistake {
    ghost output = { λ m. Some (sentence m) };

    fn fmt<W: fmt::Write>(&self, f: &mut fmt::Formatter<W>) -> fmt::Result {
        f.write_str(match self {
            Mistake::UnknownWord => "the first word is not field, edge, grid or shot",
            Mistake::TooFewWords => {
                "too few words; field, edge and grid have one number, shot has three"
            }
            Mistake::TooManyWords => {
                "too many words; field, edge and grid have one number, shot has three"
            }
            Mistake::NoNumber => "a number is not of decimal digits only",
            Mistake::LargeNumber => "a number is above 65,535",
            Mistake::SettingTwice => "a line above gives this setting",
            Mistake::TooManyShots => "there are more than 4,096 shots",
            Mistake::NoPlace => "there is no place for this shot",
        })
    }
}

// What a line says.
#[derive(Clone, Copy, PartialEq, Eq, Debug)]
pub enum Entry {
    Nothing,
    Setting { which: Setting, number: u16 },
    Shot { x: u16, y: u16, z: u16 },
}

// What a word is as a number; no digits are 0.
pub fn number_of(word: &[u8]) -> Result<u16, NumberError>
    ensures { result ≡ word_number word.now }
{
    if !word.iter().all(u8::is_ascii_digit) {
        return Err(NumberError::NoDigit);
    }
    let mut number = 0u32;
    for digit in word {
        number = number * 10 + u32::from(*digit - b'0');
        if 65535 < number {
            return Err(NumberError::TooLarge);
        }
    }
    Ok(number as u16)
}

fn command_of(word: &[u8]) -> Result<Command, Mistake>
    ensures { result ≡ command_of word.now }
{
    if same_bytes(word, b"field") {
        Ok(Command::Set(Setting::Field))
    } else if same_bytes(word, b"edge") {
        Ok(Command::Set(Setting::Edge))
    } else if same_bytes(word, b"grid") {
        Ok(Command::Set(Setting::Grid))
    } else if same_bytes(word, b"shot") {
        Ok(Command::Shoot)
    } else {
        Err(Mistake::UnknownWord)
    }
}

// The next word, where there has to be one, and what stands behind it.
fn one_word(words: &[u8]) -> Result<(&[u8], &[u8]), Mistake>
    ensures { OneWord words.now result }
{
    next_word(words).ok_or(Mistake::TooFewWords)
}

// The only word, where there has to be just one.
fn only_word(words: &[u8]) -> Result<&[u8], Mistake>
    ensures { OnlyWord words.now result }
{
    let (word, rest) = one_word(words)?;
    match next_word(rest) {
        Some(_) => Err(Mistake::TooManyWords),
        None => Ok(word),
    }
}

// The rest of a line that gives a setting.
fn read_setting(which: Setting, words: &[u8]) -> Result<Entry, Mistake>
    ensures { result ≡ setting_of which (words_of words.now) }
{
    let number = number_of(only_word(words)?)?;
    Ok(Entry::Setting { which, number })
}

// The rest of a line that is a shot.
fn read_shot(words: &[u8]) -> Result<Entry, Mistake>
    ensures { result ≡ shot_of (words_of words.now) }
{
    let (x, rest) = one_word(words)?;
    let (y, rest) = one_word(rest)?;
    let z = only_word(rest)?;
    let x = number_of(x)?;
    let y = number_of(y)?;
    let z = number_of(z)?;
    Ok(Entry::Shot { x, y, z })
}

// What the words of a line say.
fn read_words(line: &[u8]) -> Result<Entry, Mistake>
    ensures { result ≡ entry_of (words_of line.now) }
{
    let Some((word, rest)) = next_word(line) else {
        return Ok(Entry::Nothing);
    };
    match command_of(word)? {
        Command::Set(which) => read_setting(which, rest),
        Command::Shoot => read_shot(rest),
    }
}

// What a line says; what stands behind a `#` says nothing.
pub fn read_line(line: &[u8]) -> Result<Entry, Mistake>
    ensures { result ≡ line_entry line.now }
{
    let (code, _) = until(line, |b| b == b'#');
    // A long text may have many empty lines and comments: they are not gone into.
    if code.is_empty() {
        return Ok(Entry::Nothing);
    }
    read_words(code)
}
