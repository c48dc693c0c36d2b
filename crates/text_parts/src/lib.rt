// The parts of which every text is made, put into a lent slice: a byte, a word, a decimal number, a line of a word and a number.
// specs/Text.antt says what a text is, specs/Decimal.antt what a number is in decimal. Stands on `buffer` alone.
#![tactic(auto)]

ghost use Rattle.std.specs.Prelude.{[], ◌∷◌, ◌≡◌, ◌+◌, ◌%◌, ◌≤◌, ◌<◌, length};
ghost use Rattle.buffer.specs.Wrote.{Wrote};
ghost use Rattle.text_parts.specs.Decimal.{digits, line};

// Puts one byte at a place, and gives the place after it.
pub fn put_byte(out: &mut [u8], at: usize, b: u8) -> usize
    requires { at < length out.old }
    ensures { Wrote out.old out.new at result (b ∷ []) }
{
    out[at] = b;
    at + 1
}

// Puts the bytes of a word at a place.
pub fn put_word(out: &mut [u8], at: usize, word: &[u8]) -> usize
    requires { at + length word.now ≤ length out.old }
    ensures { Wrote out.old out.new at result word.now }
{
    let end = at + word.len();
    out[at..end].copy_from_slice(word);
    end
}

// The last decimal digit of a number.
fn digit(a: u64) -> u8
    ensures { result ≡ 48 + a % 10 }
{
    b'0' + (a % 10) as u8
}

// Puts a number in decimal, with at most n digits.
pub fn put_digits(out: &mut [u8], at: usize, n: usize, a: u64) -> usize
    requires { at + n ≤ length out.old }
    ensures { Wrote out.old out.new at result (digits n a) }
{
    if n == 0 {
        return at;
    }
    if a < 10 {
        return put_byte(out, at, digit(a));
    }
    let next = put_digits(out, at, n - 1, a / 10);
    put_byte(out, next, digit(a))
}

// Puts a line: a word, a space, a decimal value.
pub fn put_line(out: &mut [u8], at: usize, word: &[u8], a: u64) -> usize
    requires { at + length word.now + 22 ≤ length out.old }
    ensures { Wrote out.old out.new at result (line word.now a) }
{
    let named = put_word(out, at, word);
    let split = put_byte(out, named, b' ');
    let valued = put_digits(out, split, 20, a);
    put_byte(out, valued, b'\n')
}
