// The lines of the data that the program is run on: a name, a colon, and decimal numbers with a blank before each.
ghost use Rattle.std.specs.Prelude.{◌≤◌, length};

// The place of the first such byte from a place on, or the end of the text.
pub(crate) fn until(text: &[u8], from: usize, byte: u8) -> usize
    requires { from ≤ length text.now }
    ensures { (from ≤ result) × (result ≤ length text.now) }
{
    let rest = &text[from..];
    let found = rest.iter().position(|&other| other == byte);
    from + found.unwrap_or(rest.len())
}

// A number with one digit more.
fn with_digit(number: u16, digit: u8) -> u16 {
    ((u32::from(number) * 10 + u32::from(digit % 48)) % 65536) as u16
}

// Takes a byte behind so many numbers: a blank begins the next, a digit goes on with the last. How many there are then.
fn take(numbers: &mut [u16], n: usize, byte: u8) -> usize
    requires { n ≤ length numbers.old }
    ensures { result ≤ length numbers.old }
{
    if byte == b' ' {
        if n == numbers.len() {
            return n;
        }
        numbers[n] = 0;
        return n + 1;
    }
    if 0 < n {
        numbers[n - 1] = with_digit(numbers[n - 1], byte);
    }
    n
}

// Puts the numbers of a text into a slice, as far as it goes; how many there are.
pub(crate) fn read_numbers(text: &[u8], numbers: &mut [u16]) -> usize
    ensures { result ≤ length numbers.old }
{
    let mut n = 0;
    for &byte in text {
        n = take(numbers, n, byte);
    }
    n
}
