// A line of a letter and numbers, written at the start of a buffer.

ghost use Rattle.std.specs.Prelude.{◌≡◌, ℕ, ◌+◌, ◌^◌, ◌<◌, ◌≤◌, cond, List, ◌++◌, length, Ok, Err, nat_le};
ghost use Rattle.fields.specs.Numbers.{numeral};
ghost use Rattle.fields.specs.Lines.{numbers_text, line_text, overlaid, length_in, overlaid_in, too_short_number};

// The buffer is too short for what would be written.
#[derive(Clone, Copy, PartialEq, Eq, Debug)]
pub struct TooShort;

impl TooShort {
    // The number of the refusal.
    pub fn number(self) -> usize
        ensures { result ≡ too_short_number self }
    {
        15
    }
}

// How many digits a number has.
fn digit_count(number: usize) -> usize
    ensures count { result ≡ length (numeral number) }
    ensures small { result ≤ 20 }
{
    number.checked_ilog10().unwrap_or(0) as usize + 1
}

// Writes a number's digits at the start of a space that has room for them, and says how many.
// The library's `write!` to a slice promises nothing of the bytes in it, so the proof needs this one.
fn put_number(number: usize, space: &mut [u8]) -> usize
    requires { length (numeral number) ≤ length space.old }
    ensures count { result ≡ length (numeral number) }
    ensures after { space.new ≡ overlaid (numeral number) space.old }
{
    let digit = b'0' + (number % 10) as u8;
    if number < 10 {
        space[0] = digit;
        return 1;
    }
    let count = put_number(number / 10, space);
    space[count] = digit;
    count + 1
}

// Writes numbers at the start of a space that has room for them, a tab before each, and says how many bytes.
fn put_numbers(numbers: &[usize], space: &mut [u8]) -> usize
    requires { length (numbers_text numbers.now) ≤ length space.old }
    ensures count { result ≡ length (numbers_text numbers.now) }
    ensures after { space.new ≡ overlaid (numbers_text numbers.now) space.old }
{
    // the place is added up, since each number has as many bytes as it has digits
    let mut at = 0;
    for number in numbers {
        space[at] = b'\t';
        at += 1 + put_number(*number, &mut space[at + 1..]);
    }
    at
}

// Whether numbers, a tab before each, fit a space.
fn numbers_fit(numbers: &[usize], space: usize) -> bool
    ensures { result ≡ nat_le (length (numbers_text numbers.now)) space }
{
    let mut room = space;
    for number in numbers {
        let count = digit_count(*number);
        if count >= room {
            return false;
        }
        room -= count + 1;
    }
    true
}

// Writes a letter and numbers, tab-separated and ended by a line feed, at the start of a buffer and returns how many bytes that are.
// Where the buffer is too short it says so and leaves the buffer.
pub fn write_line(letter: u8, numbers: &[usize], buffer: &mut [u8]) -> Result<usize, TooShort>
    ensures value { result ≡ length_in (line_text letter numbers.now) buffer.old }
    ensures after { buffer.new ≡ overlaid_in (line_text letter numbers.now) buffer.old }
{
    let room = buffer.len();
    if room < 2 || !numbers_fit(numbers, room - 2) {
        return Err(TooShort);
    }
    buffer[0] = letter;
    let end = 1 + put_numbers(numbers, &mut buffer[1..]);
    buffer[end] = b'\n';
    Ok(end + 1)
}
