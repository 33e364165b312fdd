// The line that a refusal is printed as.

ghost use Rattle.std.specs.Prelude.{◌≡◌};
ghost use Rattle.fields.specs.Lines.{length_in, overlaid_in};
ghost use Rattle.texts.specs.RefusalLines.{refusal_text};

use faults::Refusal;
use fields::{TooShort, write_line};

// Writes `r`, number, text, line and field, tab-separated and ended by a line feed, at the start of a buffer, and returns how many bytes that are.
// Where the buffer is too short it says so, refusal 15, and leaves the buffer.
// It reads the numbers of a refusal, where 0 stands for none, since the line prints just these (a rule of the project).
pub fn write_refusal(refusal: Refusal, buffer: &mut [u8]) -> Result<usize, TooShort>
    ensures value { result ≡ length_in (refusal_text refusal) buffer.old }
    ensures after { buffer.new ≡ overlaid_in (refusal_text refusal) buffer.old }
{
    let numbers = [refusal.number, refusal.text, refusal.line, refusal.field];
    write_line(b'r', &numbers, buffer)
}
