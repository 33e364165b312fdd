// Bytes shown safely to a person.

ghost use Rattle.std.specs.Prelude.{◌≡◌, ◌++◌, IfOk, string_bytes, OnOk};
ghost use Rattle.verdicts.specs.Showing.{is_plain, hex_digit, escaped_byte, shown_bytes, shown_byte};

use std::alloc::{AllocError, Global};

// Whether a byte is shown as it stands: printable ASCII but for the quote and the backslash.
fn is_plain(byte: u8) -> bool
    ensures { result ≡ is_plain byte }
{
    (b' '..=b'~').contains(&byte) && byte != b'"' && byte != b'\\'
}

// The hexadecimal digit of a number below 16.
fn hex_digit(number: u8) -> char
    ensures { result ≡ hex_digit number }
{
    char::from_digit(u32::from(number), 16).unwrap_or('?')
}

// Adds `\x` and the two hexadecimal digits of a byte to a text.
// Digit by digit, since `write!` takes five times as long for a byte.
fn push_escaped(text: &mut String, byte: u8) -> Result<(), AllocError>
    ensures { OnOk result (string_bytes text.new ≡ string_bytes text.old ++ escaped_byte byte) }
{
    text.push_str("\\x")?;
    text.push(hex_digit(byte / 16))?;
    text.push(hex_digit(byte % 16))?;
    Ok(())
}

// Adds a byte to a text: as it stands, a tab as `\t`, and any other as `\x` and its two hexadecimal digits.
fn push_shown(text: &mut String, byte: u8) -> Result<(), AllocError>
    ensures { OnOk result (string_bytes text.new ≡ string_bytes text.old ++ shown_byte byte) }
{
    if is_plain(byte) {
        text.push(char::from(byte))
    } else if byte == b'\t' {
        text.push_str("\\t")
    } else {
        push_escaped(text, byte)
    }
}

// Bytes as a text of printable characters.
pub fn shown(heap: Global, bytes: &[u8]) -> Result<String, AllocError>
    ensures { IfOk result (λ s. string_bytes s ≡ shown_bytes bytes.now) }
{
    let mut text = String::new(heap);
    for byte in bytes {
        push_shown(&mut text, *byte)?;
    }
    Ok(text)
}
