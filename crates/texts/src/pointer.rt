// What a fault points at in one of two texts.

ghost use Rattle.std.specs.Prelude.{◌≡◌, [], MatchOption};
ghost use Rattle.grammar.specs.Pointing.{piece_at, field_at, line_at, text_of, pointed};

use faults::TextFault;
use fields::Pieces;

// The piece of a text at a place, 1 for the first; none where the text has no such piece.
fn find_piece<'a>(text: &'a [u8], separator: u8, place: usize) -> Option<&'a [u8]>
    ensures { MatchOption result (piece_at separator place text.now ≡ []) (λ piece. piece.now ≡ piece_at separator place text.now) }
{
    let piece = Pieces::new(text, separator).nth(place.checked_sub(1)?)?;
    Some(piece.bytes)
}

// The field of a text's line, or the line for field 0; none where the text has no such line or field.
// The two are numbers of a refusal, where 0 stands for none (a rule of the project).
fn find_field<'a>(text: &'a [u8], line: usize, field: usize) -> Option<&'a [u8]>
    ensures { MatchOption result (field_at field (line_at line text.now) ≡ []) (λ bytes. bytes.now ≡ field_at field (line_at line text.now)) }
{
    let bytes = find_piece(text, b'\n', line)?;
    if field == 0 {
        return Some(bytes);
    }
    find_piece(bytes, b'\t', field)
}

// The faulty field of the text that a fault names, borrowed from that text: of the second for text 2, and of the first for any other.
// For field 0 it is the line up to its line feed or the text's end; where there is no such line or field, it is the text's empty end.
// It reads the numbers of a refusal, where 0 stands for none, since these are what the refusal line prints (a rule of the project).
pub fn point<'a>(first: &'a [u8], second: &'a [u8], fault: TextFault) -> &'a [u8]
    ensures { result.now ≡ pointed (text_of first.now second.now fault) fault }
{
    let refusal = fault.refusal();
    let text = if refusal.text == 2 { second } else { first };
    find_field(text, refusal.line, refusal.field).unwrap_or(&text[text.len()..])
}
