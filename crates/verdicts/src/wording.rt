// The verdict on a sheet, as the lines that are printed.

ghost use Rattle.std.specs.Prelude.{◌≡◌, ◌++◌, length, IfOk, string_bytes, OnOk, slice_index};
ghost use Rattle.verdicts.specs.Wording.{field_complaint, complaint_of, sentence_of, refusal_row, refused_text, counts_text, kind_text, kind_rows, taken_text, verdict_text};
ghost use Rattle.verdicts.specs.Judging.{sheet_room};
ghost use Rattle.verdicts.specs.Showing.{shown_bytes};
ghost use Rattle.texts.specs.Graphs.{room_in};
ghost use Rattle.faults.specs.Refusals.{refusal_of};

use super::judging::{MOST_ROWS, judge};
use super::showing::shown;
use super::tallying::tally;
use faults::{FieldTrouble, LineFault, Refusal, TextFault};
use grammar::Counts;
use graphs::{HIGHEST_CODE, Pay, Tie};
use std::alloc::{AllocError, Global};
use texts::point;

// One more than the greatest kind.
const KINDS: usize = HIGHEST_CODE as usize + 1;

// What is wrong, in words that follow the faulty bytes.
// As `Display` it would need a type of its own here, since the fault is another crate's: that is no plainer.
fn complaint(fault: LineFault) -> &'static str
    ensures { result.now ≡ complaint_of fault }
{
    match fault {
        LineFault::TextStops => "is where the sheet stops, before its e line",
        LineFault::NoLineFeed => "has no line feed",
        LineFault::Letter => "is no letter that may stand here",
        LineFault::FieldCount => "has another count of fields than its letter asks",
        LineFault::InField(field) => field_complaint(field.trouble),
        LineFault::OwnTie => "ties a vertex to itself",
        LineFault::RepeatedPair => "repeats the pair of an earlier tie",
        LineFault::NoRoom => "is one row more than a sheet may have",
    }
}

// What is wrong with a field, in such words; no `Display` either.
fn field_complaint(trouble: FieldTrouble) -> &'static str
    ensures { result.now ≡ field_complaint trouble }
{
    match trouble {
        FieldTrouble::NoNumber => "is no number",
        FieldTrouble::OutOfRange => "is out of range",
        FieldTrouble::LabelCount => "is another count of label fields than a sheet has, which is 2",
        FieldTrouble::MissingVertex => "names a vertex that the sheet does not have",
    }
}

// A sheet's text, with the name that is shown of it.
// What is written stays a parameter of its methods: in the struct, each would have to promise that name and text stay.
#[derive(Clone, Copy)]
struct NamedText<'a> {
    name: &'a str,
    text: &'a [u8],
}

impl<'a> NamedText<'a> {
    // Adds the fields of the refusal line, after the sheet's name.
    fn push_refusal_row(&self, out: &mut String, refusal: Refusal) -> Result<(), AllocError>
        ensures { OnOk result (string_bytes out.new ≡ string_bytes out.old ++ refusal_row self.now.name.now refusal) }
    {
        let name = self.name;
        let Refusal {
            number,
            text,
            line,
            field,
        } = refusal;
        write!(out, "{name}\tr\t{number}\t{text}\t{line}\t{field}\n")
    }

    // The counts of a good sheet, in a sentence and in a row.
    fn counts_text(&self, heap: Global, counts: Counts) -> Result<String, AllocError>
        ensures { IfOk result (λ s. string_bytes s ≡ counts_text self.now.name.now counts) }
    {
        let name = self.name;
        let Counts { vertices, ties } = counts;
        format!(in heap;
            "{name}: good, with {vertices} vertices and {ties} ties\n{name}\tg\t{vertices}\t{ties}\n"
        )
    }

    // Adds a row for a kind of which there are some.
    fn push_kind(&self, out: &mut String, kind: usize, count: usize) -> Result<(), AllocError>
        ensures { OnOk result (string_bytes out.new ≡ string_bytes out.old ++ kind_text self.now.name.now kind count) }
    {
        let name = self.name;
        if count > 0 {
            write!(out, "{name}\tk\t{kind}\t{count}\n")?;
        }
        Ok(())
    }

    // Adds the rows of all kinds, by the list of how many there are of each.
    fn push_kinds(&self, out: &mut String, counts: &[usize]) -> Result<(), AllocError>
        ensures { OnOk result (string_bytes out.new ≡ string_bytes out.old ++ kind_rows self.now.name.now (λ k. slice_index counts.now k) (length counts.now)) }
    {
        for (kind, count) in counts.iter().enumerate() {
            self.push_kind(out, kind, *count)?;
        }
        Ok(())
    }

    // The lines on a good sheet: its counts in a sentence and in a row, and a row for each kind that it has, ascending.
    fn taken(&self, heap: Global, counts: Counts, vertices: &[Pay]) -> Result<String, AllocError>
        ensures { IfOk result (λ s. string_bytes s ≡ taken_text self.now.name.now counts vertices.now) }
    {
        let mut out = self.counts_text(heap, counts)?;
        let mut kinds = vec![in heap; 0usize; KINDS]?;
        tally(vertices, kinds.as_mut_slice());
        self.push_kinds(&mut out, kinds.as_slice())?;
        Ok(out)
    }

    // The sentence that says what is wrong with the sheet, after its name.
    fn sentence(&self, heap: Global, fault: TextFault) -> Result<String, AllocError>
        ensures { IfOk result (λ s. string_bytes s ≡ sentence_of self.now.text.now fault) }
    {
        let Refusal { line, field, .. } = fault.refusal();
        match fault {
            TextFault::TooLong(_) => String::from_str(heap, "the file has more than 65,536 bytes"),
            TextFault::InLine(faulty) => {
                let bytes = shown(heap, point(self.text, self.text, fault))?;
                let wrong = complaint(faulty.fault);
                // by the numbers of the refusal line, with 0 for no field: both lines on a sheet name one place
                if field == 0 {
                    format!(in heap; "line {line}: \"{bytes}\" {wrong}")
                } else {
                    format!(in heap; "line {line}, field {field}: \"{bytes}\" {wrong}")
                }
            }
        }
    }

    // The two lines on a bad sheet: a sentence, and the fields of the refusal line.
    fn refused(&self, heap: Global, fault: TextFault) -> Result<String, AllocError>
        ensures { IfOk result (λ s. string_bytes s ≡ refused_text self.now.name.now (sentence_of self.now.text.now fault) (refusal_of fault)) }
    {
        let name = self.name;
        let wrong = self.sentence(heap, fault)?;
        let mut out = format!(in heap; "{name}: {wrong}\n")?;
        self.push_refusal_row(&mut out, fault.refusal())?;
        Ok(out)
    }

    // The verdict, by means of two lists.
    fn verdict_in(
        &self,
        heap: Global,
        vertices: &mut [Pay],
        ties: &mut [Tie<Pay>],
    ) -> Result<String, AllocError>
        ensures { IfOk result (λ s. string_bytes s ≡ verdict_text (room_in vertices.old ties.old) self.now.name.now self.now.text.now) }
    {
        match judge(self.text, vertices, ties) {
            Ok(counts) => {
                let stated = counts.vertices;
                self.taken(heap, counts, &vertices[..stated])
            }
            Err(fault) => self.refused(heap, fault),
        }
    }
}

// The verdict on a sheet of a name, as the lines to print: how much of what a good sheet has, or what is wrong with a bad one.
pub fn verdict(heap: Global, name: &str, text: &[u8]) -> Result<String, AllocError>
    ensures { IfOk result (λ s. string_bytes s ≡ verdict_text sheet_room (shown_bytes name.now) text.now) }
{
    let blank = Pay { kind: 0, pence: 0 };
    let tie = Tie {
        from: 0,
        to: 0,
        label: blank,
    };
    // of full length, since the reader fills slices of its caller's (a rule of the project)
    let mut vertices = vec![in heap; blank; MOST_ROWS]?;
    let mut ties = vec![in heap; tie; MOST_ROWS]?;
    let name = shown(heap, name.as_bytes())?;
    let named = NamedText {
        name: name.as_str(),
        text,
    };
    named.verdict_in(heap, vertices.as_mut_slice(), ties.as_mut_slice())
}
