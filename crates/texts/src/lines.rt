// What one line of a graph text says.

ghost use Rattle.std.specs.Prelude.{◌≡◌, ℕ, ◌+◌, ◌^◌, ◌<◌, length};
ghost use Rattle.fields.specs.Split.{left};
ghost use Rattle.grammar.specs.Labels.{width};
ghost use Rattle.grammar.specs.Reading.{number_in, label_in, first_of, rest_of, letter_of, graph_line, vertex_line, has_pair, tie_in, new_tie, tie_line, end_line, record_of};

use super::labels::Label;
use faults::{FieldFault, FieldTrouble, LineFault};
use fields::{Pieces, parse_number};
use grammar::{Counts, Range, Record, Stage};
use graphs::Tie;

// The letter that a field is; none where the field is not one byte.
fn letter_of(field: &[u8]) -> Option<char>
    ensures { result ≡ letter_of field.now }
{
    match field {
        [byte] => Some(char::from(*byte)),
        _ => None,
    }
}

// The number in the next field, which is field `place` of its line, within a range.
fn read_number(
    fields: &mut Pieces,
    place: usize,
    range: Range,
    trouble: FieldTrouble,
) -> Result<u32, FieldFault>
    ensures value { result ≡ number_in place range trouble (first_of (left fields.old)) }
    ensures rest { left fields.new ≡ rest_of (left fields.old) }
{
    let number = fields
        .next()
        .and_then(|field| parse_number(field.bytes))
        .ok_or(FieldFault {
            field: place,
            trouble: FieldTrouble::NoNumber,
        })?;
    if !(range.start..range.end).contains(&(number as usize)) {
        return Err(FieldFault {
            field: place,
            trouble,
        });
    }
    Ok(number)
}

// How many fields a label has.
fn label_width<L: Label>() -> usize
    ensures { result ≡ width L.Label.form }
{
    match L::second() {
        Some(_) => 2,
        None => 1,
    }
}

// The label in the next fields, of which the first is field `place` of its line.
fn read_label<L: Label>(fields: &mut Pieces, place: usize) -> Result<L, FieldFault>
    requires { place < 2 ^ 32 }
    ensures { result ≡ label_in L.Label.form place (left fields.old) }
{
    let first = read_number(fields, place, L::first(), FieldTrouble::OutOfRange)?;
    let second = match L::second() {
        Some(range) => read_number(fields, place + 1, range, FieldTrouble::OutOfRange)?,
        // a type of one field passes over it
        None => 0,
    };
    Ok(L::make(first, second))
}

// What a `g` line says, by the fields after its letter.
fn read_graph_line<L: Label>(mut fields: Pieces) -> Result<Record<L>, LineFault>
    ensures { result ≡ graph_line L.Label.form (left fields.entry) }
{
    if fields.remaining() != 1 {
        return Err(LineFault::FieldCount);
    }
    let width = label_width::<L>();
    let only = Range {
        start: width,
        end: width + 1,
    };
    read_number(&mut fields, 2, only, FieldTrouble::LabelCount)?;
    Ok(Record::Graph)
}

// The tie in the fields after a `t` line's letter, between two of some vertices.
fn read_tie<L: Label>(mut fields: Pieces, vertices: usize) -> Result<Tie<L>, FieldFault>
    ensures { result ≡ tie_in L.Label.form vertices (left fields.entry) }
{
    let stated = Range {
        start: 0,
        end: vertices,
    };
    let from = read_number(&mut fields, 2, stated, FieldTrouble::MissingVertex)?;
    let to = read_number(&mut fields, 3, stated, FieldTrouble::MissingVertex)?;
    let label = read_label::<L>(&mut fields, 4)?;
    Ok(Tie {
        from: from as usize,
        to: to as usize,
        label,
    })
}

// What an `e` line says, by the fields after its letter.
fn read_end_line<L: Label>(fields: Pieces) -> Result<Record<L>, LineFault>
    ensures { result ≡ end_line (left fields.entry) }
{
    if fields.remaining() != 0 {
        return Err(LineFault::FieldCount);
    }
    Ok(Record::End)
}

// How far a text is read when a line comes: its stage, the vertices and ties that came before, and for how many there is room.
#[derive(Clone, Copy)]
pub struct SoFar<'a, L> {
    pub stage: Stage,
    pub vertices: usize,
    pub ties: &'a [Tie<L>],
    pub room: Counts,
}

impl<'a, L: Label> SoFar<'a, L> {
    // What an `n` line says, by the fields after its letter.
    fn read_vertex_line(&self, mut fields: Pieces) -> Result<Record<L>, LineFault>
        ensures { result ≡ vertex_line L.Label.form self.now.room.vertices self.now.vertices (left fields.entry) }
    {
        if fields.remaining() != label_width::<L>() {
            return Err(LineFault::FieldCount);
        }
        let label = read_label::<L>(&mut fields, 2)?;
        if self.vertices >= self.room.vertices {
            return Err(LineFault::NoRoom);
        }
        Ok(Record::Vertex(label))
    }

    // Whether an earlier tie runs from one vertex to another.
    // It stays a function of its own in a program: within all of `proofread` the loop would read an end from memory at each turn.
    #[inline(never)]
    fn has_pair(&self, from: usize, to: usize) -> bool
        ensures { result ≡ has_pair self.now.ties.now from to }
    {
        // `any` takes twice as long for a text of many ties.
        for tie in self.ties {
            if tie.runs(from, to) {
                return true;
            }
        }
        false
    }

    // A tie whose fields are good, as a line's record.
    fn new_tie(&self, tie: Tie<L>) -> Result<Record<L>, LineFault>
        ensures { result ≡ new_tie self.now.room.ties self.now.ties.now tie }
    {
        if tie.from == tie.to {
            return Err(LineFault::OwnTie);
        }
        if self.has_pair(tie.from, tie.to) {
            return Err(LineFault::RepeatedPair);
        }
        if self.ties.len() >= self.room.ties {
            return Err(LineFault::NoRoom);
        }
        Ok(Record::Tied(tie))
    }

    // What a `t` line says, by the fields after its letter.
    fn read_tie_line(&self, fields: Pieces) -> Result<Record<L>, LineFault>
        ensures { result ≡ tie_line L.Label.form self.now.room.ties self.now.vertices self.now.ties.now (left fields.entry) }
    {
        if fields.remaining() != 2 + label_width::<L>() {
            return Err(LineFault::FieldCount);
        }
        self.new_tie(read_tie::<L>(fields, self.vertices)?)
    }

    // What a line says.
    pub fn read_line(&self, line: &[u8]) -> Result<Record<L>, LineFault>
        ensures { result ≡ record_of L.Label.form self.now.room self.now.stage self.now.vertices self.now.ties.now line.now }
    {
        let mut fields = Pieces::new(line, b'\t');
        let letter = fields.next().and_then(|field| letter_of(field.bytes));
        match (self.stage, letter) {
            (Stage::Opening, Some('g')) => read_graph_line(fields),
            (Stage::Vertices, Some('n')) => self.read_vertex_line(fields),
            (Stage::Vertices | Stage::Ties, Some('t')) => self.read_tie_line(fields),
            (Stage::Vertices | Stage::Ties, Some('e')) => read_end_line(fields),
            _ => Err(LineFault::Letter),
        }
    }
}
