// The reader of a whole graph text, for every label type.

ghost use Rattle.std.specs.Prelude.{◌≡◌, ℕ, ◌+◌, ◌<◌, ◌≤◌, length, take};
ghost use Rattle.grammar.specs.Reading.{closing, record_of};
ghost use Rattle.texts.specs.Graphs.{Read, Exact, Blames};
ghost use Rattle.texts.specs.Storing.{HasRoom, stage_after, counts_after, vertices_after, ties_after};

use super::labels::Label;
use super::lines::SoFar;
use faults::{FaultyLine, LineFault, TextFault};
use fields::Pieces;
use grammar::{Counts, Record, Stage};
use graphs::Tie;

// The most bytes that a text may have.
pub const MOST_BYTES: usize = 1_000_000;

// How far a text is read, and how many vertices and ties it has stated.
#[derive(Clone, Copy)]
pub struct Progress {
    pub stage: Stage,
    pub counts: Counts,
}

// Nothing is read yet.
const START: Progress = Progress {
    stage: Stage::Opening,
    counts: Counts {
        vertices: 0,
        ties: 0,
    },
};

impl Progress {
    // What the next line says, after those by which the reader has come so far and filled the front of a list of ties.
    fn read_next<L: Label>(
        self,
        line: &[u8],
        ties: &[Tie<L>],
        room: Counts,
    ) -> Result<Record<L>, LineFault>
        requires { self.counts.ties ≤ length ties.now }
        ensures { result ≡ record_of L.Label.form room self.stage self.counts.vertices (take self.counts.ties ties.now) line.now }
    {
        let tied = self.counts.ties;
        let so_far = SoFar {
            stage: self.stage,
            vertices: self.counts.vertices,
            ties: &ties[..tied],
            room,
        };
        so_far.read_line(line)
    }

    // The answer once only `rest` is left after the last line feed of a text, as line `line`.
    fn close(self, text: usize, line: usize, rest: &[u8]) -> Result<Counts, TextFault>
        ensures { result ≡ closing self.stage self.counts text line rest.now }
    {
        let fault = match self.stage {
            _ if !rest.is_empty() => LineFault::NoLineFeed,
            Stage::Closed => return Ok(self.counts),
            _ => LineFault::TextStops,
        };
        Err(TextFault::InLine(FaultyLine { text, line, fault }))
    }

    // Stores what a line says in the next free entry of its list, and says how far that leads.
    // The lists are slices of the caller (a rule of the project), so what they hold is counted.
    // It writes by index, since no proof learns what a slice holds after a write by `get_mut`.
    fn store<L: Label>(self, said: Record<L>, vertices: &mut [L], ties: &mut [Tie<L>]) -> Progress
        requires { HasRoom said self.counts (length vertices.old) (length ties.old) }
        ensures stage { result.stage ≡ stage_after said }
        ensures counts { result.counts ≡ counts_after said self.counts }
        ensures vertices { vertices.new ≡ vertices_after said self.counts vertices.old }
        ensures ties { ties.new ≡ ties_after said self.counts ties.old }
    {
        let mut counts = self.counts;
        let stage = match said {
            Record::Graph => Stage::Vertices,
            Record::Vertex(label) => {
                vertices[counts.vertices] = label;
                counts.vertices += 1;
                Stage::Vertices
            }
            Record::Tied(tie) => {
                ties[counts.ties] = tie;
                counts.ties += 1;
                Stage::Ties
            }
            Record::End => Stage::Closed,
        };
        Progress { stage, counts }
    }
}

// Reads a text's lines one after another into the lists, up to the first fault. The text has a number, since the rules speak of texts 1 and 2 (a rule of the project).
// A struct of the two lists would need clauses on what its borrows leave, so it is no plainer.
fn read_lines<L: Label>(
    text: &[u8],
    number: usize,
    vertices: &mut [L],
    ties: &mut [Tie<L>],
) -> Result<Counts, TextFault>
    ensures { Read L.Label.form number text.now vertices.old ties.old result vertices.new ties.new }
{
    if text.len() > MOST_BYTES {
        return Err(TextFault::TooLong(number));
    }
    let room = Counts {
        vertices: vertices.len(),
        ties: ties.len(),
    };
    let mut progress = START;
    let mut lines = Pieces::new(text, b'\n');
    // Whether a line is the last is asked of the iterator between its items, so this is no `for`.
    while let Some(line) = lines.next() {
        if lines.is_done() {
            return progress.close(number, line.place, line.bytes);
        }
        let said = progress
            .read_next(line.bytes, ties, room)
            .map_err(|fault| FaultyLine {
                text: number,
                line: line.place,
                fault,
            })?;
        progress = progress.store(said, vertices, ties);
    }
    Err(TextFault::InLine(FaultyLine {
        text: number,
        line: lines.place(),
        fault: LineFault::TextStops,
    }))
}

// Reads the graph text of a number, 1 or 2, into a list of vertex labels and a list of ties, and returns how many of each it states.
// It refuses a text with the first fault in it. The entries of the lines before that, or of all lines, are filled; every other entry is as it was.
pub fn read_graph<L: Label>(
    text: &[u8],
    number: usize,
    vertices: &mut [L],
    ties: &mut [Tie<L>],
) -> Result<Counts, TextFault>
    ensures reads { Read L.Label.form number text.now vertices.old ties.old result vertices.new ties.new }
    ensures exact { Exact L.Label.form text.now vertices.old ties.old result vertices.new ties.new }
    ensures blames { Blames L.Label.form number text.now vertices.old ties.old result }
{
    read_lines(text, number, vertices, ties)
}
