// The judging of one sheet, with a fixed room.

ghost use Rattle.std.specs.Prelude.{◌≡◌};
ghost use Rattle.verdicts.specs.Judging.{Judged};

use faults::TextFault;
use grammar::Counts;
use graphs::{Pay, Tie};
use texts::read_graph;

// The most bytes of a file that is judged.
pub const MOST_FILE_BYTES: usize = 65_536;

// The most vertices, and the most ties, of a sheet that is judged.
pub const MOST_ROWS: usize = 4_096;

// Reads a sheet, which is text 1 of one, into the lists. A text of more bytes than are judged is too long.
pub fn judge(text: &[u8], vertices: &mut [Pay], ties: &mut [Tie<Pay>]) -> Result<Counts, TextFault>
    ensures { Judged text.now vertices.old ties.old result vertices.new ties.new }
{
    if text.len() > MOST_FILE_BYTES {
        return Err(TextFault::TooLong(1));
    }
    read_graph(text, 1, vertices, ties)
}
