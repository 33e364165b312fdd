// Likeness to an earlier piece.

ghost use Rattle.std.specs.Prelude.{◌≡◌};
ghost use Rattle.graphs.specs.Alike.{alike};
ghost use Rattle.network.specs.Tables.{pieces_in};
ghost use Rattle.finding.specs.Alikes.{alike_earlier};
ghost use Rattle.finding.specs.Shapes.{graph_of};

use crate::first::first_occurrence;
use crate::piece::PieceSheet;
use graphs::Code;
use keys::SameCode;
use network::book::Book;
use sheets::sheet::Sheet;
use sights::Seen;

// Whether a piece is alike to a graph with codes that has so many vertices.
fn is_alike<S: Sheet<Label = Code>>(piece: &PieceSheet, graph: &S, size: usize) -> bool
    ensures { size ≡ (S.Sheet.graph graph.now).size → result ≡ alike (graph_of piece.now) (S.Sheet.graph graph.now) }
{
    let sight = Seen {
        sheet: graph,
        key: &SameCode,
    };
    piece.size() == size && first_occurrence(piece, &sight).is_some()
}

// Whether a graph with codes is alike to one of the pieces numbered below `before`. The graph may be a piece, seen as a sheet, or one that is about to become a piece.
pub fn is_alike_to_earlier<S: Sheet<Label = Code>>(book: &Book, before: usize, graph: &S) -> bool
    ensures { result ≡ alike_earlier (pieces_in book.now.tables) before (S.Sheet.graph graph.now) }
{
    let end = before.min(book.tables.pieces.as_slice().len());
    // asked once, as a sheet may have to count its vertices
    let size = graph.size();
    (0..end).any(|number| is_alike(&PieceSheet { book, number }, graph, size))
}
