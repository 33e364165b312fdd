// Books: tables that keep the rules of a book at every moment.

ghost use Rattle.std.specs.Prelude.{◌≡◌, ◌+◌, ◌≤◌, true, [], ◌∷◌, ◌++◌, length, take, drop};
ghost use Rattle.network.specs.Tables.{Kept, can_add, pieces_in, pattern_of, patterns_in};

use crate::tables::{SizedPiece, StoredPattern, StoredPiece, Tables};
use graphs::{Code, Tie};
use short_lists::ShortList;

// The tables of a book, with the rules in the type: parts have lower numbers than the whole, no two pieces are alike, seats are permutations, and the limits hold.
#[derive(Clone, Copy)]
pub struct Book {
    pub tables: Tables,
    ghost kept: { Kept tables },
}

impl Book {
    // The book with no piece and no pattern.
    pub fn blank() -> Book
        ensures pieces { pieces_in result.tables ≡ [] }
        ensures patterns { patterns_in result.tables ≡ [] }
    {
        let code = Code { number: 0 };
        let piece = StoredPiece::Vertex(code);
        let tie = Tie {
            from: 0,
            to: 0,
            label: code,
        };
        let pattern = StoredPattern {
            piece: 0,
            seats: ShortList::new(0),
        };
        Book {
            tables: Tables {
                pieces: ShortList::new(SizedPiece { piece, size: 0 }),
                ties: ShortList::new(tie),
                patterns: ShortList::new(pattern),
            },
        }
    }

    // The stored ties from one place on, that many.
    pub fn run_of_ties(&self, from: usize, count: usize) -> &[Tie<Code>]
        requires { from + count ≤ length self.now.tables.ties.items }
        ensures { result.now ≡ take count (drop from self.now.tables.ties.items) }
    {
        let ties = self.tables.ties.as_slice();
        &ties[from..from + count]
    }

    // The book with this pattern after the others.
    pub fn with_pattern(&self, pattern: StoredPattern) -> Book
        requires { can_add self.now.tables pattern ≡ true }
        ensures pieces { pieces_in result.tables ≡ pieces_in self.now.tables }
        ensures patterns { patterns_in result.tables ≡ patterns_in self.now.tables ++ pattern_of pattern ∷ [] }
    {
        let mut book = *self;
        book.tables.patterns.push(pattern);
        book
    }
}
