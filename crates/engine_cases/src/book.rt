// Patterns that are cut and added to a book.

ghost use Rattle.std.specs.Prelude.{◌≡◌, ◌+◌, length, IfOk};
ghost use Rattle.network.specs.Tables.{patterns_in};

use crate::samples::Sample;
use cutting::cut_pattern;
use graphs::Code;
use network::EnterRefusal;
use network::book::Book;

// The book with the pattern cut and added after the others.
pub fn with_sample(book: &Book, pattern: &Sample<Code>) -> Result<Book, EnterRefusal>
    ensures { IfOk result (λ b. length (patterns_in b.tables) ≡ length (patterns_in book.now.tables) + 1) }
{
    let cut = cut_pattern(book, pattern.labels.as_slice(), pattern.ties.as_slice())?;
    Ok(cut.book.with_pattern(cut.pattern))
}
