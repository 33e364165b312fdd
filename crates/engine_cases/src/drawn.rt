// Books whose patterns the generator makes up.

use crate::book::with_sample;
use crate::random::Random;
use crate::samples::{Sample, draw_sample};
use graphs::Code;
use network::book::Book;
use std::alloc::Global;
use std::test::Fail;

// A book, and its patterns in the order of their numbers.
#[derive(Drop)]
pub struct DrawnBook {
    pub book: Book,
    pub patterns: Vec<Sample<Code>>,
}

impl DrawnBook {
    // Three patterns of one to four vertices, and a book of them.
    pub(crate) fn draw(heap: Global, random: &mut Random) -> Result<DrawnBook, Fail> {
        let mut book = Book::blank();
        let mut patterns = Vec::new(heap);
        for _ in 0..3 {
            let n = (random.below(4) as usize).saturating_add(1);
            let pattern = draw_sample(heap, random, n, 3)?;
            book = with_sample(&book, &pattern)?;
            patterns.push(pattern)?;
        }
        Ok(DrawnBook { book, patterns })
    }
}
