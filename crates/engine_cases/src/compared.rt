// The rows that are listed of a book's patterns, beside those that the matcher finds.

use crate::drawn::DrawnBook;
use crate::matcher::Matcher;
use crate::samples::Sample;
use graphs::Code;
use keys::Key;
use sheets::sheet::Sheet;
use std::alloc::Global;
use std::process::Abort;
use std::test::Fail;
use writing::{Listing, list_rows};

// How long the work list and the row list of a comparison are.
const ROOM: usize = 20_000;

// What is compared: the patterns of a book, the numbers that are listed of them, and the sheet and the key that they are listed for.
#[derive(Clone, Copy)]
struct Compared<'a, S, K> {
    patterns: &'a [Sample<Code>],
    numbers: &'a [usize],
    sheet: &'a S,
    key: &'a K,
}

impl<'a, S: Sheet, K: Key<S::Label>> Compared<'a, S, K> {
    // How often the row is listed for the pattern of this number.
    fn times_listed(&self, number: usize, row: &[usize]) -> usize {
        // a `while let`, since each row is as long as its pattern asks
        let mut rest = self.numbers;
        let mut times = 0;
        while let Some((first, after)) = rest.split_first() {
            let Some(pattern) = self.patterns.get(*first) else {
                return times;
            };
            let Some((listed, later)) = after.split_at_checked(pattern.labels.len()) else {
                return times;
            };
            if *first == number && listed == row {
                times += 1;
            }
            rest = later;
        }
        times
    }

    // Checks that each occurrence of the pattern of this number is listed once, and says how many there are.
    fn check_pattern(
        &self,
        rt: &impl Abort,
        heap: Global,
        number: usize,
        pattern: &Sample<Code>,
    ) -> Result<usize, Fail> {
        let matcher = Matcher {
            pattern,
            sheet: self.sheet,
            key: self.key,
        };
        let mut found: usize = 0;
        for tried in 0..matcher.row_numbers() {
            let row = matcher.row_of_number(heap, tried)?;
            if matcher.is_occurrence(row.as_slice()) {
                assert_eq!(rt; self.times_listed(number, row.as_slice()), 1);
                found = found.saturating_add(1);
            }
        }
        Ok(found)
    }
}

// Checks that what is listed of the book's patterns is each occurrence once and nothing else, and that the work list is all zeros then.
pub(crate) fn check_listing<S: Sheet, K: Key<S::Label>>(
    rt: &impl Abort,
    heap: Global,
    drawn: &DrawnBook,
    sheet: &S,
    key: &K,
) -> Result<(), Fail> {
    let mut work = vec![in heap; 0; ROOM]?;
    let mut rows = vec![in heap; 0; ROOM]?;
    let listing = list_rows(
        &drawn.book,
        sheet,
        key,
        work.as_mut_slice(),
        rows.as_mut_slice(),
    )?;
    let Some(numbers) = rows.as_slice().get(..listing.numbers) else {
        return Err(Fail::new("more numbers than the row list has"));
    };
    let patterns = drawn.patterns.as_slice();
    let compared = Compared {
        patterns,
        numbers,
        sheet,
        key,
    };
    let mut total: usize = 0;
    for (number, pattern) in patterns.iter().enumerate() {
        let found = compared.check_pattern(rt, heap, number, pattern)?;
        total = total.saturating_add(found);
    }
    assert_eq!(rt; total, listing.rows);
    for left in work.as_slice() {
        assert_eq!(rt; *left, 0);
    }
    Ok(())
}
