// The plain types of a book's answers: why a call refuses. The definitions and laws of pieces, cutting, ledger and sweeping stand in specs/ and proofs/.
#![tactic(auto)]

pub mod book;
pub mod laws;
pub mod tables;

// Why an enter is refused.
#[derive(Clone, Copy, PartialEq, Eq, Debug)]
pub enum EnterRefusal {
    // the pattern has no vertex or over 10, a bad code, or a tie that is out of range, to itself or repeated
    BadPattern,
    // the book would pass one of its limits
    BookFull,
}

// Why a sweep is refused.
#[derive(Clone, Copy, PartialEq, Eq, Debug)]
pub enum SweepRefusal {
    SheetTooLarge,
    // the work list or the row list
    ListTooLong,
    // the weight is over the work list's length
    TooHeavy,
    // the rows have more numbers than the row list holds
    RowsTooMany,
}

// Why a seek is refused.
#[derive(Clone, Copy, PartialEq, Eq, Debug)]
pub enum SeekRefusal {
    NoSuchPattern,
    SheetTooLarge,
    // the row list is shorter than the pattern's vertices
    RowTooLong,
}
