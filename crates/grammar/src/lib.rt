// The graph text, without code: what its lines say, and the definitions and laws of reading and writing it.
#![tactic(auto)]

mod records;

pub use records::{Counts, Range, Record, Stage};
