// Pieces of a book as sheets, their first occurrences, and likeness.
#![tactic(auto)]

pub mod alike;
pub mod first;
pub mod piece;
