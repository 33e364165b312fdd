// The smallest readings and writings of a text: pieces between separators, numbers, and lines of numbers.
#![tactic(auto)]

mod numbers;
mod pieces;
mod writing;

pub use numbers::parse_number;
pub use pieces::{Piece, Pieces};
pub use writing::{TooShort, write_line};
