// Reads graph texts for every label type, points at what is faulty in one, and writes refusal lines.
#![tactic(auto)]

mod labels;
mod lines;
mod pointer;
mod reader;
mod refusals;

pub use labels::Label;
pub use pointer::point;
pub use reader::{MOST_BYTES, read_graph};
pub use refusals::write_refusal;
