// The verdict on a sheet: whether it is good, how much of what it has, or exactly what is wrong with it.
#![tactic(auto)]

mod judging;
mod showing;
mod tallying;
mod wording;

pub use judging::{MOST_FILE_BYTES, MOST_ROWS, judge};
pub use showing::shown;
pub use tallying::tally;
pub use wording::verdict;
