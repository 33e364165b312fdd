// Tests of cutting, filling and writing beside a simple matcher that tries every row, and the books and samples that they use.
#![tactic(auto)]

pub mod book;
#[cfg(test)]
mod cases;
#[cfg(test)]
mod compared;
#[cfg(test)]
mod drawn;
#[cfg(test)]
mod matcher;
pub mod random;
pub mod samples;
#[cfg(test)]
mod worked;
