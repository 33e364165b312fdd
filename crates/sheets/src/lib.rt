// Sheets: graphs that can be asked.
#![tactic(auto)]

pub mod part;
pub mod refusal;
pub mod sheet;
pub mod table;
