// Sheets and keys tried on examples.
#![tactic(auto)]

#[cfg(test)]
mod keys_answer;
#[cfg(test)]
mod parts_answer;
#[cfg(test)]
mod samples;
#[cfg(test)]
mod tables_answer;
