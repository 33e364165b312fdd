// Graph texts tried on examples.
#![tactic(auto)]

#[cfg(test)]
mod lists_filled;
#[cfg(test)]
mod long_texts;
#[cfg(test)]
mod pointed_at;
#[cfg(test)]
mod refusals;
#[cfg(test)]
mod samples;
