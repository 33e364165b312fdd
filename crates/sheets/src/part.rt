// The part: a sheet with some of its vertices picked.

ghost use Rattle.std.specs.Prelude.{◌≡◌, ◌≤◌, length, take};
ghost use Rattle.graphs.specs.Parts.{Rising};
ghost use Rattle.sheets.specs.Picks.{most_picks};

mod answers;
mod picks;

pub use answers::part_of_part_is_a_part;

// How many picks a part holds at most.
pub const MOST_PICKS: usize = 256;

// A sheet with some of its vertices picked, in strictly ascending order. The part is the sheet of the picked ones: its vertex i is pick i, with the labels and ties of the sheet below.
// They are an array and a count: with a short list in it, a part of a part could not be moved, as no borrow proof covers that.
#[derive(Drop)]
pub struct Part<S> {
    below: S,
    array: [usize; MOST_PICKS],
    count: usize,
    ghost long: { length array ≡ most_picks },
    ghost few: { count ≤ most_picks },
    ghost ascending: { Rising (take count array) },
}
