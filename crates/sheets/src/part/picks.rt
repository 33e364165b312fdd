// The picks of a part: none at first, then one more at a time.

ghost use Rattle.std.specs.Prelude.{◌≡◌, false, [], is_ok};
ghost use Rattle.sheets.specs.Parts.{picks_of};
ghost use Rattle.sheets.specs.Picks.{above_last, answered, picks_after};

use crate::part::{MOST_PICKS, Part};
use crate::refusal::PickRefusal;
use crate::sheet::Sheet;

impl<S> Part<S> {
    // The part of a sheet with nothing picked yet.
    pub fn new(below: S) -> Part<S>
        ensures sheet { result.below ≡ below }
        ensures picks { picks_of result ≡ [] }
    {
        Part {
            below,
            array: [0; MOST_PICKS],
            count: 0,
        }
    }

    // The sheet that the part was taken of. The picks are let go.
    pub fn into_sheet(self) -> S
        ensures { result ≡ self.below }
    {
        let Part {
            below,
            array: _,
            count: _,
        } = self;
        below
    }

    // The picks so far.
    pub(super) fn picks(&self) -> &[usize]
        ensures { result.now ≡ picks_of self.now }
    {
        &self.array[..self.count]
    }

    // Whether the vertex is above the last pick. Every vertex is, where nothing is picked.
    fn is_above_last(&self, vertex: usize) -> bool
        ensures { result ≡ above_last (picks_of self.now) vertex }
    {
        self.picks().last().is_none_or(|last| *last < vertex)
    }
}

impl<S: Sheet> Part<S> {
    // What a pick of the vertex is answered.
    fn answer(&self, vertex: usize) -> Result<(), PickRefusal>
        ensures { result ≡ answered (S.Sheet.graph self.now.below).size (picks_of self.now) vertex }
    {
        if !self.is_above_last(vertex) {
            return Err(PickRefusal::NotAboveLast);
        }
        if vertex >= self.below.size() {
            return Err(PickRefusal::NotInSheet);
        }
        if self.count >= MOST_PICKS {
            return Err(PickRefusal::TooMany);
        }
        Ok(())
    }

    // Adds the vertex of the sheet below as the last pick. Refuses, and leaves the part as it was, when the vertex is not above the last pick, is not in the sheet, or would be the 257th.
    pub fn pick(&mut self, vertex: usize) -> Result<(), PickRefusal>
        ensures answer { result ≡ answered (S.Sheet.graph self.old.below).size (picks_of self.old) vertex }
        ensures sheet { self.new.below ≡ self.old.below }
        ensures picks { picks_of self.new ≡ picks_after (S.Sheet.graph self.old.below).size (picks_of self.old) vertex }
        ensures refused { is_ok result ≡ false → self.new ≡ self.old }
    {
        self.answer(vertex)?;
        let count = self.count;
        self.array[count] = vertex;
        self.count = count + 1;
        Ok(())
    }
}
