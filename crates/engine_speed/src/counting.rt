// A sheet that counts how often it is asked for a label or a tie.

use sheets::sheet::Sheet;
use std::cell::Cell;

#[derive(Drop)]
pub struct CountingSheet<'a, S> {
    pub below: &'a S,
    pub labels: Cell<u64>,
    pub ties: Cell<u64>,
}

impl<'a, S: Sheet> Sheet for CountingSheet<'a, S> {
    type Label = S::Label;

    ghost graph = { λ s. S.Sheet.graph s.below.now };

    ghost sound = { λ s. S.Sheet.sound s.below.now };

    fn size(&self) -> usize {
        self.below.size()
    }

    fn label(&self, vertex: usize) -> Option<S::Label> {
        self.labels.set(self.labels.get().wrapping_add(1));
        self.below.label(vertex)
    }

    fn tie(&self, from: usize, to: usize) -> Option<S::Label> {
        self.ties.set(self.ties.get().wrapping_add(1));
        self.below.tie(from, to)
    }
}
