// The table sheet: a sheet on the caller's lists of vertex labels and ties.

ghost use Rattle.std.specs.Prelude.{◌≡◌};
ghost use Rattle.graphs.proofs.Tables.{table_sound};
ghost use Rattle.graphs.specs.Tables.{first_tie, table_graph};

use crate::sheet::Sheet;
use graphs::Tie;

// A sheet with a vertex for each label. The first row with that from and that to decides on a tie. Rows from a vertex to itself, or that name a missing vertex, count for nothing.
#[derive(Clone, Copy)]
pub struct TableSheet<'a, L> {
    pub labels: &'a [L],
    pub ties: &'a [Tie<L>],
}

// The label of the first tie of the list that runs from the one vertex to the other.
pub fn first_tie<L: Copy>(ties: &[Tie<L>], from: usize, to: usize) -> Option<L>
    ensures { result ≡ first_tie ties.now from to }
{
    ties.iter()
        .find(|tie| tie.runs(from, to))
        .map(|tie| tie.label)
}

impl<'a, L: Copy> Sheet for TableSheet<'a, L> {
    type Label = L;

    ghost graph = { λ s. table_graph s.labels.now s.ties.now };

    ghost sound = { λ s. table_sound s.labels.now s.ties.now };

    fn size(&self) -> usize {
        self.labels.len()
    }

    fn label(&self, vertex: usize) -> Option<L> {
        self.labels.get(vertex).copied()
    }

    fn tie(&self, from: usize, to: usize) -> Option<L> {
        let size = self.labels.len();
        if from < size && to < size && from != to {
            first_tie(self.ties, from, to)
        } else {
            None
        }
    }
}
