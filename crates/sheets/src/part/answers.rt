// What a part answers: it is a sheet again, so parts may be taken of parts.

ghost use Rattle.graphs.proofs.Parts.{part_sound};
ghost use Rattle.graphs.specs.Parts.{part_graph, PartOfPart};
ghost use Rattle.sheets.specs.Parts.{picks_of};

use crate::part::Part;
use crate::sheet::Sheet;

impl<S: Sheet> Sheet for Part<S> {
    type Label = S::Label;

    ghost graph = { λ p. part_graph (S.Sheet.graph p.below) (picks_of p) };

    ghost sound = { λ p. part_sound (S.Sheet.graph p.below) (picks_of p) p.ascending (S.Sheet.sound p.below) };

    fn size(&self) -> usize {
        let size_below = self.below.size();
        let picks = self.picks();
        let mut size = 0;
        // `filter` with `count` takes nearly three times as long.
        for pick in picks {
            if *pick < size_below {
                size += 1;
            }
        }
        size
    }

    fn label(&self, vertex: usize) -> Option<S::Label> {
        let pick = self.picks().get(vertex)?;
        self.below.label(*pick)
    }

    fn tie(&self, from: usize, to: usize) -> Option<S::Label> {
        let picks = self.picks();
        let (from_pick, to_pick) = (picks.get(from)?, picks.get(to)?);
        self.below.tie(*from_pick, *to_pick)
    }
}

// The graph of a part of a part is that of a part of the sheet below both, by the picks of picks. The function carries this law, and does nothing.
pub fn part_of_part_is_a_part<S: Sheet>(part: &Part<Part<S>>)
    ensures { PartOfPart (S.Sheet.graph part.now.below.below) (picks_of part.now.below) (picks_of part.now) }
{
    let _ = part;
}
