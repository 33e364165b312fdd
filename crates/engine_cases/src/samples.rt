// Small graphs with labels of any type: patterns written as numbers, and samples that the generator makes up.

ghost use Rattle.std.specs.Prelude.{◌≡◌, length, map, IfOk};
ghost use Rattle.engine_cases.specs.Patterns.{code_of, tie_of};

use crate::random::Random;
use graphs::{Code, Pay, Tie};
use sheets::table::TableSheet;
use std::alloc::{AllocError, Global};

// A tie of a pattern, in numbers: from, to, code.
pub type Link = (usize, usize, u32);

// Labels of the vertices, and ties.
#[derive(Drop)]
pub struct Sample<L> {
    pub labels: Vec<L>,
    pub ties: Vec<Tie<L>>,
}

impl<L> Sample<L> {
    // The table sheet of the labels and ties.
    pub fn sheet(&self) -> TableSheet<'_, L>
        ensures labels { result.labels.now ≡ self.now.labels.items }
        ensures ties { result.ties.now ≡ self.now.ties.items }
    {
        TableSheet {
            labels: self.labels.as_slice(),
            ties: self.ties.as_slice(),
        }
    }
}

// The pattern of these codes and ties.
pub fn pattern(heap: Global, codes: &[u32], links: &[Link]) -> Result<Sample<Code>, AllocError>
    ensures labels { IfOk result (λ s. s.labels.items ≡ map code_of codes.now) }
    ensures ties { IfOk result (λ s. s.ties.items ≡ map tie_of links.now) }
{
    let labels = codes.iter().map(|number| Code { number: *number });
    let labels = labels.collect(heap)?;
    let ties = links.iter().map(|(from, to, number)| Tie {
        from: *from,
        to: *to,
        label: Code { number: *number },
    });
    let ties = ties.collect(heap)?;
    Ok(Sample { labels, ties })
}

// A pay label without an amount.
pub fn pay(kind: u32) -> Pay
    ensures kind { result.kind ≡ kind }
    ensures pence { result.pence ≡ 0 }
{
    Pay { kind, pence: 0 }
}

// A label that can be made up.
pub trait Drawn: Copy {
    fn draw(random: &mut Random) -> Self;
}

impl Drawn for Code {
    fn draw(random: &mut Random) -> Code {
        Code {
            number: random.one_or_two(),
        }
    }
}

impl Drawn for Pay {
    fn draw(random: &mut Random) -> Pay {
        let kind = random.one_or_two();
        let pence = if random.below(2) == 0 { 100 } else { 900 };
        Pay { kind, pence }
    }
}

// A graph of n vertices with a tie between about one in `sparse` ordered pairs.
pub fn draw_sample<L: Drawn>(
    heap: Global,
    random: &mut Random,
    n: usize,
    sparse: u64,
) -> Result<Sample<L>, AllocError>
    ensures { IfOk result (λ s. length s.labels.items ≡ n) }
{
    let mut labels = Vec::new(heap);
    let mut ties = Vec::new(heap);
    for from in 0..n {
        labels.push(L::draw(random))?;
        for to in 0..n {
            if from != to && random.below(sparse) == 0 {
                let label = L::draw(random);
                ties.push(Tie { from, to, label })?;
            }
        }
    }
    Ok(Sample { labels, ties })
}
