// The plain types of a graph: labels and ties.
#![tactic(auto)]

ghost use Rattle.std.specs.Prelude.{◌≡◌};
ghost use Rattle.graphs.specs.Tables.{runs};

pub mod laws;

// The lowest and the highest code that the rules allow, and kind likewise.
pub const LOWEST_CODE: u32 = 1;

pub const HIGHEST_CODE: u32 = 9_999;

// A code: in a pattern, what a vertex or a tie is. The rules allow 1 to 9,999; the type holds any number, so that a call can refuse a bad one.
#[derive(Clone, Copy, PartialEq, Eq, Debug)]
pub struct Code {
    pub number: u32,
}

// A pay label: in a sheet, what a vertex or a tie is, and its amount. The rules allow kinds 1 to 9,999 and 0 to 999,999,999 pence.
#[derive(Clone, Copy, PartialEq, Eq, Debug)]
pub struct Pay {
    pub kind: u32,
    pub pence: u32,
}

// A tie with its label, from one vertex to another. Vertices are numbered from 0.
#[derive(Clone, Copy, PartialEq, Eq, Debug)]
pub struct Tie<L> {
    pub from: usize,
    pub to: usize,
    pub label: L,
}

impl<L> Tie<L> {
    // Whether the tie runs from the one vertex to the other.
    pub fn runs(&self, from: usize, to: usize) -> bool
        ensures { result ≡ runs from to self.now }
    {
        self.from == from && self.to == to
    }
}
