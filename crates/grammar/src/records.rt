// What a line of a graph text says, and how far a reader has come.

use graphs::Tie;

// The numbers from `start` up to, and without, `end`. The library's range would do, but it is no copy.
#[derive(Clone, Copy, PartialEq, Eq, Debug)]
pub struct Range {
    pub start: usize,
    pub end: usize,
}

// How far a text is read: nothing yet, its head, some of its ties, or its end.
#[derive(Clone, Copy, PartialEq, Eq, Debug)]
pub enum Stage {
    Opening,
    Vertices,
    Ties,
    Closed,
}

// What a line says: that a graph text begins, a vertex by its label, a tie, or that the text ends.
#[derive(Clone, Copy, PartialEq, Eq, Debug)]
pub enum Record<L> {
    Graph,
    Vertex(L),
    Tied(Tie<L>),
    End,
}

// A count of vertices and a count of ties.
#[derive(Clone, Copy, PartialEq, Eq, Debug)]
pub struct Counts {
    pub vertices: usize,
    pub ties: usize,
}
