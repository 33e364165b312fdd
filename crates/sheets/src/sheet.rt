// The questions that every kind of sheet answers.

ghost use Rattle.std.specs.Prelude.{◌≡◌};
ghost use Rattle.graphs.specs.Graphs.{Graph, Sound};

// A graph that can be asked. A question never refuses, answers what the graph says and leaves the sheet as it was.
pub trait Sheet {
    type Label: Copy;

    // The graph that the sheet means.
    ghost graph: { Self → Graph Self.Label };

    // Why it is a graph: each vertex has a label and nothing else has, and a tie runs between two different vertices.
    ghost sound: { (s : Self) → Sound (graph s) };

    // How many vertices there are. They are numbered from 0.
    fn size(&self) -> usize
        ensures { result ≡ (graph self.now).size };

    // The label of a vertex, or none where the sheet lacks the vertex.
    fn label(&self, vertex: usize) -> Option<Self::Label>
        ensures { result ≡ (graph self.now).label vertex };

    // The label of the tie that runs from one vertex to another, or none where there is no tie.
    fn tie(&self, from: usize, to: usize) -> Option<Self::Label>
        ensures { result ≡ (graph self.now).tie from to };
}
