// How many vertices of each kind a sheet has.

ghost use Rattle.std.specs.Prelude.{◌≡◌, ℕ, ◌<◌, length, slice_index};
ghost use Rattle.verdicts.specs.Tallying.{kind_count};

use graphs::Pay;

// Counts vertices by kind: afterwards entry k of the counts says how many vertices are of kind k.
// A map of the kinds that there are would be no plainer: the rows that are printed go by kind from 0 on, and so does their definition.
pub fn tally(vertices: &[Pay], counts: &mut [usize])
    ensures { (k : ℕ) → k < length counts.old → slice_index counts.new k ≡ kind_count k vertices.now }
{
    counts.fill(0);
    for vertex in vertices {
        // No proof learns what a slice holds after a write by `get_mut`.
        let kind = vertex.kind as usize;
        if kind < counts.len() {
            counts[kind] += 1;
        }
    }
}
