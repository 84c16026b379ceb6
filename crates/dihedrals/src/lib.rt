// The lengths of the candidates' normals, and the rows of hanging pairs with the weight of the bend at their common edge.
#![tactic(auto)]

ghost use Rattle.std.specs.Prelude.{◌≡◌, [], ◌∷◌, ◌<◌, ◌≤◌, length};
ghost use Rattle.terms.specs.Limits.{max_triples, max_bend_factor};
ghost use Rattle.lists.specs.Lists.{filled};
ghost use Rattle.geometry.specs.Faces.{bend_between, bend_weight_of};
ghost use Rattle.dihedrals.specs.Dihedrals.{normal_in, lengths_of, rows_of};
ghost use Rattle.dihedrals.specs.Lists.{ProperCandidates, CornersOnGrid, Measured, RowsFrom};

use geometry::{Vector, face};
use grid::GridPoint;
use polygon::Polygon;

// The normal of a triangle, with its length.
#[derive(Clone, Copy)]
pub struct MeasuredNormal {
    pub normal: Vector,
    pub length: u32,
    pub ghost measured: { Measured normal length },
}

// The normal of a candidate.
pub fn normal(vertices: &[GridPoint; terms::MAX_VERTICES], t: [u8; 3]) -> Vector
    requires { CornersOnGrid vertices.now t }
    ensures { result ≡ normal_in vertices.now t }
{
    face::normal(
        vertices[usize::from(t[0])],
        vertices[usize::from(t[1])],
        vertices[usize::from(t[2])],
    )
}

// The lengths of the candidates' normals.
pub fn write_lengths(p: Polygon, candidates: &[[u8; 3]], out: &mut [u32])
    requires { (ProperCandidates p candidates.now) × (length candidates.now ≤ length out.old) }
    ensures { out.new ≡ filled (lengths_of p candidates.now) out.old }
{
    // By place, not zipped with the table: of what `iter_mut` gave out a proof knows only the table's length.
    for (i, t) in candidates.iter().enumerate() {
        out[i] = face::normal_length(normal(&p.vertices, *t));
    }
}

// The row of outer o and inner i, by their normals.
fn row(factor: u32, o: usize, outer: MeasuredNormal, i: usize, inner: MeasuredNormal) -> [u32; 3]
    requires { (factor ≤ max_bend_factor) × (o < max_triples) × (i < max_triples) }
    ensures { result ≡ o ∷ i ∷ bend_weight_of factor (bend_between inner.normal outer.normal) ∷ [] }
{
    let d = geometry::dot(inner.normal, outer.normal);
    let weight = face::bend_weight(factor, face::bend(d, inner.length, outer.length));
    [o as u32, i as u32, weight]
}

// The rows. An inner candidate begins and ends where the outer's edge (a, b) or (b, c) does, so it stands in the block of that edge's first vertex.
pub fn write_rows(
    p: Polygon,
    candidates: &[[u8; 3]],
    starts: &[usize; blocks::STARTS],
    lengths: &[u32],
    out: &mut [[u32; 3]],
)
    requires { RowsFrom p candidates.now starts.now lengths.now out.old }
    ensures { out.new ≡ filled (rows_of p candidates.now) out.old }
{
    let mut count: usize = 0;
    for (o, t) in candidates.iter().enumerate() {
        let outer = MeasuredNormal {
            normal: normal(&p.vertices, *t),
            length: lengths[o],
        };
        // Index loops: an edge is two neighbouring places of the triple, and an inner is named in its row by its place in two tables.
        for edge in 0..2 {
            let first = usize::from(t[edge]);
            let last = t[edge + 1];
            let end = starts[first + 1];
            for i in starts[first]..end {
                let s = candidates[i];
                if s[2] == last {
                    let inner = MeasuredNormal {
                        normal: normal(&p.vertices, s),
                        length: lengths[i],
                    };
                    out[count] = row(p.bend_factor, o, outer, i, inner);
                    count += 1;
                }
            }
        }
    }
}
