// The candidates of a polygon: the faces of its Delaunay tetrahedra or, where it is flat, its Delaunay triangles.
#![tactic(auto)]

ghost use Rattle.std.specs.Prelude.{◌≡◌};
ghost use Rattle.delaunay_search.specs.Search.{Marked};
ghost use Rattle.delaunay.specs.Candidates.{is_flat, is_candidate, degenerate};

use codes::Refusal;
use delaunay_search::lift_vertices;
use faces::TriangleSet;
use geometry::sphere;
use polygon::rim::Rim;

// Are all vertices in one plane? They are where every two more are in one plane with vertices 0 and 1, which are two points.
fn is_flat(rim: &Rim) -> bool
    ensures { result ≡ is_flat rim.now.polygon }
{
    let n = rim.polygon.n;
    let table = lift_vertices(rim, 0);
    let lifted = &table[..];
    // A loop over the number c: each vertex after it is looked at with it.
    for c in 2..n {
        let pencil = sphere::pencil_through(lifted[1], lifted[c]);
        for seen in &lifted[c + 1..n] {
            let ball = sphere::circumsphere(pencil, *seen);
            if ball.orient != 0 {
                return false;
            }
        }
    }
    true
}

// Puts the candidates into the set. Where 12 is due, the set is left empty.
pub fn mark_candidates(rim: &Rim, set: &mut TriangleSet) -> Result<(), Refusal>
    ensures { Marked (is_candidate rim.now.polygon) (degenerate rim.now.polygon) set.old result set.new }
{
    if is_flat(rim) {
        delaunay_triangles::mark_triangles(rim, set)
    } else {
        delaunay_tetrahedra::mark_tetrahedra(rim, set)
    }
}
