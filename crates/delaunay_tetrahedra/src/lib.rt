// The Delaunay tetrahedra of a polygon that is not flat: the fours that count, and their faces.
#![tactic(auto)]

ghost use Rattle.std.specs.Prelude.{◌≡◌, not, true, ◌≤◌, ◌<◌, eqb};
ghost use Rattle.terms.specs.Limits.{max_vertices};
ghost use Rattle.geometry.specs.Facets.{refuted_by};
ghost use Rattle.lists.specs.Lists.{both, either};
ghost use Rattle.faces.specs.Faces.{is_one_of};
ghost use Rattle.delaunay_tetrahedra.specs.Tetrahedra.{is_face_of_four, cospherical};
ghost use Rattle.delaunay_search.specs.Search.{Marked, is_on};

use codes::Refusal;
use delaunay_search::{is_fourth, lift_vertices, scanned};
use faces::TriangleSet;
use geometry::sphere::{Lifted, Pencil, Position};
use geometry::{facet, sphere};
use polygon::rim::Rim;

// Is vertex v, which lies at this place, a fifth on the sphere of the four corners?
fn is_fifth(place: Position, a: usize, b: usize, c: usize, d: usize, v: usize) -> bool
    ensures { result ≡ both (not (either (is_one_of a b c v) (eqb v d))) (is_on place) }
{
    v != d && is_fourth(place, a, b, c, v)
}

// Do two vertices that an earlier three was left for, or dropped by, refute this one? Asked where six vertices or more come after c: fewer are tried sooner.
fn still_refuted(n: usize, c: usize, pencil: Pencil, one: Lifted, other: Lifted) -> bool
    requires { (n ≤ max_vertices) × (c < n) }
    ensures { result ≡ true → refuted_by pencil one other ≡ true }
{
    c + 6 < n && facet::refuted_by(pencil, one, other)
}

// Puts the faces of the fours that count into the set, up to the first four that has a fifth vertex on its sphere: 12 is due there, and the set is
// emptied. A vertex inside the sphere drops the four; where the plane of (a, b, c) separates it from d, no four of this three counts, and the three is
// left. The vertex that dropped the last four is looked at first, and with the d of the last three that was left it is tried on the next one.
// The loops run through the numbers a < b < c < d of vertices, which go into the set, and through the turns of a scan, not through a table.
pub fn mark_tetrahedra(rim: &Rim, set: &mut TriangleSet) -> Result<(), Refusal>
    ensures { Marked (is_face_of_four rim.now.polygon) (cospherical rim.now.polygon) set.old result set.new }
{
    let n = rim.polygon.n;
    let mut last = 0;
    let mut apex = 0;
    for a in 0..n - 3 {
        let lifted = lift_vertices(rim, a);
        for b in a + 1..n - 2 {
            'three: for c in b + 1..n - 1 {
                let pencil = sphere::pencil_through(lifted[b], lifted[c]);
                if still_refuted(n, c, pencil, lifted[apex], lifted[last]) {
                    continue 'three;
                }
                'four: for d in c + 1..n {
                    let ball = sphere::circumsphere(pencil, lifted[d]);
                    if ball.orient == 0 {
                        continue 'four;
                    }
                    for i in 0..n + 1 {
                        let v = scanned(last, i);
                        if sphere::locate(ball, lifted[v]) == Position::Inside {
                            last = v;
                            if facet::separates(pencil, lifted[d], lifted[v]) {
                                apex = d;
                                continue 'three;
                            }
                            continue 'four;
                        }
                    }
                    for (v, seen) in lifted[..n].iter().enumerate() {
                        if is_fifth(sphere::locate(ball, *seen), a, b, c, d, v) {
                            set.clear();
                            return Err(Refusal::COSPHERICAL);
                        }
                    }
                    set.insert_faces(a, b, c, d);
                }
            }
        }
    }
    Ok(())
}
