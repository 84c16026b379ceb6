// The Delaunay triangles of a flat polygon: the threes that count.
#![tactic(auto)]

ghost use Rattle.polygon.specs.Polygon.{vertex};
ghost use Rattle.planar.specs.Planes.{InOnePlane};
ghost use Rattle.delaunay_triangles.specs.Triangles.{is_counted_three, cocircular};
ghost use Rattle.delaunay_search.specs.Search.{Marked};

use codes::Refusal;
use delaunay_search::{is_fourth, lift_vertices, scanned};
use faces::TriangleSet;
use geometry::sphere;
use geometry::sphere::Position;
use polygon::rim::Rim;

// Puts the threes that count into the set, up to the first that has a fourth vertex on its circle: 12 is due there, and the set is emptied. The vertex
// that dropped the last three is looked at first. The loops run through the numbers a < b < c of vertices, which go into the set, and through the
// turns of a scan, not through a table.
pub fn mark_triangles(rim: &Rim, set: &mut TriangleSet) -> Result<(), Refusal>
    requires { InOnePlane (vertex rim.now.polygon) rim.now.polygon.n }
    ensures { Marked (is_counted_three rim.now.polygon) (cocircular rim.now.polygon) set.old result set.new }
{
    let n = rim.polygon.n;
    let mut last = 0;
    for a in 0..n - 2 {
        let lifted = lift_vertices(rim, a);
        for b in a + 1..n - 1 {
            'three: for c in b + 1..n {
                let circle = planar::circle_through(lifted[b], lifted[c]);
                if circle.orient == 0 {
                    continue 'three;
                }
                for i in 0..n + 1 {
                    let v = scanned(last, i);
                    if sphere::locate(circle, lifted[v]) == Position::Inside {
                        last = v;
                        continue 'three;
                    }
                }
                for (w, seen) in lifted[..n].iter().enumerate() {
                    if is_fourth(sphere::locate(circle, *seen), a, b, c, w) {
                        set.clear();
                        return Err(Refusal::COSPHERICAL);
                    }
                }
                set.insert(a, b, c);
            }
        }
    }
    Ok(())
}
