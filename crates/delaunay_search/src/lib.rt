// What the two searches share: the vertices as seen from one of them, and the turns of a scan over them.
#![tactic(auto)]

ghost use Rattle.std.specs.Prelude.{◌≡◌, not, ◌<◌};
ghost use Rattle.lists.specs.Lists.{both};
ghost use Rattle.faces.specs.Faces.{is_one_of};
ghost use Rattle.delaunay_search.specs.Search.{Lifts, is_on, scanned_at};

use geometry::sphere;
use geometry::sphere::{Lifted, Position};
use polygon::rim::Rim;

// The vertices as seen from vertex a.
pub fn lift_vertices(rim: &Rim, a: usize) -> [Lifted; terms::MAX_VERTICES]
    requires { a < rim.now.polygon.n }
    ensures { Lifts rim.now.polygon a result }
{
    let p = &rim.polygon;
    let n = p.n;
    let base = p.vertices[a];
    let own = sphere::lift(base, base);
    let mut lifted = [own; terms::MAX_VERTICES];
    for (v, vertex) in p.vertices[..n].iter().enumerate() {
        lifted[v] = sphere::lift(base, *vertex);
    }
    lifted
}

fn is_corner(a: usize, b: usize, c: usize, v: usize) -> bool
    ensures { result ≡ is_one_of a b c v }
{
    v == a || v == b || v == c
}

// Is vertex v, which lies at this place, on the sphere or the circle, and none of three corners?
pub fn is_fourth(place: Position, a: usize, b: usize, c: usize, v: usize) -> bool
    ensures { result ≡ both (not (is_one_of a b c v)) (is_on place) }
{
    place == Position::On && !is_corner(a, b, c, v)
}

// The vertex to look at in turn i of a scan: the one that dropped the last four or three, then all in their order.
pub fn scanned(last: usize, i: usize) -> usize
    ensures { result ≡ scanned_at last i }
{
    if i == 0 { last } else { i - 1 }
}
