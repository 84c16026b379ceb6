// The surface outside an edge of a candidate: its normal, and the weight of the bend between the two.
ghost use Rattle.std.specs.Prelude.{◌≡◌, ◌≤◌, ◌<◌};
ghost use Rattle.terms.specs.Limits.{max_vertices, max_bend_factor};
ghost use Rattle.terms.specs.Entries.{vertex_a, vertex_b, vertex_c};
ghost use Rattle.polygon.specs.Normal.{normal_at, NormalInRange};
ghost use Rattle.weights.specs.Weights.{vector_of};
ghost use Rattle.weights.specs.Edges.{edge_normal, edges_of, all_none, outside_weight_of};

use dihedrals::MeasuredNormal;
use geometry::{Vector, face};
use polygon::Polygon;
use polygon::normal::Normal;

// A function: neither type is of this crate, so that it cannot have an impl of From.
fn vector(normal: Normal) -> Vector
    ensures { result ≡ vector_of normal }
{
    Vector {
        x: i64::from(normal.x),
        y: i64::from(normal.y),
        z: i64::from(normal.z),
    }
}

// The normals outside the three edges of a candidate.
#[derive(Clone, Copy)]
pub(crate) struct EdgeNormals {
    pub ab: Normal,
    pub bc: Normal,
    pub ac: Normal,
}

impl EdgeNormals {
    // Has no edge a surface outside?
    pub(crate) fn all_none(self) -> bool
        ensures { result ≡ all_none self }
    {
        self.ab.is_none() && self.bc.is_none() && self.ac.is_none()
    }
}

// The normal outside the edge of vertices x < y.
fn edge_normal(p: &Polygon, x: usize, y: usize) -> Normal
    requires { (x < max_vertices) × (y < max_vertices) }
    ensures { result ≡ edge_normal p.now.n x y (normal_at p.now.normals x) (normal_at p.now.normals y) }
{
    if y == x + 1 {
        p.normals[x]
    } else if x == 0 && y + 1 == p.n {
        p.normals[y]
    } else {
        Normal::none()
    }
}

pub(crate) fn edge_normals(p: &Polygon, t: [u8; 3]) -> EdgeNormals
    requires { (vertex_a t < max_vertices) × (vertex_b t < max_vertices) × (vertex_c t < max_vertices) }
    ensures { result ≡ edges_of p.now t }
{
    let a = usize::from(t[0]);
    let b = usize::from(t[1]);
    let c = usize::from(t[2]);
    EdgeNormals {
        ab: edge_normal(p, a, b),
        bc: edge_normal(p, b, c),
        ac: edge_normal(p, a, c),
    }
}

// The weight of the bend between a triangle, by its normal, and the surface outside.
pub(crate) fn weight(factor: u32, inside: MeasuredNormal, outside: Normal) -> u32
    requires { (factor ≤ max_bend_factor) × (NormalInRange outside) }
    ensures { result ≡ outside_weight_of factor inside.normal outside }
{
    if outside.is_none() {
        return 0;
    }
    let k = vector(outside);
    let d = geometry::dot(inside.normal, k);
    face::bend_weight(factor, face::bend(d, inside.length, face::normal_length(k)))
}
