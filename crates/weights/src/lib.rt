// The own weights of candidates: their area, and their bends against the surface outside the rim.
#![tactic(auto)]

mod outside;

ghost use Rattle.std.specs.Prelude.{◌≡◌};
ghost use Rattle.lists.specs.Lists.{filled};
ghost use Rattle.dihedrals.specs.Dihedrals.{face_normal};
ghost use Rattle.dihedrals.specs.Lists.{Corners, Measured};
ghost use Rattle.weights.specs.Weights.{weights_of};
ghost use Rattle.weights.specs.Edges.{edges_of, own_weight_of, WeightsFrom};

use dihedrals::MeasuredNormal;
use geometry::face;
use polygon::rim::Rim;

// The own weight of a candidate, by the length of its normal, which is made anew only where an edge has a surface outside.
fn own_weight(rim: &Rim, t: [u8; 3], length: u32) -> u32
    requires { (Corners rim.now.polygon t) × (Measured (face_normal rim.now.polygon t) length) }
    ensures { result ≡ own_weight_of rim.now.polygon.area_factor rim.now.polygon.bend_factor
        (face_normal rim.now.polygon t) (edges_of rim.now.polygon t) }
{
    let p = &rim.polygon;
    let area = face::area_weight(p.area_factor, length);
    let edges = outside::edge_normals(p, t);
    if edges.all_none() {
        return area;
    }
    let inside = MeasuredNormal {
        normal: dihedrals::normal(&p.vertices, t),
        length,
    };
    area + outside::weight(p.bend_factor, inside, edges.ab)
        + outside::weight(p.bend_factor, inside, edges.bc)
        + outside::weight(p.bend_factor, inside, edges.ac)
}

// From the lengths of the candidates' normals, in the first places, to the own weights.
pub fn write_weights(rim: &Rim, candidates: &[[u8; 3]], weights: &mut [u32])
    requires { WeightsFrom rim.now.polygon candidates.now weights.old }
    ensures { weights.new ≡ filled (weights_of rim.now.polygon candidates.now) weights.old }
{
    for (i, t) in candidates.iter().enumerate() {
        weights[i] = own_weight(rim, *t, weights[i]);
    }
}
