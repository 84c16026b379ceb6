// Two points that show that a triangle is a face of no empty sphere. The triangle is given by the pencil of the spheres through its corners.
ghost use Rattle.std.specs.Prelude.{◌≡◌};
ghost use Rattle.geometry.specs.Facets.{separates_by, refuted_by};

use crate::dot;
use crate::sphere::{Lifted, Pencil, Position, circumsphere, locate};

// Does the triangle's plane separate w from s? s is off it then, and w in it or on its other side.
pub fn separates(pencil: Pencil, s: Lifted, w: Lifted) -> bool
    ensures { result ≡ separates_by pencil s w }
{
    let i = dot(pencil.normal, s.vector);
    let j = dot(pencil.normal, w.vector);
    if i < 0 { 0 <= j } else { 0 < i && j <= 0 }
}

// Is w separated from s, and strictly inside the sphere through s? No empty sphere has the triangle then: `no_empty_sphere` of proofs/Facets.antt.
pub fn refuted_by(pencil: Pencil, s: Lifted, w: Lifted) -> bool
    ensures { result ≡ refuted_by pencil s w }
{
    separates(pencil, s, w) && locate(circumsphere(pencil, s), w) == Position::Inside
}
