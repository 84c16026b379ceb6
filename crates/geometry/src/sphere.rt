// The sphere through four points and where a fifth lies. All points are seen from the first corner, the base.
ghost use Rattle.std.specs.Prelude.{◌≡◌};
ghost use Rattle.grid.specs.Point.{PointOnGrid};
ghost use Rattle.integers.specs.Bounds.{AtMost};
ghost use Rattle.geometry.specs.Bounds.{max_orient, max_centre, Within};
ghost use Rattle.geometry.specs.Lifting.{lift_of, pencil_of, turned, sphere_of, position_by};

use crate::{Vector, cross, difference, dot};
use grid::GridPoint;
use std::marker::Model;

// A point as seen from the base, with its squared distance: the lifting map of Delaunay triangulation.
#[derive(Clone, Copy)]
pub struct Lifted {
    pub vector: Vector,
    pub square: i64,
}

impl Model for Lifted {
    ghost use Rattle.geometry.specs.Values.{LiftedValue};

    ghost Value = { LiftedValue };

    ghost use Rattle.geometry.specs.Bounds.{LiftedBounds};

    ghost view = { λ a. record { vector = a.vector; square = a.square } };

    ghost inverse = { λ p. record { vector = p.vector; square = p.square } };

    ghost invariant = { λ a. LiftedBounds (record { vector = a.vector; square = a.square }) };
}

// What all spheres through the base, u and v share: u × v, and |u|² v - |v|² u.
#[derive(Clone, Copy)]
pub struct Pencil {
    pub normal: Vector,
    pub weighted: Vector,
}

impl Model for Pencil {
    ghost use Rattle.geometry.specs.Values.{PencilValue};

    ghost Value = { PencilValue };

    ghost use Rattle.geometry.specs.Bounds.{PencilBounds};

    ghost view = { λ a. record { normal = a.normal; weighted = a.weighted } };

    ghost inverse = { λ k. record { normal = k.normal; weighted = k.weighted } };

    ghost invariant = { λ a. PencilBounds (record { normal = a.normal; weighted = a.weighted }) };
}

// A sphere through the base and three more points: their orientation, not negative, and the centre times twice that.
#[derive(Clone, Copy)]
pub struct Sphere {
    pub orient: i64,
    pub centre: Vector,
}

impl Model for Sphere {
    ghost use Rattle.geometry.specs.Values.{SphereValue};

    ghost Value = { SphereValue };

    ghost use Rattle.geometry.specs.Bounds.{SphereBounds};

    ghost view = { λ a. record { orient = a.orient; centre = a.centre } };

    ghost inverse = { λ s. record { orient = s.orient; centre = s.centre } };

    ghost invariant = { λ a. SphereBounds (record { orient = a.orient; centre = a.centre }) };
}

#[derive(Clone, Copy, Debug, PartialEq, Eq)]
pub enum Position {
    Inside,
    On,
    Outside,
}

pub fn lift(base: GridPoint, p: GridPoint) -> Lifted
    requires { (PointOnGrid base) × (PointOnGrid p) }
    ensures { result ≡ lift_of base p }
{
    let vector = difference(p, base);
    let square = dot(vector, vector);
    Lifted { vector, square }
}

// Where four corners turn the other way all signs are changed, so that one comparison places a point.
fn turn(orient: i64, centre: Vector) -> Sphere
    requires { (AtMost max_orient orient) × (Within max_centre centre) }
    ensures { result ≡ turned orient centre }
{
    if orient < 0 {
        return Sphere {
            orient: -orient,
            centre: -centre,
        };
    }
    Sphere { orient, centre }
}

// Once for three corners.
pub fn pencil_through(u: Lifted, v: Lifted) -> Pencil
    ensures { result ≡ pencil_of u v }
{
    Pencil {
        normal: cross(u.vector, v.vector),
        weighted: u.square * v.vector - v.square * u.vector,
    }
}

// Once for four corners. Where they are in one plane the orientation is 0, and nothing more is computed.
pub fn circumsphere(pencil: Pencil, t: Lifted) -> Sphere
    ensures { result ≡ sphere_of pencil t }
{
    let orient = dot(pencil.normal, t.vector);
    if orient == 0 {
        let centre = Vector { x: 0, y: 0, z: 0 };
        return Sphere { orient: 0, centre };
    }
    let centre = cross(pencil.weighted, t.vector) + t.square * pencil.normal;
    turn(orient, centre)
}

// Where a point lies. Its meaning where the orientation is not 0: `position_is` of proofs/Spheres.antt.
pub fn locate(sphere: Sphere, w: Lifted) -> Position
    ensures { result ≡ position_by sphere w }
{
    let power = sphere.orient * w.square - dot(sphere.centre, w.vector);
    if power < 0 {
        return Position::Inside;
    }
    if power == 0 {
        return Position::On;
    }
    Position::Outside
}
