// The circle through three points in their plane. It is seen along an axis that is not in the plane, with the squared lengths in space: a sphere of
// `geometry::sphere` whose fourth corner is the direction of the axis. So the same functions compute it, and place points.
#![tactic(auto)]

ghost use Rattle.std.specs.Prelude.{◌≡◌};
ghost use Rattle.geometry.specs.Bounds.{max_normal, Within};
ghost use Rattle.planar.specs.Seen.{Across, circle_of};

use geometry::sphere::{Lifted, Sphere};
use geometry::{Vector, sphere};

// The direction of the first axis along which a normal does not vanish.
fn axis_across(normal: Vector) -> Vector
    requires { Within max_normal normal }
    ensures { Across normal result }
{
    if normal.x != 0 {
        return Vector { x: 1, y: 0, z: 0 };
    }
    if normal.y != 0 {
        return Vector { x: 0, y: 1, z: 0 };
    }
    Vector { x: 0, y: 0, z: 1 }
}

// The circle through the base, u and v. Its orientation is 0 where they are on one line; where a point of their plane lies is what
// `sphere::locate` says: `circle_position_is` of proofs/Seen.antt.
pub fn circle_through(u: Lifted, v: Lifted) -> Sphere
    ensures { result ≡ circle_of u v }
{
    let pencil = sphere::pencil_through(u, v);
    let axis = Lifted {
        vector: axis_across(pencil.normal),
        square: 0,
    };
    sphere::circumsphere(pencil, axis)
}
