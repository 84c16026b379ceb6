// The surface that adjoins an edge of the rim, by its normal.
ghost use Rattle.std.specs.Prelude.{◌≡◌};
ghost use Rattle.polygon.specs.Normal.{no_normal, is_none, normal_in_range};

use grid::GridPoint;

// A normal as the file holds it: three whole numbers, all 0 where there is no surface.
#[derive(Clone, Copy, Debug, PartialEq, Eq)]
pub struct Normal {
    pub x: i16,
    pub y: i16,
    pub z: i16,
}

impl Normal {
    pub fn none() -> Normal
        ensures { result ≡ no_normal }
    {
        Normal { x: 0, y: 0, z: 0 }
    }

    // Are all three numbers 0?
    #[tactic(auto, using(crate::proofs::Normals::none_test))]
    pub fn is_none(self) -> bool
        ensures { result ≡ is_none self }
    {
        self == Normal::none()
    }

    // Is each number from -1000 to 1000, as the coordinates of a grid point are?
    pub fn in_range(self) -> bool
        ensures { result ≡ normal_in_range self }
    {
        GridPoint::coordinates_on_grid(i64::from(self.x), i64::from(self.y), i64::from(self.z))
    }
}
