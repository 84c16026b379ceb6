// A polygon on which no number is due.
ghost use Rattle.polygon.specs.Polygon.{ValidPolygon};

use crate::Polygon;
use codes::Refusal;

// What the steps after the check work on: the fact stands in the type, and not in what each of them asks.
#[derive(Clone, Copy)]
pub struct Rim {
    pub polygon: Polygon,
    pub ghost valid: { ValidPolygon polygon },
}

impl Rim {
    ghost use Rattle.std.specs.Prelude.{◌≡◌};
    ghost use Rattle.codes.specs.Refusals.{or_refused};
    ghost use Rattle.polygon.specs.Polygon.{code_of};
    ghost use Rattle.polygon.specs.Rim.{as_polygon};

    // The polygon as a rim, or the number due on it.
    pub fn new(polygon: Polygon) -> Result<Rim, Refusal>
        ensures { as_polygon result ≡ or_refused (code_of polygon) polygon }
    {
        crate::check(polygon)?;
        Ok(Rim { polygon })
    }
}
