// Grid points, and the grid number of a float: a step of the grid is an eighth of a millimetre.
#![tactic(auto)]

ghost use Rattle.std.specs.Prelude.{◌≡◌, ◌%◌, ◌^◌, ◌<◌, IfOk};
ghost use Rattle.grid.specs.Number.{nearest_even, grid_number_of};
ghost use Rattle.grid.specs.Pattern.{units};
ghost use Rattle.grid.specs.Point.{point, OnGrid, coordinate_on_grid, point_on_grid};

use std::error::Error;
use std::fmt;

// A point in grid steps. That it is on the grid is no invariant: a polygon built by hand may hold one that is not, and is refused with 9.
#[derive(Clone, Copy, Debug, PartialEq, Eq)]
pub struct GridPoint {
    pub x: i64,
    pub y: i64,
    pub z: i64,
}

impl GridPoint {
    pub const LOWEST: i64 = -1000;

    pub const HIGHEST: i64 = 1000;

    pub fn new(x: i64, y: i64, z: i64) -> GridPoint
        requires { (OnGrid x) × (OnGrid y) × (OnGrid z) }
        ensures { result ≡ point x y z }
    {
        GridPoint { x, y, z }
    }

    // Is each coordinate from LOWEST to HIGHEST?
    pub fn on_grid(self) -> bool
        ensures { result ≡ point_on_grid self }
    {
        GridPoint::coordinates_on_grid(self.x, self.y, self.z)
    }

    // The same of three numbers that are no point yet.
    pub fn coordinates_on_grid(x: i64, y: i64, z: i64) -> bool
        ensures { result ≡ point_on_grid (point x y z) }
    {
        GridPoint::coordinate_on_grid(x)
            && GridPoint::coordinate_on_grid(y)
            && GridPoint::coordinate_on_grid(z)
    }

    fn coordinate_on_grid(c: i64) -> bool
        ensures { result ≡ coordinate_on_grid c }
    {
        (GridPoint::LOWEST..=GridPoint::HIGHEST).contains(&c)
    }
}

// Why a float has no grid number.
#[derive(Clone, Copy, Debug, PartialEq, Eq)]
pub enum OffGrid {
    NotFinite,
    OutOfRange,
}

impl fmt::Display for OffGrid {
    fn fmt<W: fmt::Write>(&self, f: &mut fmt::Formatter<W>) -> fmt::Result {
        match self {
            OffGrid::NotFinite => write!(f, "not finite"),
            OffGrid::OutOfRange => write!(f, "out of range"),
        }
    }
}

impl Error for OffGrid {}

// The size of the whole number nearest to a float of a size below 1024, from its bits. Their sign has no part in it: at a half the number is
// the even one above and below zero alike.
fn rounded(bits: u32) -> u32
    requires { bits % 0x8000_0000 < 0x4480_0000 }
    ensures { result ≡ nearest_even (units (bits % 0x8000_0000)) (2 ^ 149) }
{
    let pattern = bits % 0x8000_0000;
    if pattern < 0x3f00_0000 {
        return 0;
    }
    let shift = 150 - pattern / 0x80_0000;
    let one: u32 = 1 << shift;
    let digits = 0x80_0000 + pattern % 0x80_0000;
    let whole = digits / one;
    let twice = digits % one * 2;
    if twice < one {
        whole
    } else if one < twice {
        whole + 1
    } else if whole % 2 == 0 {
        whole
    } else {
        whole + 1
    }
}

// The grid number of a value in millimetres (rules 1.9 and 1.10). v * 8.0 is exact, or overflows to an infinity: its pattern is above
// that of 1000.0 (0x447a_0000) exactly where 8v is out of range. Whether a value is finite is asked of v, so an overflow is out of range.
pub fn grid_number(v: f32) -> Result<i64, OffGrid>
    ensures number { result ≡ grid_number_of v }
    ensures on_grid { IfOk result OnGrid }
{
    if !v.is_finite() {
        return Err(OffGrid::NotFinite);
    }
    let eighths = v * 8.0;
    let bits = f32::to_bits(eighths);
    let pattern = bits % 0x8000_0000;
    if 0x447a_0000 < pattern {
        return Err(OffGrid::OutOfRange);
    }
    let number = i64::from(rounded(bits));
    if bits < 0x8000_0000 {
        Ok(number)
    } else {
        Ok(-number)
    }
}
