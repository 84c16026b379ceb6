// One record: decoded and put on the grid.
ghost use Rattle.std.specs.Prelude.{◌≡◌, ◌+◌, ◌≤◌, pos, length, IfOk};
ghost use Rattle.std.specs.Float.{binary32};
ghost use Rattle.std.specs.Float.Ieee.{of_bits};
ghost use Rattle.grid.specs.Point.{OnGrid};
ghost use Rattle.rim_file.specs.File.{u32_at};
ghost use Rattle.rim_file.specs.Record.{known, height_of, record_at, vertex_of};
ghost use Rattle.rim_file.specs.Steps.{placed};

use crate::file::RimFile;
use crate::{Coordinates, Kind, Record, bytes};
use codes::Refusal;
use grid::{GridPoint, OffGrid};
use std::num;

fn float_at(s: &[u8], at: usize) -> f32
    requires { at + 4 ≤ length s.now }
    ensures { result ≡ of_bits binary32 (u32_at s.now at) }
{
    num::f32_from_bits_with_nan(bytes::u32_at(s, at))
}

// The record that starts at a position of the file.
#[tactic(auto, unfolding(crate::specs::Record::record_at))]
fn decode(s: &[u8], at: usize, height_known: bool) -> Result<Record, Refusal>
    requires { at + 16 ≤ length s.now }
    ensures { result ≡ record_at s.now at height_known }
{
    match Kind::try_from(bytes::u16_at(s, at + 2))? {
        Kind::Point => Ok(Record::Point(Coordinates {
            x: float_at(s, at + 4),
            y: float_at(s, at + 8),
            z: float_at(s, at + 12),
        })),
        Kind::Level if !height_known => Err(Refusal::NO_HEIGHT),
        Kind::Level if bytes::u32_at(s, at + 12) != 0 => Err(Refusal::NOT_FINITE),
        Kind::Level => Ok(Record::Level(float_at(s, at + 4), float_at(s, at + 8))),
    }
}

// The vertex of three grid numbers: 8, where one is not finite, comes before 9, where one is out of range.
#[tactic(auto, unfolding(crate::specs::Steps::placed))]
fn place(
    x: Result<i64, OffGrid>,
    y: Result<i64, OffGrid>,
    z: Result<i64, OffGrid>,
) -> Result<GridPoint, Refusal>
    requires { (IfOk x OnGrid) × (IfOk y OnGrid) × (IfOk z OnGrid) }
    ensures { result ≡ placed x y z }
{
    match (x, y, z) {
        (Ok(x), Ok(y), Ok(z)) => Ok(GridPoint::new(x, y, z)),
        (Err(OffGrid::NotFinite), _, _)
        | (_, Err(OffGrid::NotFinite), _)
        | (_, _, Err(OffGrid::NotFinite)) => Err(Refusal::NOT_FINITE),
        _ => Err(Refusal::OUT_OF_RANGE),
    }
}

// A point on the grid: its three floats come by value from the decoder.
#[tactic(auto, using(crate::proofs::Numbers::point_placed), unfolding(crate::specs::Record::vertex_of))]
fn grid_point(c: Coordinates) -> Result<GridPoint, Refusal>
    ensures { result ≡ vertex_of (Ok (Record.Point c)) (pos 0) }
{
    place(
        grid::grid_number(c.x),
        grid::grid_number(c.y),
        grid::grid_number(c.z),
    )
}

// A level point on the grid, at the grid height of the point before it.
#[tactic(auto, using(crate::proofs::Numbers::level_placed), unfolding(crate::specs::Record::vertex_of))]
fn level_point(x: f32, y: f32, height: i64) -> Result<GridPoint, Refusal>
    requires { OnGrid height }
    ensures { result ≡ vertex_of (Ok (Record.Level x y)) height }
{
    place(grid::grid_number(x), grid::grid_number(y), Ok(height))
}

impl<'a> RimFile<'a> {
    // The vertex of the record that starts at a position of the file, or the number due on it. The height is that of the last point before, which a
    // level point takes.
    #[tactic(auto, unfolding(crate::specs::Record::vertex_of))]
    pub fn vertex_at(&self, at: usize, height: Option<i64>) -> Result<GridPoint, Refusal>
        requires { (at + 16 ≤ length self.now.bytes.now) × (OnGrid (height_of height)) }
        ensures { result ≡ vertex_of (record_at self.now.bytes.now at (known height)) (height_of height) }
    {
        match decode(self.bytes, at, height.is_some())? {
            Record::Point(c) => grid_point(c),
            Record::Level(x, y) => level_point(x, y, height.unwrap_or(0)),
        }
    }
}
