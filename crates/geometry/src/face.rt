// Normals of triangles, and the weights of their area and of the bend between two of them.
ghost use Rattle.std.specs.Prelude.{◌≡◌, ◌≤◌, ◌<◌};
ghost use Rattle.grid.specs.Point.{PointOnGrid};
ghost use Rattle.terms.specs.Limits.{max_area_factor, max_bend_factor};
ghost use Rattle.integers.specs.Bounds.{AtMost};
ghost use Rattle.geometry.specs.Bounds.{max_normal, max_dot, max_length, max_bend, Within};
ghost use Rattle.geometry.specs.Faces.{normal_of, length_of, area_weight_of, bend_of, bend_weight_of};

use crate::{Vector, cross, difference, dot};
use grid::GridPoint;

// Lengths count quarters, so many to the unit (rule 2.7), and so squares of lengths count sixteenths.
const LENGTH_SCALE: i64 = 4;

const SQUARE_SCALE: i64 = LENGTH_SCALE * LENGTH_SCALE;

// Ratios and bends count thousandths (rules 2.10, 2.11).
const RATIO_SCALE: i64 = 1000;

const LEAST_RATIO: i64 = -RATIO_SCALE;

// What a dot product is multiplied by, to be divided by two lengths (rule 2.10).
const DIVIDEND_SCALE: i64 = RATIO_SCALE * SQUARE_SCALE;

pub fn normal(a: GridPoint, b: GridPoint, c: GridPoint) -> Vector
    requires { (PointOnGrid a) × (PointOnGrid b) × (PointOnGrid c) }
    ensures { result ≡ normal_of a b c }
{
    cross(difference(b, a), difference(c, a))
}

// The length in quarters: their scale goes under the root, before anything is cut off.
pub fn normal_length(n: Vector) -> u32
    requires { Within max_normal n }
    ensures { result ≡ length_of n }
{
    let square = dot(n, n);
    integers::floor_root((SQUARE_SCALE * square) as u64) as u32
}

pub fn area_weight(factor: u32, length: u32) -> u32
    requires { (factor ≤ max_area_factor) × (length ≤ max_length) }
    ensures { result ≡ area_weight_of factor length }
{
    factor * length
}

// The bend of two normals: d is their dot product, m and k are their lengths.
pub fn bend(d: i64, m: u32, k: u32) -> u32
    requires { (AtMost max_dot d) × (0 < m) × (m ≤ max_length) × (0 < k) × (k ≤ max_length) }
    ensures { result ≡ bend_of d m k }
{
    let n = DIVIDEND_SCALE * d;
    let w = i64::from(m) * i64::from(k);
    let q = integers::clamp(integers::floor_div(n, w), LEAST_RATIO, RATIO_SCALE);
    (RATIO_SCALE - q) as u32
}

pub fn bend_weight(factor: u32, bend: u32) -> u32
    requires { (factor ≤ max_bend_factor) × (bend ≤ max_bend) }
    ensures { result ≡ bend_weight_of factor bend }
{
    factor * bend
}
