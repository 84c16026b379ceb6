// The reader's answer on a file against the expected one.
ghost use Rattle.std.specs.Prelude.{◌≤◌};

use crate::file::Bytes;
use codes::Refusal;
use grid::GridPoint;
use polygon::Polygon;
use polygon::normal::Normal;
use std::io;

// Two factors, the coordinates of 64 vertices, and the numbers of their normals.
pub const COUNT: usize = 386;

// Where those of the normals start.
pub const NORMALS: usize = 194;

// A polygon's numbers, and 0 in the places after them.
pub type Numbers = [i64; COUNT];

fn read(limit: usize, file: &[u8], length: usize) -> Result<Polygon, Refusal> {
    if file.len() < length {
        return reader::read_polygon(limit, file);
    }
    reader::read_polygon(limit, &file[..length])
}

// Is p the point whose coordinates start at `at`?
fn is_point(p: GridPoint, numbers: &Numbers, at: usize) -> bool
    requires { at ≤ 191 }
{
    p.x == numbers[at] && p.y == numbers[at + 1] && p.z == numbers[at + 2]
}

// Is q the normal whose numbers start at `at`?
fn is_normal(q: Normal, numbers: &Numbers, at: usize) -> bool
    requires { at ≤ 383 }
{
    i64::from(q.x) == numbers[at]
        && i64::from(q.y) == numbers[at + 1]
        && i64::from(q.z) == numbers[at + 2]
}

// Compares all places: those after the vertices hold the origin and no normal.
fn same_polygon(p: Polygon, n: u32, numbers: &Numbers) -> bool {
    if p.n != n as usize {
        return false;
    }
    if p.area_factor as i64 != numbers[0] {
        return false;
    }
    if p.bend_factor as i64 != numbers[1] {
        return false;
    }
    let vertices = p.vertices;
    let normals = p.normals;
    for i in 0..terms::MAX_VERTICES {
        if !is_point(vertices[i], numbers, 2 + 3 * i) {
            return false;
        }
        if !is_normal(normals[i], numbers, NORMALS + 3 * i) {
            return false;
        }
    }
    true
}

// Prints the number that came, or ok, and whether that or the polygon is not the expected one. Where a
// number is expected, the polygon is empty: no vertex, and zeros.
pub(crate) fn compare(
    rt: &impl Print,
    limit: usize,
    file: &Bytes,
    length: usize,
    number: u32,
    n: u32,
    numbers: &Numbers,
) -> io::Result<()> {
    let came = read(limit, file, length);
    match came {
        Ok(_) => print!(rt; " ok")?,
        Err(refusal) => print!(rt; " {}", refusal.number)?,
    }
    let polygon = reader::polygon_in(came);
    if codes::number_of(&came) != number || !same_polygon(polygon, n, numbers) {
        print!(rt; " is wrong")?;
    }
    Ok(())
}
