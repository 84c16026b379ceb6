// Polygons on the grid: the boundary polygon of a gap is its rim.
#![tactic(auto)]

use codes::Refusal;
use grid::GridPoint;
use normal::Normal;

pub mod normal;
pub mod rim;

ghost use Rattle.std.specs.Prelude.{◌≡◌, ◌≤◌};
ghost use Rattle.terms.specs.Limits.{max_vertices};
ghost use Rattle.codes.specs.Refusals.{or_refused};
ghost use Rattle.polygon.specs.Polygon.{empty_polygon, repeated_vertex, vertices_code, code_of};

// The vertices are the first n places; the places after them belong to no vertex. Place i of the normals is for the edge from vertex i to the next.
// Arrays with a count beside them, since there is no heap; two of them, since the page of promises names each (Files: `vertices`, `normals`).
#[derive(Clone, Copy, Debug, PartialEq, Eq)]
pub struct Polygon {
    pub n: usize,
    pub area_factor: u32,
    pub bend_factor: u32,
    pub vertices: [GridPoint; terms::MAX_VERTICES],
    pub normals: [Normal; terms::MAX_VERTICES],
}

impl Polygon {
    // What stands for a polygon where a file is refused.
    pub fn empty() -> Polygon
        ensures { result ≡ empty_polygon }
    {
        Polygon {
            n: 0,
            area_factor: 0,
            bend_factor: 0,
            vertices: [GridPoint { x: 0, y: 0, z: 0 }; terms::MAX_VERTICES],
            normals: [Normal::none(); terms::MAX_VERTICES],
        }
    }
}

// Do two of the first n vertices share a grid point? (The table and n, not a slice: the polygon's definition is of them.)
pub fn has_repeated_vertex(vertices: [GridPoint; terms::MAX_VERTICES], n: usize) -> bool
    requires { n ≤ max_vertices }
    ensures { result ≡ repeated_vertex vertices n }
{
    for (j, vertex) in vertices[..n].iter().enumerate() {
        if vertices[..j].iter().any(|p| p == vertex) {
            return true;
        }
    }
    false
}

// Refused by the first number due on the first n vertices, one after the other: 9, then 18 for the vertex's normal.
fn check_vertices(
    vertices: [GridPoint; terms::MAX_VERTICES],
    normals: [Normal; terms::MAX_VERTICES],
    n: usize,
) -> Result<(), Refusal>
    requires { n ≤ max_vertices }
    ensures { result ≡ or_refused (vertices_code vertices normals n) tt }
{
    for (vertex, normal) in vertices[..n].iter().zip(&normals[..n]) {
        if !vertex.on_grid() {
            return Err(Refusal::OUT_OF_RANGE);
        }
        if !normal.in_range() {
            return Err(Refusal::NORMAL);
        }
    }
    Ok(())
}

// Refused by the number due on a polygon, which a caller may have built by hand.
pub fn check(p: Polygon) -> Result<(), Refusal>
    ensures { result ≡ or_refused (code_of p) tt }
{
    if terms::MAX_AREA_FACTOR < p.area_factor {
        return Err(Refusal::AREA_FACTOR);
    }
    if terms::MAX_BEND_FACTOR < p.bend_factor {
        return Err(Refusal::AREA_FACTOR);
    }
    if terms::MAX_VERTICES < p.n {
        return Err(Refusal::TOO_MANY_VERTICES);
    }
    check_vertices(p.vertices, p.normals, p.n)?;
    if p.n < terms::MIN_VERTICES {
        return Err(Refusal::TOO_FEW_VERTICES);
    }
    if has_repeated_vertex(p.vertices, p.n) {
        return Err(Refusal::VERTEX_REPEATED);
    }
    Ok(())
}
