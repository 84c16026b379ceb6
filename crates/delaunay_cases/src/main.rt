// The candidate finder on stored cases. Each prints the answer and every place of every table; 9 is what a place held before.
#![tactic(auto)]

ghost use Rattle.std.specs.Prelude.{◌≤◌, ◌<◌};
ghost use Rattle.terms.specs.Limits.{max_vertices};

use codes::Refusal;
use finder::Counts;
use geometry::face;
use grid::GridPoint;
use polygon::Polygon;
use polygon::normal::Normal;
use std::io;

// Places of each table; a part of them is lent.
const PLACES: usize = 20;

fn print_answer(rt: &impl Print, answer: Result<Counts, Refusal>) -> io::Result<()> {
    match answer {
        Ok(lists) => print!(rt; "found {} {}", lists.candidates, lists.rows),
        Err(refusal) => print!(rt; "{refusal}"),
    }
}

fn print_tables(
    rt: &impl Print,
    candidates: &[[u8; 3]],
    weights: &[u32],
    rows: &[[u32; 3]],
) -> io::Result<()> {
    print!(rt; "\ncandidates")?;
    for t in candidates {
        print!(rt; "  {} {} {}", t[0], t[1], t[2])?;
    }
    print!(rt; "\nweights")?;
    for weight in weights {
        print!(rt; " {weight}")?;
    }
    print!(rt; "\nrows")?;
    for row in rows {
        print!(rt; "  {} {} {}", row[0], row[1], row[2])?;
    }
    Ok(())
}

// Lends so many places of the tables.
fn run(rt: &impl Print, p: Polygon, c: usize, w: usize, r: usize) -> io::Result<()>
    requires { (c ≤ PLACES) × (w ≤ PLACES) × (r ≤ PLACES) }
{
    let mut candidates = [[9u8; 3]; PLACES];
    let mut weights = [9u32; PLACES];
    let mut rows = [[9u32; 3]; PLACES];
    let answer = finder::find(p, &mut candidates[..c], &mut weights[..w], &mut rows[..r]);
    print_answer(rt, answer)?;
    print_tables(rt, &candidates, &weights, &rows)?;
    print!(rt; "\n\n")
}

// The first n points, with these factors and no normal.
fn polygon(n: usize, area_factor: u32, bend_factor: u32, points: [GridPoint; 6]) -> Polygon {
    let mut p = Polygon {
        n,
        area_factor,
        bend_factor,
        ..Polygon::empty()
    };
    p.vertices[..6].copy_from_slice(&points);
    p
}

// The polygon with another normal at place i.
fn with_normal(mut p: Polygon, i: usize, normal: Normal) -> Polygon
    requires { i < max_vertices }
{
    p.normals[i] = normal;
    p
}

// Rim file P of rule 6.1.
const RIM_P: [GridPoint; 6] = [
    GridPoint { x: 0, y: 0, z: 0 },
    GridPoint { x: 8, y: 0, z: 0 },
    GridPoint { x: 8, y: 8, z: 6 },
    GridPoint { x: 0, y: 8, z: 0 },
    GridPoint { x: 0, y: 0, z: 0 },
    GridPoint { x: 0, y: 0, z: 0 },
];

// Five corners of a cube, and a point inside their sphere.
const CUBE: [GridPoint; 6] = [
    GridPoint { x: 0, y: 0, z: 0 },
    GridPoint { x: 8, y: 8, z: 0 },
    GridPoint { x: 8, y: 0, z: 8 },
    GridPoint { x: 0, y: 8, z: 8 },
    GridPoint { x: 8, y: 8, z: 8 },
    GridPoint { x: 3, y: 4, z: 5 },
];

// All in one plane, the first three on one line. The four corners of the square are on one circle, with the vertex between two of them inside.
const FLAT: [GridPoint; 6] = [
    GridPoint { x: 0, y: 0, z: 0 },
    GridPoint { x: 4, y: 0, z: 0 },
    GridPoint { x: 8, y: 0, z: 0 },
    GridPoint { x: 8, y: 8, z: 0 },
    GridPoint { x: 0, y: 8, z: 0 },
    GridPoint {
        x: 2000,
        y: 0,
        z: 0,
    },
];

// A tilted plane, z = x. Vertex 2 is inside the circle of 0, 1 and 3; seen along z it would be outside. The last vertex is off the plane.
const TILTED: [GridPoint; 6] = [
    GridPoint { x: 0, y: 0, z: 0 },
    GridPoint { x: 4, y: 0, z: 4 },
    GridPoint { x: 2, y: 5, z: 2 },
    GridPoint { x: 0, y: 4, z: 0 },
    GridPoint { x: 4, y: 4, z: 4 },
    GridPoint { x: 4, y: 4, z: 5 },
];

// A rectangle of the same plane.
const RECTANGLE: [GridPoint; 6] = [
    GridPoint { x: 0, y: 0, z: 0 },
    GridPoint { x: 4, y: 0, z: 4 },
    GridPoint { x: 4, y: 4, z: 4 },
    GridPoint { x: 0, y: 4, z: 0 },
    GridPoint { x: 0, y: 0, z: 0 },
    GridPoint { x: 0, y: 0, z: 0 },
];

// All on one line.
const LINE: [GridPoint; 6] = [
    GridPoint { x: 0, y: 0, z: 0 },
    GridPoint { x: 4, y: 2, z: 6 },
    GridPoint {
        x: -2,
        y: -1,
        z: -3,
    },
    GridPoint { x: 2, y: 1, z: 3 },
    GridPoint { x: 0, y: 0, z: 0 },
    GridPoint { x: 0, y: 0, z: 0 },
];

// All places, exactly as many as are needed, and one too few in each table.
fn run_p(rt: &impl Print) -> io::Result<()> {
    let p = polygon(4, 1, 1, RIM_P);
    run(rt, p, 20, 20, 20)?;
    run(rt, p, 4, 4, 2)?;
    run(rt, p, 3, 4, 2)?;
    run(rt, p, 4, 3, 2)?;
    run(rt, p, 4, 4, 1)?;
    run(rt, polygon(4, 16, 0, RIM_P), 20, 20, 20)
}

// A slope outside each edge in turn, outside two edges of one candidate (rule 6.6), and at a place that belongs to no vertex.
fn run_normals(rt: &impl Print) -> io::Result<()> {
    let p = polygon(4, 1, 1, RIM_P);
    let slope = Normal {
        x: 0,
        y: -600,
        z: 800,
    };
    run(rt, with_normal(p, 0, slope), 4, 4, 2)?;
    run(rt, with_normal(p, 1, slope), 4, 4, 2)?;
    run(rt, with_normal(p, 2, slope), 4, 4, 2)?;
    run(rt, with_normal(p, 3, slope), 4, 4, 2)?;
    run(rt, with_normal(with_normal(p, 2, slope), 3, slope), 4, 4, 2)?;
    run(rt, with_normal(p, 4, slope), 4, 4, 2)
}

// 12, also where the tables are too short; with a vertex inside the sphere none of those fours counts.
fn run_cube(rt: &impl Print) -> io::Result<()> {
    run(rt, polygon(5, 1, 1, CUBE), 0, 0, 0)?;
    let p = polygon(6, 1, 1, CUBE);
    run(rt, p, 20, 20, 20)?;
    run(rt, p, 15, 15, 18)?;
    run(rt, p, 15, 15, 17)
}

// Flat rims, with all places and one too few in a table, and one with a vertex off the plane of five; a triangle, with a surface outside each edge too;
// 12 on a rectangle; all vertices on one line.
fn run_flat(rt: &impl Print) -> io::Result<()> {
    let p = polygon(5, 1, 1, FLAT);
    run(rt, p, 20, 20, 20)?;
    run(rt, p, 2, 20, 20)?;
    run(rt, polygon(4, 1, 1, TILTED), 20, 20, 20)?;
    run(rt, polygon(6, 1, 1, TILTED), 20, 20, 20)?;
    let t = polygon(3, 1, 1, RIM_P);
    run(rt, t, 1, 1, 0)?;
    let up = Normal { x: 0, y: 0, z: 9 };
    run(
        rt,
        with_normal(with_normal(with_normal(t, 0, up), 1, up), 2, up),
        1,
        1,
        0,
    )?;
    run(rt, polygon(4, 1, 1, RECTANGLE), 0, 0, 0)?;
    run(rt, polygon(4, 1, 1, LINE), 0, 0, 0)
}

// Polygons that no rim file gives.
fn run_refused(rt: &impl Print) -> io::Result<()> {
    run(rt, polygon(4, 17, 1, RIM_P), 20, 20, 20)?;
    run(rt, polygon(4, 1, 65536, RIM_P), 20, 20, 20)?;
    run(rt, polygon(65, 1, 1, RIM_P), 20, 20, 20)?;
    run(rt, polygon(6, 1, 1, FLAT), 20, 20, 20)?;
    run(rt, polygon(2, 1, 1, RIM_P), 20, 20, 20)?;
    run(rt, polygon(5, 1, 1, RIM_P), 20, 20, 20)?;
    let steep = Normal {
        x: 0,
        y: 1001,
        z: 0,
    };
    run(
        rt,
        with_normal(polygon(4, 1, 1, RIM_P), 3, steep),
        20,
        20,
        20,
    )?;
    run(
        rt,
        with_normal(polygon(6, 1, 1, FLAT), 4, steep),
        20,
        20,
        20,
    )?;
    run(
        rt,
        with_normal(polygon(6, 1, 1, FLAT), 5, steep),
        20,
        20,
        20,
    )
}

// The bend of equal, perpendicular and opposite normals that are 100 long, which is 400 quarters, and for a dot product of -1.
fn run_bends(rt: &impl Print) -> io::Result<()> {
    println!(rt;
        "bends {} {} {} {}",
        face::bend(10000, 400, 400),
        face::bend(0, 400, 400),
        face::bend(-10000, 400, 400),
        face::bend(-1, 400, 400)
    )
}

fn main(rt: HostRuntime) -> io::Result<()> {
    run_p(&rt)?;
    run_normals(&rt)?;
    run_cube(&rt)?;
    run_flat(&rt)?;
    run_refused(&rt)?;
    run_bends(&rt)
}
