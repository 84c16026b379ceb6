// The rim reader: from the bytes of a rim file to its polygon, of no more vertices than a limit, or the first number due.
#![tactic(auto)]

mod walk;

ghost use Rattle.std.specs.Prelude.{◌≡◌, true};
ghost use Rattle.codes.specs.Refusals.{number_of};
ghost use Rattle.terms.specs.Limits.{count_fits};
ghost use Rattle.reader.specs.Reading.{reading_of, number_due, polygon_in};

use codes::Refusal;
use grid::GridPoint;
use polygon::Polygon;
use polygon::normal::Normal;
use rim_file::file::RimFile;

// Marks go by record number, from 0, which names none.
const MARKS: usize = rim_file::MAX_RECORDS + 1;

// How far the walk along the chain has come, carried by value from position to position. Vertices and normals are listed beside it: no step copies them.
#[derive(Clone, Copy)]
struct Progress {
    // A mark for each record number, set where the record was met.
    pub met: [bool; MARKS],
    // The height that a level point takes here.
    pub height: Option<i64>,
    // The vertex of the position before, and its normal.
    pub vertex: GridPoint,
    pub normal: Normal,
    // The positions behind, and the link that leads on.
    pub n: usize,
    pub link: usize,
}

// The chain followed to its end: its vertices and their normals, the first n places of arrays, since there is no heap.
#[derive(Clone, Copy)]
struct Chain {
    pub n: usize,
    pub vertices: [GridPoint; terms::MAX_VERTICES],
    pub normals: [Normal; terms::MAX_VERTICES],
}

// The polygon of a rim file, or the first number due of 1 to 11, 18 and 20.
fn read_within(limit: usize, file: &RimFile<'_>) -> Result<Polygon, Refusal>
    requires { count_fits limit ≡ true }
    ensures { result ≡ reading_of limit file.now.bytes.now }
{
    if file.length_wrong() {
        return Err(Refusal::LENGTH);
    }
    let area_factor = file.area_factor();
    if terms::MAX_AREA_FACTOR < area_factor {
        return Err(Refusal::AREA_FACTOR);
    }
    let Chain {
        n,
        vertices,
        normals,
    } = walk::follow_chain(limit, file)?;
    if n < terms::MIN_VERTICES {
        return Err(Refusal::TOO_FEW_VERTICES);
    }
    if polygon::has_repeated_vertex(vertices, n) {
        return Err(Refusal::VERTEX_REPEATED);
    }
    Ok(Polygon {
        n,
        area_factor,
        bend_factor: file.bend_factor(),
        vertices,
        normals,
    })
}

// The polygon of a rim file of at most so many vertices, or the first number due of 1 to 11, 18 and 20. Any bytes are taken, and a limit from 3 to 64; any
// other is refused with 14.
pub fn read_polygon(limit: usize, file: &[u8]) -> Result<Polygon, Refusal>
    ensures { (result ≡ reading_of limit file.now) × (number_of result ≡ number_due limit file.now) }
{
    if !terms::count_fits(limit) {
        return Err(Refusal::VERTEX_COUNT);
    }
    read_within(limit, &RimFile::new(file))
}

// The polygon of an answer: with a refusal the empty one, without vertices (rule 5.2).
pub fn polygon_in(answer: Result<Polygon, Refusal>) -> Polygon
    ensures { result ≡ polygon_in answer }
{
    answer.unwrap_or(Polygon::empty())
}
