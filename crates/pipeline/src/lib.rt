// The one call over the three stages, reader, candidate finder and tiler; and the calls on a rim file that stop before the tiler.
#![tactic(auto)]

ghost use Rattle.std.specs.Prelude.{◌≡◌, ◌+◌, ◌≤◌, length, take};
ghost use Rattle.codes.specs.Refusals.{number_of};
ghost use Rattle.reader.specs.Reading.{polygon_of};
ghost use Rattle.finder.specs.Finding.{finding};
ghost use Rattle.finder.specs.Finding as found;
ghost use Rattle.finder.specs.Sizes.{places_in, due_places};
ghost use Rattle.triangulation.specs.Triangulations.{best};
ghost use Rattle.triangulation.specs.Problems.{problem_from};
ghost use Rattle.minimum_weight.specs.Tables.{WellFormed};
ghost use Rattle.triangulator.specs.Call.{values_of, result_of, settled};
ghost use Rattle.pipeline.specs.Finding.{find_file_values, find_file};
ghost use Rattle.pipeline.specs.Patching.{tables, patching, polygon_values, patch_polygon, file_values, patch_file};
ghost use Rattle.pipeline.specs.Sizes.{sizes_number, sizes_file};

use codes::Refusal;
use finder::{Counts, Places};
use polygon::Polygon;
use triangulator::Patch;

// The best triangulation by the lists in the first places of the tables.
fn triangulate_first(
    n: usize,
    candidates: &[[u8; 3]],
    count: usize,
    weights: &[u32],
    rows: &[[u32; 3]],
    row_count: usize,
    triangles: &mut [u16],
    work: &mut [u64],
) -> Result<Option<Patch>, Refusal>
    requires count_in_bounds { (count ≤ length candidates.now) × (count ≤ length weights.now) × (row_count ≤ length rows.now)
        × (count ≤ length work.old) × (n ≤ length triangles.old + 2) }
    requires well_formed { WellFormed n (take count candidates.now) (take count weights.now) (take row_count rows.now) }
    ensures { result_of result triangles.new work.new
        ≡ settled (best (problem_from n (take count candidates.now) (take count weights.now) (take row_count rows.now)))
        count triangles.old work.old }
{
    triangulator::best_triangulation(
        n,
        &candidates[..count],
        &weights[..count],
        &rows[..row_count],
        triangles,
        work,
    )
}

// The patch of a polygon. All tables are tested before one is written.
pub fn patch_polygon(
    p: Polygon,
    triangles: &mut [u16],
    candidates: &mut [[u8; 3]],
    weights: &mut [u32],
    rows: &mut [[u32; 3]],
    work: &mut [u64],
) -> Result<Option<Patch>, Refusal>
    ensures tables { patching result (tables triangles.new candidates.new weights.new rows.new work.new)
        ≡ patch_polygon p (tables triangles.old candidates.old weights.old rows.old work.old) }
    ensures values { values_of result
        ≡ polygon_values p (tables triangles.old candidates.old weights.old rows.old work.old) }
{
    let n = p.n;
    let lists = finder::find_beside(p, triangles.len(), work.len(), candidates, weights, rows)?;
    triangulate_first(
        n,
        candidates,
        lists.candidates,
        weights,
        rows,
        lists.rows,
        triangles,
        work,
    )
}

// The patch of a rim file of at most so many vertices.
#[tactic(auto, unfolding(crate::specs::Patching::patch_file, crate::specs::Patching::patch_polygon))]
pub fn patch_file(
    limit: usize,
    file: &[u8],
    triangles: &mut [u16],
    candidates: &mut [[u8; 3]],
    weights: &mut [u32],
    rows: &mut [[u32; 3]],
    work: &mut [u64],
) -> Result<Option<Patch>, Refusal>
    ensures tables { patching result (tables triangles.new candidates.new weights.new rows.new work.new)
        ≡ patch_file limit file.now
        (tables triangles.old candidates.old weights.old rows.old work.old) }
    ensures values { values_of result
        ≡ file_values limit file.now
        (tables triangles.old candidates.old weights.old rows.old work.old) }
{
    let p = reader::read_polygon(limit, file)?;
    patch_polygon(p, triangles, candidates, weights, rows, work)
}

// The candidates, weights and rows of a rim file of at most so many vertices: the reader, then the finder.
#[tactic(auto, unfolding(crate::specs::Finding::find_file))]
pub fn find_file(
    limit: usize,
    file: &[u8],
    candidates: &mut [[u8; 3]],
    weights: &mut [u32],
    rows: &mut [[u32; 3]],
) -> Result<Counts, Refusal>
    ensures tables { finding result candidates.new weights.new rows.new
        ≡ find_file limit file.now candidates.old weights.old rows.old }
    ensures values { found.values_of result ≡ find_file_values limit file.now candidates.old weights.old rows.old }
{
    let polygon = reader::read_polygon(limit, file)?;
    finder::find(polygon, candidates, weights, rows)
}

// The places that the lent tables need for a rim file of at most so many vertices, or the number due on it: one of the reader's, or 12.
pub fn table_sizes(limit: usize, file: &[u8]) -> Result<Places, Refusal>
    ensures sizes { result ≡ sizes_file limit file.now }
    ensures values { (number_of result ≡ sizes_number limit file.now)
        × (places_in result ≡ due_places (sizes_number limit file.now) (polygon_of file.now)) }
{
    finder::table_sizes(reader::read_polygon(limit, file)?)
}
