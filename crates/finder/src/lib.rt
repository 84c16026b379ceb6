// The candidate finder: from a polygon to its candidates, their weights and the rows of hanging pairs.
#![tactic(auto)]

ghost use Rattle.std.specs.Prelude.{◌≡◌, false};
ghost use Rattle.faces.specs.Masks.{empty_set};
ghost use Rattle.dihedrals.specs.Lists.{ProperCandidates};
ghost use Rattle.codes.specs.Refusals.{number_of};
ghost use Rattle.finder.specs.Finding.{values_of, due_values, finding, number_due, find_number, find_call, beside_number, find_beside_call};
ghost use Rattle.finder.specs.Sizes.{places_in, due_places, sizes_of};
ghost use Rattle.finder.specs.Filling.{faces_of, places_for, Searched, Room, Written, fill_or13};

use codes::Refusal;
use faces::TriangleSet;
use polygon::Polygon;
use polygon::rim::Rim;

// How many candidates and rows the lists have.
#[derive(Clone, Copy, Debug, PartialEq, Eq)]
pub struct Counts {
    pub candidates: usize,
    pub rows: usize,
}

// How many places the lent tables need: `candidates` is for the candidate, weight and work tables.
#[derive(Clone, Copy, Debug, PartialEq, Eq)]
pub struct Places {
    pub triangles: usize,
    pub candidates: usize,
    pub rows: usize,
}

// The polygon as a rim, or the number due on it, then 12. Where none is due, the candidates are in the set.
fn search(p: Polygon, set: &mut TriangleSet) -> Result<Rim, Refusal>
    requires { set.old ≡ empty_set }
    ensures { Searched p result set.new }
{
    let rim = Rim::new(p)?;
    let Ok(()) = delaunay::mark_candidates(&rim, set) else {
        return Err(Refusal::COSPHERICAL);
    };
    Ok(rim)
}

fn count_places(rim: &Rim, set: &TriangleSet) -> Places
    ensures { result ≡ places_for rim.now.polygon.n (faces_of rim.now.polygon set.now) }
{
    let n = rim.polygon.n;
    let candidates = set.count(n);
    let pairs = hinges::count_rows(set, n);
    Places {
        triangles: n - 2,
        candidates,
        rows: pairs,
    }
}

// The places that the lent tables need for this polygon, or the number due on it: 2, 5, 9, 18, 10, 11 or 12.
pub fn table_sizes(p: Polygon) -> Result<Places, Refusal>
    ensures sizes { result ≡ sizes_of p }
    ensures values { (number_of result ≡ number_due false p) × (places_in result ≡ due_places (number_due false p) p) }
{
    let mut set = TriangleSet::new();
    let rim = search(p, &mut set)?;
    Ok(count_places(&rim, &set))
}

// Writes the lists of the set's triangles. The weight table holds the lengths of the normals until the rows are made.
fn write_lists(
    rim: &Rim,
    set: &TriangleSet,
    candidates: &mut [[u8; 3]],
    weights: &mut [u32],
    rows: &mut [[u32; 3]],
)
    requires { (ProperCandidates rim.now.polygon (faces_of rim.now.polygon set.now))
        × Room rim.now.polygon (faces_of rim.now.polygon set.now) candidates.old weights.old rows.old }
    ensures { Written rim.now.polygon (faces_of rim.now.polygon set.now) candidates.old weights.old rows.old
        candidates.new weights.new rows.new }
{
    let p = rim.polygon;
    let n = p.n;
    let count = set.list(n, candidates);
    let found = &candidates[..count];
    let starts = blocks::block_starts(found);
    dihedrals::write_lengths(p, found, weights);
    dihedrals::write_rows(p, found, &starts, &weights[..count], rows);
    weights::write_weights(rim, found, weights);
}

// 13, or the lists of the set's triangles. They are counted first: all tables are tested before one is written. (C lends the tables one by one.)
fn fill(
    rim: &Rim,
    set: &TriangleSet,
    triangle_places: usize,
    work_places: usize,
    candidates: &mut [[u8; 3]],
    weights: &mut [u32],
    rows: &mut [[u32; 3]],
) -> Result<Counts, Refusal>
    requires { ProperCandidates rim.now.polygon (faces_of rim.now.polygon set.now) }
    ensures { finding result candidates.new weights.new rows.new
        ≡ fill_or13 rim.now.polygon (faces_of rim.now.polygon set.now) triangle_places work_places candidates.old weights.old rows.old }
{
    let needed = count_places(rim, set);
    let count = needed.candidates;
    if triangle_places < needed.triangles
        || work_places < count
        || candidates.len() < count
        || weights.len() < count
        || rows.len() < needed.rows
    {
        return Err(Refusal::TABLE_TOO_SHORT);
    }
    write_lists(rim, set, candidates, weights, rows);
    Ok(Counts {
        candidates: count,
        rows: needed.rows,
    })
}

// The finder where a triangle table and a work table of these many places are lent to a later stage: 13 is due for them too, before any table is
// written.
pub fn find_beside(
    p: Polygon,
    triangle_places: usize,
    work_places: usize,
    candidates: &mut [[u8; 3]],
    weights: &mut [u32],
    rows: &mut [[u32; 3]],
) -> Result<Counts, Refusal>
    ensures tables { finding result candidates.new weights.new rows.new
        ≡ find_beside_call p triangle_places work_places candidates.old weights.old rows.old }
    ensures values { values_of result
        ≡ due_values (beside_number p triangle_places work_places candidates.old weights.old rows.old) p }
{
    let mut set = TriangleSet::new();
    let rim = search(p, &mut set)?;
    fill(
        &rim,
        &set,
        triangle_places,
        work_places,
        candidates,
        weights,
        rows,
    )
}

// The finder. A polygon that no rim file gives is refused by the number due on it: 2, 5, 9, 18, 10 or 11. Then 12, then 13.
pub fn find(
    p: Polygon,
    candidates: &mut [[u8; 3]],
    weights: &mut [u32],
    rows: &mut [[u32; 3]],
) -> Result<Counts, Refusal>
    ensures tables { finding result candidates.new weights.new rows.new
        ≡ find_call p candidates.old weights.old rows.old }
    ensures values { values_of result ≡ due_values (find_number p candidates.old weights.old rows.old) p }
{
    find_beside(p, p.n, faces::TRIPLES, candidates, weights, rows)
}
