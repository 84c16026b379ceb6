// The total of a list of triangles: their weights, and the rows of those that hang on each other.
ghost use Rattle.std.specs.Prelude.{◌≡◌, ◌^◌, ◌≤◌, ◌<◌, length};
ghost use Rattle.triangulation.specs.Triangulations.{total_weight};
ghost use Rattle.triangulation.specs.Problems.{problem_from};
ghost use Rattle.validation.specs.Totals.{hanging_rows};

use crate::selection::Selection;
use rows::Rows;

// The rows of the list's triangles that hang on candidate o.
fn hanging_rows(selection: &Selection<'_>, rows: &Rows<'_>, o: usize) -> u64
    requires { o < length selection.now.candidates.now }
    ensures { (result ≡ hanging_rows selection.now.candidates.now rows.now.rows.now selection.now.list.now o) × (result < 2 ^ 39) }
{
    let mut total = 0;
    for i in selection.list {
        let i = usize::from(*i);
        if jobs::pairs::hangs_on(selection.candidates[i], selection.candidates[o]) {
            total += u64::from(rows.weight(o, i));
        }
    }
    total
}

// The total of the list as it stands.
pub fn total(selection: &Selection<'_>, weights: &[u32], rows: &Rows<'_>) -> u64
    requires { length selection.now.candidates.now ≤ length weights.now }
    ensures { result ≡ total_weight (problem_from 0 selection.now.candidates.now weights.now rows.now.rows.now) selection.now.list.now }
{
    let mut total = 0;
    for o in selection.list {
        let o = usize::from(*o);
        total += u64::from(weights[o]) + hanging_rows(selection, rows, o);
    }
    total
}
