// The best candidate beneath an edge.
ghost use Rattle.std.specs.Prelude.{◌≡◌, ◌<◌, ◌≤◌, length, get_or, eqb};
ghost use Rattle.triangulation.specs.Problems.{pair_weight};
ghost use Rattle.terms.specs.Limits.{max_vertices};
ghost use Rattle.terms.specs.Entries.{entry_at, vertex_c};
ghost use Rattle.triangulation.specs.Recursion.{no_total};
ghost use Rattle.minimum_weight.specs.Tables.{better_of, pick_under, pick_at_edge};

use crate::NONE;
use blocks::Blocked;
use rows::Rows;

// A total and the candidate that starts it. No candidate is the total NONE, as in the work table: one comparison then tells 'no part' and 'not lower'.
#[derive(Clone, Copy)]
pub struct Pick {
    pub cost: u64,
    pub at: usize,
}

// p, or candidate u where its edge (a, c) ends at j, a part starts with it and the total under t is lower. The row is looked up only where the
// total without it is.
fn better(
    p: Pick,
    candidates: &[[u8; 3]],
    work: &[u64],
    rows: &Rows<'_>,
    t: usize,
    j: u8,
    u: usize,
) -> Pick
    requires { (u < length candidates.now) × (length candidates.now ≤ length work.now) × (p.cost ≤ no_total) }
    ensures { result
        ≡ better_of p u (eqb (vertex_c (entry_at candidates.now u)) j) (get_or work.now u 0) (pair_weight rows.now.rows.now t u) }
{
    let triangle = candidates[u];
    if triangle[2] != j {
        return p;
    }
    let d = work[u];
    if p.cost <= d {
        return p;
    }
    let row = u64::from(rows.weight(t, u));
    let cost = d + row;
    if cost < p.cost {
        return Pick { cost, at: u };
    }
    p
}

// The best candidate (i, x, j) under t, the first of equal ones, in one pass over the block of i.
#[inline(always)]
fn scan_block(blocked: &Blocked<'_>, work: &[u64], rows: &Rows<'_>, t: usize, i: u8, j: u8) -> Pick
    requires { (length blocked.now.candidates.now ≤ length work.now) × (i < max_vertices) }
    ensures { result ≡ pick_under blocked.now.candidates.now work.now rows.now.rows.now t i j }
{
    // With `usize::from` four answers of this crate stayed open.
    let block = i as usize;
    let candidates = blocked.candidates;
    let mut p = Pick { cost: NONE, at: 0 };
    // A loop over places: candidates, work and rows are asked by u, and the pick names it.
    for u in blocked.starts[block]..blocked.starts[block + 1] {
        p = better(p, candidates, work, rows, t, j, u);
    }
    p
}

// The best candidate (i, x, j) under t, the first of equal ones: all of them stand in the block of i. Where there are no rows, as in the run of a
// candidate on which nothing hangs, the pass is compiled by itself, without the search in its loop.
pub fn best_in_block(
    blocked: &Blocked<'_>,
    work: &[u64],
    rows: &Rows<'_>,
    t: usize,
    i: u8,
    j: u8,
) -> Pick
    requires { (length blocked.now.candidates.now ≤ length work.now) × (i < max_vertices) }
    ensures { result ≡ pick_under blocked.now.candidates.now work.now rows.now.rows.now t i j }
{
    if rows.rows.is_empty() {
        let none = Rows::new(&rows.rows[..0]);
        return scan_block(blocked, work, &none, t, i, j);
    }
    scan_block(blocked, work, rows, t, i, j)
}

// The best beneath the edge (i, j) of t: nothing beneath a rim edge (i, i + 1).
pub fn best_under(
    blocked: &Blocked<'_>,
    work: &[u64],
    rows: &Rows<'_>,
    t: usize,
    i: u8,
    j: u8,
) -> Pick
    requires { (length blocked.now.candidates.now ≤ length work.now) × (i < j) × (j < max_vertices) }
    ensures { result ≡ pick_at_edge blocked.now.candidates.now work.now rows.now.rows.now t i j }
{
    if j - i == 1 {
        return Pick { cost: 0, at: 0 };
    }
    best_in_block(blocked, work, rows, t, i, j)
}
