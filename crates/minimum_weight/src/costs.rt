// Filling the work table: work[t] becomes the least total of a part that starts with candidate t.
// Blocks of equal first vertex are filled from the last to the first, each from its start on: what may hang on a candidate (a, b, c) is (a, x, b),
// which stands before it in its block, or (b, x, c), which stands in a later block.
ghost use Rattle.std.specs.Prelude.{◌≡◌, ◌+◌, ◌<◌, ◌≤◌, length, get_or};
ghost use Rattle.lists.specs.Lists.{filled};
ghost use Rattle.triangulation.specs.Recursion.{cost_of, best_from};
ghost use Rattle.terms.specs.Limits.{max_vertices};
ghost use Rattle.rows.specs.Search.{Run};
ghost use Rattle.minimum_weight.specs.Tables.{Cost, join_cost, ReadyBeneath, Filled, part_totals};
ghost use Rattle.minimum_weight.specs.Instances.{problem_at};

use crate::NONE;
use crate::choice::best_under;
use crate::instance::Instance;
use rows::Rows;

// The total of a triangle of weight w over parts of totals left and right.
fn join_cost(w: u32, left: u64, right: u64) -> u64
    requires { Cost left × Cost right }
    ensures { result ≡ join_cost w left right }
{
    if NONE <= left || NONE <= right {
        NONE
    } else {
        u64::from(w) + left + right
    }
}

// The least total of a part that starts with candidate t, by the rows of outer t.
fn cost_of(instance: &Instance, run: &Rows<'_>, work: &[u64], t: usize) -> u64
    requires well_formed { (length instance.now.job.candidates.now ≤ length work.now)
        × (t < length instance.now.job.candidates.now) × Run instance.now.job.rows.now t run.now.rows.now }
    requires ready_beneath { ReadyBeneath (problem_at instance.now) work.now t }
    ensures { result ≡ cost_of (best_from (problem_at instance.now) instance.now.job.n t) }
{
    let blocked = instance.blocked();
    let [a, b, c] = instance.job.candidates[t];
    let left = best_under(&blocked, work, run, t, a, b);
    let right = best_under(&blocked, work, run, t, b, c);
    join_cost(instance.job.weights[t], left.cost, right.cost)
}

// Fills the places of the candidates whose first vertex is v, where those of later ones are filled.
fn fill_block(instance: &Instance, work: &mut [u64], v: usize)
    requires well_formed { (length instance.now.job.candidates.now ≤ length work.old) × (v < max_vertices) }
    requires filled { Filled (problem_at instance.now) work.old (get_or instance.now.starts.now (v + 1) 0) work.old }
    ensures { Filled (problem_at instance.now) work.old (get_or instance.now.starts.now v 0) work.new }
{
    let rows = instance.rows();
    let mut first = rows.lower_bound(instance.starts[v], 0);
    // A loop over places: what hangs on candidate t reads other places of the table that is written.
    for t in instance.starts[v]..instance.starts[v + 1] {
        let last = rows.run_end(first, t);
        let run = Rows::new(&rows.rows[first..last]);
        work[t] = cost_of(instance, &run, work, t);
        first = last;
    }
}

// Fills the place of every candidate.
pub fn fill(instance: &Instance, work: &mut [u64])
    requires { length instance.now.job.candidates.now ≤ length work.old }
    ensures { work.new ≡ filled (part_totals (problem_at instance.now)) work.old }
{
    for v in (0..instance.job.n).rev() {
        fill_block(instance, work, v);
    }
}
