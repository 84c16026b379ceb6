// The least total of all triangulations, by dynamic programming over the candidates.
// work[t] is the least total of a part that starts with candidate t. From it the crate `preorder` lists the triangles; `clear` leaves zeros in its place.
#![tactic(auto)]

pub mod choice;
mod costs;
pub mod instance;

ghost use Rattle.std.specs.Prelude.{◌≡◌, ◌≤◌, length, replicate};
ghost use Rattle.lists.specs.Lists.{filled};
ghost use Rattle.triangulation.specs.Triangulations.{best_key};
ghost use Rattle.triangulation.specs.Recursion.{key_total};
ghost use Rattle.minimum_weight.specs.Tables.{part_totals};
ghost use Rattle.minimum_weight.specs.Instances.{problem_at};

use instance::Instance;

// Stands for 'none' in the work table, above every total: `no_total` of the contracts. (The table that a C caller lends holds a number in each place.)
pub const NONE: u64 = 0x8000_0000_0000_0000;

// The least total of the whole polygon, none where no triangulation is there, with the least total of each part in the work table. No triangle is written.
pub fn least_total(instance: &Instance, work: &mut [u64]) -> Option<u64>
    requires { length instance.now.job.candidates.now ≤ length work.old }
    ensures total { result ≡ key_total (best_key (problem_at instance.now)) }
    ensures work { work.new ≡ filled (part_totals (problem_at instance.now)) work.old }
{
    costs::fill(instance, work);
    let job = &instance.job;
    let last = (job.n - 1) as u8;
    let whole = choice::best_under(
        &instance.blocked(),
        work,
        &instance.rows(),
        job.candidates.len(),
        0,
        last,
    );
    if whole.cost < NONE {
        Some(whole.cost)
    } else {
        None
    }
}

// Zero in the first n places.
pub fn clear(table: &mut [u64], n: usize)
    requires { n ≤ length table.old }
    ensures { table.new ≡ filled (replicate n 0) table.old }
{
    table[..n].fill(0);
}
