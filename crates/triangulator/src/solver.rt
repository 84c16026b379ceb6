// The triangulation of least total in three steps: the totals, the triangles, and zeros in the work table.
ghost use Rattle.std.specs.Prelude.{◌≡◌, ◌+◌, ◌≤◌, length, replicate};
ghost use Rattle.lists.specs.Lists.{filled};
ghost use Rattle.jobs.specs.Job.{job_in};
ghost use Rattle.triangulation.specs.Triangulations.{best_key};
ghost use Rattle.triangulation.specs.Problems.{problem_of};
ghost use Rattle.triangulation.specs.Recursion.{key_total};
ghost use Rattle.minimum_weight.specs.Tables.{WellFormed};
ghost use Rattle.triangulator.specs.Steps.{lists, listed_by};

use jobs::Job;
use minimum_weight::instance::Instance;
use minimum_weight::{clear, least_total};
use preorder::write_preorder;

// The triangles are listed at this least total: at the agreed one, or at any where none is agreed.
fn is_listed(agreed: Option<u64>, total: u64) -> bool
    ensures { result ≡ lists agreed total }
{
    agreed.is_none_or(|figure| figure == total)
}

// The least total, none where no triangulation is there. Where it is listed, the triangles of the first triangulation with that total are written in
// preorder. The work table is zero in one place per candidate.
pub fn solve(job: &Job, agreed: Option<u64>, triangles: &mut [u16], work: &mut [u64]) -> Option<u64>
    requires { WellFormed job.now.n job.now.candidates.now job.now.weights.now job.now.rows.now
        × (length job.now.candidates.now ≤ length work.old) × (job.now.n ≤ length triangles.old + 2) }
    ensures total { result ≡ key_total (best_key (problem_of (job_in job.now))) }
    ensures triangles { triangles.new ≡ listed_by agreed (best_key (problem_of (job_in job.now))) triangles.old }
    ensures work { work.new ≡ filled (replicate (length job.now.candidates.now) 0) work.old }
{
    let starts = blocks::block_starts(job.candidates);
    let instance = Instance {
        job: *job,
        starts: &starts,
    };
    let least = least_total(&instance, work);
    if let Some(total) = least
        && is_listed(agreed, total)
    {
        write_preorder(&instance, work, triangles);
    }
    clear(work, instance.job.candidates.len());
    least
}

// The least total, none where no triangulation is there, and no triangle; the work table is left as by `solve`.
pub fn least(job: &Job, work: &mut [u64]) -> Option<u64>
    requires { WellFormed job.now.n job.now.candidates.now job.now.weights.now job.now.rows.now
        × (length job.now.candidates.now ≤ length work.old) }
    ensures total { result ≡ key_total (best_key (problem_of (job_in job.now))) }
    ensures work { work.new ≡ filled (replicate (length job.now.candidates.now) 0) work.old }
{
    let starts = blocks::block_starts(job.candidates);
    let instance = Instance {
        job: *job,
        starts: &starts,
    };
    let least = least_total(&instance, work);
    clear(work, job.candidates.len());
    least
}
