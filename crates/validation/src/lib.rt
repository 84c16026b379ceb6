// Whether a list of candidates from elsewhere is a triangulation without repeats, with the total stated for it: 21 and 22.
#![tactic(auto)]

mod edges;
mod names;
mod selection;
mod totals;

ghost use Rattle.std.specs.Prelude.{◌≡◌, ◌≤◌, true, length, eqb};
ghost use Rattle.codes.specs.Refusals.{or_refused};
ghost use Rattle.terms.specs.Limits.{max_vertices};
ghost use Rattle.jobs.specs.Job.{job_in, unless};
ghost use Rattle.triangulation.specs.Triangulations.{ValidProblem};
ghost use Rattle.triangulation.specs.Problems.{problem_of};
ghost use Rattle.rows.specs.Search.{RowsAscend};
ghost use Rattle.validation.specs.Validation.{is_tiling, list_total, list_code};

use codes::Refusal;
use jobs::Job;
use rows::Rows;
use selection::Selection;

// Whether the list is a tiling without repeats. That no candidate stands twice need not be tested: it would have its edges twice.
fn is_tiling(job: &Job, list: &[u16]) -> bool
    requires { ValidProblem (problem_of (job_in job.now)) × (job.now.n ≤ max_vertices) }
    ensures { result ≡ is_tiling (problem_of (job_in job.now)) list.now }
{
    names::names_triangles(job.n, job.candidates.len(), list)
        && edges::is_triangulation(job.n, &Selection::new(job.candidates, list))
}

// Whether a tiling has the stated total.
fn has_total(job: &Job, list: &[u16], stated: u64) -> bool
    requires { ValidProblem (problem_of (job_in job.now)) × (job.now.n ≤ max_vertices)
        × (length job.now.candidates.now ≤ length job.now.weights.now) × RowsAscend job.now.rows.now
        × (is_tiling (problem_of (job_in job.now)) list.now ≡ true) }
    ensures { result ≡ eqb stated (list_total (problem_of (job_in job.now)) list.now) }
{
    let selection = Selection::new(job.candidates, list);
    stated == totals::total(&selection, job.weights, &Rows::new(job.rows))
}

// The first number due of 21 and 22.
fn check(tiling: bool, total: bool) -> Result<(), Refusal>
    ensures { result ≡ or_refused (unless tiling 21 (unless total 22 0)) tt }
{
    if !tiling {
        return Err(Refusal::NOT_A_TRIANGULATION);
    }
    if !total {
        return Err(Refusal::WRONG_TOTAL);
    }
    Ok(())
}

// The first of 21 and 22 that is due on a list.
#[tactic(auto, unfolding(crate::specs::Validation::list_code))]
pub fn check_list(job: &Job, list: &[u16], stated: u64) -> Result<(), Refusal>
    requires { ValidProblem (problem_of (job_in job.now)) × (job.now.n ≤ max_vertices)
        × (length job.now.candidates.now ≤ length job.now.weights.now) × RowsAscend job.now.rows.now }
    ensures { result ≡ or_refused (list_code (problem_of (job_in job.now)) list.now stated) tt }
{
    let tiling = is_tiling(job, list);
    check(tiling, tiling && has_total(job, list, stated))
}
