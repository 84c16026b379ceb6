// The tiler's two calls on a direct job: the price first, then the patch at the agreed total. Each speaks of the job as it is handed to that call.
#![tactic(auto)]

ghost use Rattle.std.specs.Prelude.{◌≡◌, length};
ghost use Rattle.jobs.specs.Job.{job_in};
ghost use Rattle.triangulator.specs.Call as tiler;
ghost use Rattle.pricing.specs.Quote.{result_of, priced_values, priced};
ghost use Rattle.pricing.specs.Patch.{patched_at_values, patched_at};

use codes::Refusal;
use jobs::Job;
use triangulator::{Patch, solver};

// 14, 13, 15, 16 and 17 with no triangle table, then the least total with the number of triangles of its patch.
#[tactic(auto, unfolding(crate::specs::Quote::priced))]
pub fn price(job: &Job, work: &mut [u64]) -> Result<Option<Patch>, Refusal>
    ensures tables { result_of result work.new ≡ priced (job_in job.now) work.old }
    ensures values { tiler.values_of result ≡ priced_values (job_in job.now) (length work.old) }
{
    job.check_without_triangles(work.len())?;
    let found = solver::least(job, work);
    let Some(total) = found else {
        return Ok(None);
    };
    let triangles = job.n - 2;
    Ok(Some(Patch { triangles, total }))
}

// 14, 13, 15, 16 and 17; 'none', whatever was agreed; 23 where the least total is not the agreed one; else the best triangulation.
#[tactic(auto, unfolding(crate::specs::Patch::patched_at))]
pub fn patch(
    job: &Job,
    agreed: u64,
    triangles: &mut [u16],
    work: &mut [u64],
) -> Result<Option<Patch>, Refusal>
    ensures tables { tiler.result_of result triangles.new work.new
        ≡ patched_at (job_in job.now) agreed triangles.old work.old }
    ensures values { tiler.values_of result
        ≡ patched_at_values (job_in job.now) agreed (length triangles.old) (length work.old) }
{
    job.check(triangles.len(), work.len())?;
    let found = solver::solve(job, Some(agreed), triangles, work);
    let Some(least) = found else {
        return Ok(None);
    };
    if least != agreed {
        return Err(Refusal::NOT_LEAST);
    }
    Ok(Some(Patch {
        triangles: job.n - 2,
        total: least,
    }))
}
