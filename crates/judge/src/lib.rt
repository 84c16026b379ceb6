// The judge of patches from other programs: is a list of candidates a triangulation with the stated total, and how far is that above the least?
#![tactic(auto)]

ghost use Rattle.std.specs.Prelude.{◌≡◌, length};
ghost use Rattle.jobs.specs.Job.{job_in};
ghost use Rattle.judge.specs.Call.{values_of, result_of, judged_values, judged};

use codes::Refusal;
use jobs::Job;

// 14, 13, 15, 16 and 17 with no triangle table, then 21 and 22, each before any place of the work table is written; then how far the stated total is above
// the least.
#[tactic(auto, unfolding(crate::specs::Call::judged, crate::specs::Call::judge_code))]
pub fn judge(job: &Job, list: &[u16], stated: u64, work: &mut [u64]) -> Result<u64, Refusal>
    ensures tables { result_of result work.new ≡ judged (job_in job.now) list.now stated work.old }
    ensures values { values_of result ≡ judged_values (job_in job.now) list.now stated (length work.old) }
{
    job.check_without_triangles(work.len())?;
    validation::check_list(job, list, stated)?;
    // A list that is not refused is a triangulation, so there is a least total.
    let least = triangulator::solver::least(job, work).unwrap();
    Ok(stated - least)
}
