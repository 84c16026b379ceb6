// The best triangulation of a job on which no number is due, and what a call that patches or prices answers.
#![tactic(auto)]

pub mod solver;

ghost use Rattle.std.specs.Prelude.{◌≡◌, ◌+◌, ◌≤◌, length};
ghost use Rattle.triangulation.specs.Triangulations.{best};
ghost use Rattle.triangulation.specs.Problems.{problem_from};
ghost use Rattle.minimum_weight.specs.Tables.{WellFormed};
ghost use Rattle.triangulator.specs.Call.{triangles_of, total_of, values_of, answer_values, part_of, result_of, settled};

use codes::Refusal;
use jobs::Job;

// The number of triangles of a patch, and its total. A call that patches or prices answers one, none where no triangulation is there, or a refusal.
#[derive(Clone, Copy, Debug, PartialEq, Eq)]
pub struct Patch {
    pub triangles: usize,
    pub total: u64,
}

// How many triangles the patch has, which are the places that it takes in the triangle table; 0 where there is none.
pub fn triangles_of(outcome: &Result<Option<Patch>, Refusal>) -> usize
    ensures { result ≡ triangles_of outcome.now }
{
    match outcome {
        Ok(Some(patch)) => patch.triangles,
        Ok(None) | Err(_) => 0,
    }
}

// The total of a patch, else 0.
pub fn total_of(outcome: &Result<Option<Patch>, Refusal>) -> u64
    ensures { result ≡ total_of outcome.now }
{
    match outcome {
        Ok(Some(patch)) => patch.total,
        Ok(None) | Err(_) => 0,
    }
}

// The best triangulation of a job on which no number is due.
pub fn best_triangulation(
    n: usize,
    candidates: &[[u8; 3]],
    weights: &[u32],
    rows: &[[u32; 3]],
    triangles: &mut [u16],
    work: &mut [u64],
) -> Result<Option<Patch>, Refusal>
    requires { WellFormed n candidates.now weights.now rows.now × (length candidates.now ≤ length work.old)
        × (n ≤ length triangles.old + 2) }
    ensures tables { result_of result triangles.new work.new
        ≡ settled (best (problem_from n candidates.now weights.now rows.now))
        (length candidates.now) triangles.old work.old }
    ensures values { values_of result ≡ answer_values n (best (problem_from n candidates.now weights.now rows.now)) }
{
    let job = Job {
        n,
        candidates,
        weights,
        rows,
    };
    let found = solver::solve(&job, None, triangles, work);
    let Some(least) = found else {
        return Ok(None);
    };
    Ok(Some(Patch {
        triangles: n - 2,
        total: least,
    }))
}

// The filled part of the triangle table after a call with this outcome.
pub fn part(triangles: &[u16], outcome: Result<Option<Patch>, Refusal>) -> &[u16]
    ensures { result.now ≡ part_of outcome triangles.now }
{
    let count = triangles_of(&outcome);
    if count <= triangles.len() {
        &triangles[..count]
    } else {
        &triangles[..0]
    }
}
