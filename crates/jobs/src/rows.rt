// 16: each row names two candidates, its inner hangs on its outer, and it is strictly after the row before it.
ghost use Rattle.std.specs.Prelude.{◌≡◌};
ghost use Rattle.terms.specs.Entries.{row_before};
ghost use Rattle.jobs.specs.Job.{names_pair, rows_fit};

use crate::pairs::hangs_on;

#[tactic(auto, unfolding(crate::specs::Job::names_pair))]
fn names_pair(candidates: &[[u8; 3]], outer: u32, inner: u32) -> bool
    ensures { result ≡ names_pair candidates.now outer inner }
{
    // A cast: no `From` makes a usize of a u32.
    let u = outer as usize;
    let t = inner as usize;
    u < candidates.len() && t < candidates.len() && hangs_on(candidates[t], candidates[u])
}

// By outer, then inner.
#[tactic(auto, unfolding(terms::specs::Entries::row_before))]
fn row_comes_before(r: &[u32; 3], s: &[u32; 3]) -> bool
    ensures { result ≡ row_before r.now s.now }
{
    (r[0], r[1]) < (s[0], s[1])
}

// One pass, which ends at the first place that fails: each row after the first is tested beside the one before it.
pub fn rows_fit(candidates: &[[u8; 3]], rows: &[[u32; 3]]) -> bool
    ensures { result ≡ rows_fit candidates.now rows.now }
{
    rows.first()
        .is_none_or(|row| names_pair(candidates, row[0], row[1]))
        && rows.is_sorted_by(|r, s| names_pair(candidates, s[0], s[1]) && row_comes_before(r, s))
}
