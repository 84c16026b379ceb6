// 15: each candidate is a < b < c < n and strictly after the one before it.
ghost use Rattle.std.specs.Prelude.{◌≡◌};
ghost use Rattle.terms.specs.Entries.{before};
ghost use Rattle.jobs.specs.Job.{ascends, candidates_fit};

#[tactic(auto, unfolding(crate::specs::Job::ascends))]
fn vertices_ascend(n: usize, a: u8, b: u8, c: u8) -> bool
    ensures { result ≡ ascends n a b c }
{
    a < b && b < c && usize::from(c) < n
}

// By a, then b, then c.
#[tactic(auto, unfolding(terms::specs::Entries::before))]
fn comes_before(s: &[u8; 3], t: &[u8; 3]) -> bool
    ensures { result ≡ before s.now t.now }
{
    (s[0], s[1], s[2]) < (t[0], t[1], t[2])
}

// One pass, which ends at the first place that fails: each candidate after the first is tested beside the one before it.
pub fn candidates_fit(n: usize, candidates: &[[u8; 3]]) -> bool
    ensures { result ≡ candidates_fit n candidates.now }
{
    candidates
        .first()
        .is_none_or(|t| vertices_ascend(n, t[0], t[1], t[2]))
        && candidates.is_sorted_by(|s, t| vertices_ascend(n, t[0], t[1], t[2])
            && comes_before(s, t))
}
