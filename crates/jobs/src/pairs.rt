// Hanging pairs: two candidates that share an edge.
ghost use Rattle.std.specs.Prelude.{◌≡◌};
ghost use Rattle.terms.specs.Entries.{hangs};

// Candidate t hangs on candidate u: t's edge (a, c) is u's (a, b) or (b, c).
#[tactic(auto, unfolding(terms::specs::Entries::hangs))]
pub fn hangs_on(t: [u8; 3], u: [u8; 3]) -> bool
    ensures { result ≡ hangs t u }
{
    let [a, b, c] = u;
    let long_edge = (t[0], t[2]);
    long_edge == (a, b) || long_edge == (b, c)
}
