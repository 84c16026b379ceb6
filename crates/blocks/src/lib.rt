// Where the candidates of each first vertex stand: they ascend by it.
#![tactic(auto)]

ghost use Rattle.std.specs.Prelude.{◌≡◌, ◌≤◌, length, ltb};
ghost use Rattle.std.specs.List.{prefix_len};
ghost use Rattle.terms.specs.Entries.{vertex_a};
ghost use Rattle.blocks.specs.Blocks.{ByFirst, Starts, starts_of};

// A start for each vertex, and the end of the last block.
pub const STARTS: usize = terms::MAX_VERTICES + 1;

// Candidates, and where the block of each first vertex starts.
#[derive(Clone, Copy)]
pub struct Blocked<'a> {
    pub candidates: &'a [[u8; 3]],
    pub starts: &'a [usize; STARTS],
    pub ghost blocks: { Starts candidates.now starts.now },
}

// How many candidates from the first on have a first vertex below k.
fn count_below(candidates: &[[u8; 3]], k: usize) -> usize
    ensures value { result ≡ prefix_len (λ t. ltb (vertex_a t) k) candidates.now }
    ensures within { result ≤ length candidates.now }
{
    candidates
        .iter()
        .take_while(|t| usize::from(t[0]) < k)
        .count()
}

// Place k has the number of candidates whose first vertex is below k: the block of k starts there, and ends where the next one starts.
pub fn block_starts(candidates: &[[u8; 3]]) -> [usize; STARTS]
    requires { ByFirst candidates.now }
    ensures { result ≡ starts_of candidates.now }
{
    let mut starts = [0usize; STARTS];
    let mut passed = 0;
    // One pass over the candidates: on few of them 65 bisections took longer than the rest of the call.
    for (k, start) in starts.iter_mut().enumerate() {
        passed += count_below(&candidates[passed..], k);
        *start = passed;
    }
    starts
}
