// The walk along the chain of records.
ghost use Rattle.std.specs.Prelude.{◌≡◌, false, ℕ, ◌≤◌, MatchResult};
ghost use Rattle.codes.specs.Refusals.{refusal, or_refused};
ghost use Rattle.terms.specs.Limits.{max_vertices};
ghost use Rattle.rim_file.specs.File.{length_wrong};
ghost use Rattle.reader.specs.Chain.{over_limit, chain_code};
ghost use Rattle.reader.specs.Steps.{Walking, Stepped, Stopped, chain_of};

use crate::{Chain, Progress};
use codes::Refusal;
use grid::GridPoint;
use polygon::normal::Normal;
use rim_file::file::RimFile;
use rim_file::normal;

// The refusal of a record that is one too many.
fn over_limit(limit: usize) -> Refusal
    ensures { result ≡ refusal (over_limit limit) }
{
    if limit == terms::MAX_VERTICES {
        return Refusal::TOO_MANY_VERTICES;
    }
    Refusal::OVER_LIMIT
}

// The walk before the first position, whatever the limit: no record is met.
fn start(file: &RimFile<'_>) -> Progress
    requires { (length_wrong file.now.bytes.now ≡ false) }
    ensures { ((limit : ℕ) → Walking limit file.now.bytes.now result) × (result.n ≡ 0) }
{
    Progress {
        met: [false; crate::MARKS],
        height: None,
        vertex: GridPoint { x: 0, y: 0, z: 0 },
        normal: Normal::none(),
        n: 0,
        link: file.first_record(),
    }
}

// One position of the chain: the walk past its record, or the first number due there.
fn step(limit: usize, file: &RimFile<'_>, walk: Progress) -> Result<Progress, Refusal>
    requires { (length_wrong file.now.bytes.now ≡ false) × (Walking limit file.now.bytes.now walk) × (walk.link ≡ 0 → ⊥) × (limit ≤ max_vertices) }
    ensures { MatchResult result (λ next. Stepped limit file.now.bytes.now walk next) (λ r. Stopped limit file.now.bytes.now walk r) }
{
    let link = walk.link;
    let n = walk.n;
    let next = n + 1;
    let mut met = walk.met;
    if file.record_count() < link {
        return Err(Refusal::LINK);
    }
    if met[link] {
        return Err(Refusal::RECORD_REPEATED);
    }
    if n == limit {
        return Err(over_limit(limit));
    }
    let at = file.record_start(link);
    let vertex = file.vertex_at(at, walk.height)?;
    let normal = normal::checked(file.normal_at(at))?;
    met[link] = true;
    Ok(Progress {
        met,
        height: Some(vertex.z),
        vertex,
        normal,
        n: next,
        link: file.next_record(at),
    })
}

// The vertices of a chain of at most so many and their normals, or the first number due along it.
pub fn follow_chain(limit: usize, file: &RimFile<'_>) -> Result<Chain, Refusal>
    requires { (length_wrong file.now.bytes.now ≡ false) × (limit ≤ max_vertices) }
    ensures { result ≡ or_refused (chain_code limit file.now.bytes.now) (chain_of file.now.bytes.now) }
{
    let mut vertices = [GridPoint { x: 0, y: 0, z: 0 }; terms::MAX_VERTICES];
    let mut normals = [Normal::none(); terms::MAX_VERTICES];
    let mut walk = start(file);
    while walk.link != 0 {
        let n = walk.n;
        walk = step(limit, file, walk)?;
        vertices[n] = walk.vertex;
        normals[n] = walk.normal;
    }
    Ok(Chain {
        n: walk.n,
        vertices,
        normals,
    })
}
