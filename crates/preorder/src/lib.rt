// Writing the triangles of the best triangulation in preorder: a loop over the parts still to be listed.
#![tactic(auto)]

ghost use Rattle.std.specs.Prelude.{◌≡◌, ◌+◌, ◌<◌, ◌≤◌, length};
ghost use Rattle.lists.specs.Lists.{filled};
ghost use Rattle.triangulation.specs.Triangulations.{best_key};
ghost use Rattle.triangulation.specs.Recursion.{cost_of, rest_of, no_total};
ghost use Rattle.minimum_weight.specs.Tables.{AllReady};
ghost use Rattle.minimum_weight.specs.Instances.{problem_at};
ghost use Rattle.preorder.specs.Preorder.{part_under};

use jobs::Job;
use minimum_weight::choice::best_in_block;
use minimum_weight::instance::Instance;

// The part of the polygon from vertex `first` to vertex `last`, under the triangle `outer`. It has a vertex between them: a rim edge
// (i, i + 1) is no part.
#[derive(Clone, Copy)]
pub struct Part {
    pub outer: usize,
    pub first: u8,
    pub last: u8,
}

impl Part {
    fn new(outer: usize, first: u8, last: u8) -> Part
        ensures { result ≡ part_under outer first last }
    {
        Part { outer, first, last }
    }
}

// The parts that wait at once, at most: `most_parts` of specs/Preorder.
const MOST_PARTS: usize = (terms::MAX_VERTICES - 1) / 2;

// Writes the triangles of the whole polygon's best triangulation, where there is one.
pub fn write_preorder(instance: &Instance, work: &[u64], triangles: &mut [u16])
    requires places { (length instance.now.job.candidates.now ≤ length work.now) × (instance.now.job.n ≤ length triangles.old + 2) }
    requires all_ready { AllReady (problem_at instance.now) work.now × (cost_of (best_key (problem_at instance.now)) < no_total) }
    ensures { triangles.new ≡ filled (rest_of (best_key (problem_at instance.now))) triangles.old }
{
    let Job { n, candidates, .. } = instance.job;
    let blocked = instance.blocked();
    let rows = instance.rows();
    let last = (n - 1) as u8;
    let whole = Part::new(candidates.len(), 0, last);
    // No heap: the parts stand in an array, and `height` of them wait.
    let mut stack = [whole; MOST_PARTS];
    let mut height: usize = 1;
    // Turn `count` lists one triangle, at place `count`, and after it no more parts wait than triangles are still to be listed: `Listing` in
    // specs/Preorder. As long as a triangle is to be listed, a part waits. An index loop: `Listing` counts the turns, and the table is written by them.
    for count in 0..n - 2 {
        height -= 1;
        let part = stack[height];
        let t = part.outer;
        let i = part.first;
        let j = part.last;
        let pick = best_in_block(&blocked, work, &rows, t, i, j);
        let u = pick.at;
        let triangle = candidates[u];
        let b = triangle[1];
        triangles[count] = u as u16;
        // The right part first, so that the left one is the next to be taken.
        if 1 < j - b {
            stack[height] = Part::new(u, b, j);
            height += 1;
        }
        if 1 < b - i {
            stack[height] = Part::new(u, i, b);
            height += 1;
        }
    }
}
