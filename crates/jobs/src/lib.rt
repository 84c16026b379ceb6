// The tests of a direct job: 14, 13, 15, 16, 17, each over the whole job before the next (rule 4.32).
#![tactic(auto)]

mod candidates;
pub mod pairs;
mod rows;
mod weights;

ghost use Rattle.std.specs.Prelude.{◌≡◌};
ghost use Rattle.codes.specs.Refusals.{or_refused};
ghost use Rattle.jobs.specs.Job.{job_in, count_code, lists_code, job_code, code_without_triangles};

use codes::Refusal;

// A job in the lists that its caller lends (rule 3.1). The first places of the weight table are the weights of the candidates.
#[derive(Clone, Copy)]
pub struct Job<'a> {
    pub n: usize,
    pub candidates: &'a [[u8; 3]],
    pub weights: &'a [u32],
    pub rows: &'a [[u32; 3]],
}

impl Job<'_> {
    // 14 where it is due.
    pub fn check_count(&self) -> Result<(), Refusal>
        ensures { result ≡ or_refused (count_code self.now.n) tt }
    {
        if !terms::count_fits(self.n) {
            return Err(Refusal::VERTEX_COUNT);
        }
        Ok(())
    }

    // The first of 13 (for the weight table), 15, 16 and 17 that is due.
    #[tactic(auto, unfolding(crate::specs::Job::lists_code))]
    pub fn check_lists(&self) -> Result<(), Refusal>
        ensures { result ≡ or_refused (lists_code (job_in self.now)) tt }
    {
        let count = self.candidates.len();
        if self.weights.len() < count {
            return Err(Refusal::TABLE_TOO_SHORT);
        }
        if !candidates::candidates_fit(self.n, self.candidates) {
            return Err(Refusal::CANDIDATE);
        }
        if !rows::rows_fit(self.candidates, self.rows) {
            return Err(Refusal::ROW);
        }
        if !weights::weights_fit(self.weights, count) || !weights::row_weights_fit(self.rows) {
            return Err(Refusal::WEIGHT);
        }
        Ok(())
    }

    // The first of 14, 13, 15, 16 and 17 that is due on a job and the places lent with it.
    #[tactic(auto, unfolding(crate::specs::Job::job_code))]
    pub fn check(&self, triangle_places: usize, work_places: usize) -> Result<(), Refusal>
        ensures { result ≡ or_refused (job_code (job_in self.now) triangle_places work_places) tt }
    {
        self.check_count()?;
        if triangle_places < self.n - 2 || work_places < self.candidates.len() {
            return Err(Refusal::TABLE_TOO_SHORT);
        }
        self.check_lists()
    }

    // The same for a call that is lent no triangle table.
    #[tactic(auto, using(crate::proofs::First::long_enough))]
    pub fn check_without_triangles(&self, work_places: usize) -> Result<(), Refusal>
        ensures { result ≡ or_refused (code_without_triangles (job_in self.now) work_places) tt }
    {
        // n is never below n − 2, so 13 is not due for triangles.
        self.check(self.n, work_places)
    }
}
