// A job that the dynamic programme takes, and where the block of each first vertex starts.
ghost use Rattle.std.specs.Prelude.{◌≡◌};
ghost use Rattle.blocks.specs.Blocks.{Starts};
ghost use Rattle.minimum_weight.specs.Tables.{WellFormed};

use blocks::Blocked;
use jobs::Job;
use rows::Rows;

#[derive(Clone, Copy)]
pub struct Instance<'a> {
    pub job: Job<'a>,
    pub starts: &'a [usize; blocks::STARTS],
    pub ghost well_formed: { WellFormed job.n job.candidates.now job.weights.now job.rows.now },
    pub ghost blocks: { Starts job.candidates.now starts.now },
}

impl Instance<'_> {
    // The rows of the job, which ascend.
    pub fn rows(&self) -> Rows<'_>
        ensures { result.rows.now ≡ self.now.job.rows.now }
    {
        Rows::new(self.job.rows)
    }

    // The candidates of the job with the starts of their blocks.
    pub fn blocked(&self) -> Blocked<'_>
        ensures { (result.candidates.now ≡ self.now.job.candidates.now) × (result.starts.now ≡ self.now.starts.now) }
    {
        Blocked {
            candidates: self.job.candidates,
            starts: self.starts,
        }
    }
}
