// What the programs bench and trim do with the rim file that they read, of either edition: they close its gap and print the patch, and differ in their
// limit (rules 5.3, 5.4, 5.9).
#![tactic(auto)]

ghost use Rattle.std.specs.Prelude.{◌≡◌};
ghost use Rattle.pipeline.specs.Patching.{patch_file};
ghost use Rattle.patch_program.specs.Run.{empty_tables};
ghost use Rattle.patch_program.specs.Printing.{printout_of};

use codes::Refusal;
use patch_lines::{Line, Listing, TRIANGLES};
use rows::Rows;
use std::{fmt, io};
use triangulator::Patch;

// Places of the tables beside that for triangles; a few rims need more than there is (rule 5.3).
const CANDIDATES: usize = 1024;

const ROWS: usize = 4096;

// What is printed: the outcome; for a patch also the number of its vertices, and a line in each of as many first places as it has triangles
// (an array, since there is no heap).
#[derive(Clone, Copy)]
pub struct Printout {
    pub outcome: Result<Option<Patch>, Refusal>,
    pub vertices: usize,
    pub lines: [Line; TRIANGLES],
}

// The lines that are printed (rule 5.4).
impl fmt::Display for Printout {
    fn fmt<W: fmt::Write>(&self, f: &mut fmt::Formatter<W>) -> fmt::Result {
        match self.outcome {
            Ok(Some(Patch { triangles, total })) => {
                writeln!(f, "patch {} {triangles} {total}", self.vertices)?;
                for line in self.lines.iter().take(triangles) {
                    writeln!(f, "{line}")?;
                }
                Ok(())
            }
            Ok(None) => writeln!(f, "none"),
            Err(refusal) => writeln!(f, "{refusal}"),
        }
    }
}

// What is printed for a file.
pub fn printout_of(limit: usize, file: &[u8]) -> Printout
    ensures { result ≡ printout_of limit file.now }
{
    let mut triangles = [0u16; TRIANGLES];
    let mut candidates = [[0u8; 3]; CANDIDATES];
    let mut weights = [0u32; CANDIDATES];
    let mut rows = [[0u32; 3]; ROWS];
    let mut work = [0u64; CANDIDATES];
    let outcome = pipeline::patch_file(
        limit,
        file,
        &mut triangles,
        &mut candidates,
        &mut weights,
        &mut rows,
        &mut work,
    );
    let vertices = patch_lines::vertices_of(&outcome);
    let row_count = patch_lines::row_count(&rows);
    let patch = triangulator::part(&triangles, outcome);
    let rows = Rows::new(&rows[..row_count]);
    let listing = Listing {
        candidates: &candidates,
        weights: &weights,
        rows,
        patch,
    };
    let lines = listing.lines();
    Printout {
        outcome,
        vertices,
        lines,
    }
}

// Closes the rim of a file and prints its patch; answers what came of it, and whether all could be written.
pub fn run(
    rt: &impl Print,
    limit: usize,
    file: &[u8],
) -> (Result<Option<Patch>, Refusal>, io::Result<()>)
    ensures { result.0 ≡ (patch_file limit file.now empty_tables).outcome }
{
    let printout = printout_of(limit, file);
    let outcome = printout.outcome;
    (outcome, print!(rt; "{printout}"))
}
