// The bench program (rule 5.3), which has the largest limit.
#![tactic(auto)]

ghost use Rattle.std.specs.Prelude.{◌≡◌};
ghost use Rattle.terms.specs.Limits.{max_vertices};
ghost use Rattle.pipeline.specs.Patching.{patch_file};
ghost use Rattle.patch_program.specs.Run.{empty_tables};

use codes::Refusal;
use programs::input;
use std::io;
use triangulator::Patch;

// Closes the rim of a file and prints its patch. (The contract is of this program's limit.)
fn close(rt: &impl Print, file: &[u8]) -> (Result<Option<Patch>, Refusal>, io::Result<()>)
    ensures { result.0 ≡ (patch_file max_vertices file.now empty_tables).outcome }
{
    patch_program::run(rt, terms::MAX_VERTICES, file)
}

fn main(rt: HostRuntime) -> io::Result<()> {
    let mut file = [0u8; input::BUFFER];
    let length = input::read(&mut rt.stdin(), &mut file)?;
    let (_, printed) = close(&rt, &file[..length]);
    printed
}
