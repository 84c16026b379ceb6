// A rim file's bytes in the other edition: the layout that it goes to, the bytes written there, and the test for a normal that would be lost.
// Nothing here is for hosts: the functions serve the converter, which meets what they ask.
#![tactic(auto)]

pub mod normals;
pub mod writing;

ghost use Rattle.std.specs.Prelude.{◌≡◌};
ghost use Rattle.conversion.specs.Steps.{target_of};

use rim_file::Layout;
use rim_file::edition::{Edition, RECORD_SIZE_1};

// The edition that a file is carried to, and where that has its numbers.
#[derive(Clone, Copy)]
pub struct Target {
    pub edition: Edition,
    pub layout: Layout,
}

pub fn target_of(source: Layout) -> Target
    ensures { result ≡ target_of source }
{
    if source.record_size == RECORD_SIZE_1 {
        let layout = Edition::Two.layout();
        return Target {
            edition: Edition::Two,
            layout,
        };
    }
    let layout = Edition::One.layout();
    Target {
        edition: Edition::One,
        layout,
    }
}
