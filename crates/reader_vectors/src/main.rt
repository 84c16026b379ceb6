// The reader on stored files. The cases stand on standard input, with the answers that the rules of the rim
// file and of the numbers ask for (parts 1 and 4 of docs/SPECIFICATION.md), worked out by hand. Each case is
// printed with the answer that came: a number, or ok.
#![tactic(auto)]

mod answers;
mod cases;
mod compare;
mod file;
mod text;

use programs::input;
use std::io;

fn main(rt: HostRuntime) -> io::Result<()> {
    let mut text = [0u8; text::ROOM];
    input::read_full(&mut rt.stdin(), &mut text)?;
    let mut file = [0u8; file::SPACE];
    cases::run(&rt, &mut file, &text)
}
