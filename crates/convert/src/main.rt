// The program convert (rule 5.8): the rim file on standard input goes to standard output in the other edition.
#![tactic(auto)]

ghost use Rattle.std.specs.Prelude.{◌≡◌};
ghost use Rattle.converter.specs.Call.{converting, convert_call};

use codes::Refusal;
use converter::Converted;
use programs::input;
use std::io;

// The file in the other edition, in the first places of the output table.
fn convert_file(file: &[u8], out: &mut [u8]) -> Result<Converted, Refusal>
    ensures { converting result out.new ≡ convert_call file.now out.old }
{
    converter::convert(file, out)
}

fn main(rt: HostRuntime) -> io::Result<()> {
    let mut file = [0u8; input::BUFFER];
    let length = input::read(&mut rt.stdin(), &mut file)?;
    let mut out = [0u8; input::LONGEST];
    let conversion = convert_file(&file[..length], &mut out);
    match conversion {
        Ok(_) => rt.write_all(converter::part(&out, conversion)),
        Err(refusal) => println!(rt; "{refusal}"),
    }
}
