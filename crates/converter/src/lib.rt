// The converter's open call: a rim file that the reader takes, carried to the other edition where the table has room and no normal is lost.
#![tactic(auto)]

ghost use Rattle.std.specs.Prelude.{◌≡◌, false};
ghost use Rattle.codes.specs.Refusals.{or_refused};
ghost use Rattle.rim_file.specs.File.{length_wrong};
ghost use Rattle.converter.specs.Call.{values_of, conversion_code, conversion_number, number_due, due_values};
ghost use Rattle.converter.specs.Call.{converting, convert_by, convert_call, part_of};

use codes::Refusal;
use conversion::{normals, writing};
use rim_file::edition::{self, Edition};
use rim_file::file::RimFile;

// What a file was converted to.
#[derive(Clone, Copy, Debug, PartialEq, Eq)]
pub struct Converted {
    pub edition: Edition,
    // How many bytes were written.
    pub length: usize,
}

// The first number due of 13 and 19.
fn check(short: bool, lost: bool) -> Result<(), Refusal>
    ensures { result ≡ or_refused (conversion_code short lost) tt }
{
    if short {
        return Err(Refusal::TABLE_TOO_SHORT);
    }
    if lost {
        return Err(Refusal::NORMAL_LOST);
    }
    Ok(())
}

// Carries a file on which the reader found no number.
fn carry(file: &RimFile<'_>, out: &mut [u8]) -> Result<Converted, Refusal>
    requires { length_wrong file.now.bytes.now ≡ false }
    ensures { converting result out.new
        ≡ convert_by (conversion_number file.now.bytes.now out.old) file.now.bytes.now out.old }
{
    let target = conversion::target_of(file.layout());
    let length = edition::record_start(target.layout, file.record_count() + 1);
    let lost = normals::has_normal(file);
    check(out.len() < length, lost)?;
    writing::write_file(file, target.layout, out);
    Ok(Converted {
        edition: target.edition,
        length,
    })
}

// The file in the other edition, in the first places of the output table. Numbers 1 to 11 and 18, then 13, then 19.
#[tactic(auto, using(crate::proofs::Answers::right_read), unfolding(crate::specs::Call::convert_call))]
pub fn convert(file: &[u8], out: &mut [u8]) -> Result<Converted, Refusal>
    ensures tables { converting result out.new ≡ convert_call file.now out.old }
    ensures values { values_of result ≡ due_values (number_due file.now out.old) file.now }
{
    let _polygon = reader::read_polygon(terms::MAX_VERTICES, file)?;
    carry(&RimFile::new(file), out)
}

// The converted file after a call with this answer: the filled part of the output table.
pub fn part(out: &[u8], conversion: Result<Converted, Refusal>) -> &[u8]
    ensures { result.now ≡ part_of conversion out.now }
{
    match conversion {
        Ok(converted) if converted.length <= out.len() => &out[..converted.length],
        _ => &out[..0],
    }
}
