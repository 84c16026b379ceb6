// A file written in another layout: header and records are copied as bytes, and never decoded.
ghost use Rattle.std.specs.Prelude.{◌≡◌, ◌++◌, suc, ◌+◌, ◌≤◌, length, replicate};
ghost use Rattle.std.proofs.lemmas.List.Edits.{sets};
ghost use Rattle.lists.specs.Lists.{over};
ghost use Rattle.rim_file.specs.File.{header_size, record_count};
ghost use Rattle.conversion.specs.Converted.{bytes_at, record_bytes};
ghost use Rattle.conversion.specs.Steps.{ending_in, in_layout, Room};

use rim_file::Layout;
use rim_file::edition::{self, HEADER_SIZE, RECORD_SIZE_1};
use rim_file::file::RimFile;

// Both bytes of the marker.
const MARKER_BYTE: u8 = 255;

fn copy(file: &[u8], from: usize, count: usize, out: &mut [u8], to: usize)
    requires { (from + count ≤ length file.now) × (to + count ≤ length out.old) }
    ensures { out.new ≡ sets out.old to (bytes_at file.now from count) }
{
    out[to..to + count].copy_from_slice(&file[from..from + count]);
}

fn fill(out: &mut [u8], to: usize, count: usize, byte: u8)
    requires { to + count ≤ length out.old }
    ensures { out.new ≡ sets out.old to (replicate count byte) }
{
    out[to..to + count].fill(byte);
}

// All records, each at its place, with zeros for its normal where the layout has one.
fn write_records(file: &RimFile<'_>, target: Layout, out: &mut [u8])
    requires { Room file.now.bytes.now target out.old }
    ensures { out.new
        ≡ sets out.old (target.header + header_size) (over 1 (suc (record_count file.now.bytes.now)) (λ k. record_bytes
        file.now.bytes.now k ++ ending_in target)) }
{
    // Records go by number, as in the file: they have other sizes and places there than here.
    let count = file.record_count();
    for k in 1..=count {
        let from = file.record_start(k);
        let to = edition::record_start(target, k);
        copy(file.bytes, from, RECORD_SIZE_1, out, to);
        let end = to + RECORD_SIZE_1;
        fill(out, end, target.record_size - RECORD_SIZE_1, 0);
    }
}

// The whole file: the marker where the layout has one, the header, the records.
pub fn write_file(file: &RimFile<'_>, target: Layout, out: &mut [u8])
    requires { Room file.now.bytes.now target out.old }
    ensures { out.new ≡ sets out.old 0 (in_layout target file.now.bytes.now) }
{
    fill(out, 0, target.header, MARKER_BYTE);
    copy(
        file.bytes,
        file.layout().header,
        HEADER_SIZE,
        out,
        target.header,
    );
    write_records(file, target, out);
}
