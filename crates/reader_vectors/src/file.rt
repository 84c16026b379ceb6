// Rim files built in an array. Where a number would lie past the array's end, nothing is written.
ghost use Rattle.std.specs.Prelude.{◌≤◌};

use crate::text;
use crate::text::Text;

// Room for 258 records of edition 2, one more than any file here has.
pub const SPACE: usize = 5686;

pub type Bytes = [u8; SPACE];

// The patterns of some values in millimetres.
const ZERO: u32 = 0;

const ONE: u32 = 0x3f80_0000;

const THREE_QUARTERS: u32 = 0x3f40_0000;

// What a file of edition 2 begins with.
const MARKER: u32 = 65535;

// A number of so many bytes, the lowest first.
fn put(file: &mut Bytes, at: usize, size: u32, value: u32) {
    let mut left = size;
    let mut rest = value;
    for i in at..SPACE {
        if left == 0 {
            return;
        }
        file[i] = (rest % 256) as u8;
        rest = rest / 256;
        left = left - 1;
    }
}

// Every byte is 255. As a record that is junk: a next record over any count, no kind, and no numbers.
pub(crate) fn clear(file: &mut Bytes) {
    *file = [255; SPACE];
}

// A file of edition 2 is Q or a second chain.
pub(crate) fn is_second(text: &Text, at: usize) -> bool {
    match text::byte(text, at) {
        b'Q' | b's' => true,
        _ => false,
    }
}

// Where the header starts: in edition 2 after the first number, which tells the edition.
fn header(second: bool) -> usize
    ensures { result ≤ 2 }
{
    if second { 2 } else { 0 }
}

// Where a record starts; past every array where there is no such record.
fn start(record: u32, second: bool) -> usize
    ensures { result ≤ 5686 }
{
    if record == 0 {
        return SPACE;
    }
    if 258 < record {
        return SPACE;
    }
    let before = record as usize - 1;
    if second {
        10 + 22 * before
    } else {
        8 + 16 * before
    }
}

// The header, with both factors 1. Edition 1 has its first record where edition 2 has the marker.
fn set_header(file: &mut Bytes, second: bool, first: u32, count: u32) {
    let at = header(second);
    put(file, 0, 2, MARKER);
    put(file, at, 2, first);
    put(file, at + 2, 2, count);
    put(file, at + 4, 2, 1);
    put(file, at + 6, 2, 1);
}

// A record, in edition 2 with no surface outside.
fn set_record(
    file: &mut Bytes,
    second: bool,
    record: u32,
    next: u32,
    kind: u32,
    numbers: [u32; 3],
) {
    let at = start(record, second);
    put(file, at, 2, next);
    put(file, at + 2, 2, kind);
    put(file, at + 4, 4, numbers[0]);
    put(file, at + 8, 4, numbers[1]);
    put(file, at + 12, 4, numbers[2]);
    if second {
        put(file, at + 16, 4, 0);
        put(file, at + 20, 2, 0);
    }
}

// Rim file P of rule 6.1, 72 bytes, or 98 in edition 2.
pub(crate) fn four_points(file: &mut Bytes, second: bool) {
    set_header(file, second, 1, 4);
    set_record(file, second, 1, 2, 1, [ZERO, ZERO, ZERO]);
    set_record(file, second, 2, 3, 1, [ONE, ZERO, ZERO]);
    set_record(file, second, 3, 4, 1, [ONE, ONE, THREE_QUARTERS]);
    set_record(file, second, 4, 0, 1, [ZERO, ONE, ZERO]);
}

// Points (1, 2, 3) and (6, 7, 8) with the level point (4, 5) between them, 56 bytes, and `bits` at one of the
// five places where a used number can stand: x, y, z of a point, and x, y of the level point, before which
// stand its link and its kind.
pub(crate) fn three_points_with(file: &mut Bytes, place: usize, bits: u32)
    requires { place ≤ 4 }
{
    set_header(file, false, 1, 3);
    set_record(
        file,
        false,
        1,
        2,
        1,
        [0x3f80_0000, 0x4000_0000, 0x4040_0000],
    );
    set_record(file, false, 2, 3, 2, [0x4080_0000, 0x40a0_0000, 0]);
    set_record(
        file,
        false,
        3,
        0,
        1,
        [0x40c0_0000, 0x40e0_0000, 0x4100_0000],
    );
    put(file, 12 + 4 * (place + place / 3), 4, bits);
}

// The record that stands `stride` records after one of `count`, going round.
fn step(record: u32, stride: u32, count: u32) -> u32 {
    let next = std::num::wrapping_add_u32(record, stride);
    if count < next { next - count } else { next }
}

// Position i of a chain: 64 mm and i, 2i and 4i eighths of a millimetre, the second below zero.
// A third of the positions are points, and the others level points.
fn set_position(file: &mut Bytes, second: bool, record: u32, next: u32, i: u32) {
    let k = i % 256;
    let x = 0x4280_0000 + 0x4000 * k;
    let y = 0xc280_0000 + 0x8000 * k;
    if i % 3 == 0 {
        set_record(
            file,
            second,
            record,
            next,
            1,
            [x, y, 0x4280_0000 + 0x1_0000 * k],
        );
    } else {
        set_record(file, second, record, next, 2, [x, y, ZERO]);
    }
}

// A chain of n records among `count`, from record 1 on by steps of `stride`.
pub(crate) fn chain(file: &mut Bytes, second: bool, n: u32, count: u32, stride: u32) {
    set_header(file, second, 1, count);
    let mut record = 1;
    for i in 0..n {
        let next = step(record, stride, count);
        if n - i == 1 {
            set_position(file, second, record, 0, i);
        } else {
            set_position(file, second, record, next, i);
        }
        record = next;
    }
}

// Where a number starts in the header or in a record, by the first letter of its name; past every array
// for a name that is neither's.
fn place(name: u8) -> usize
    ensures { result ≤ 5686 }
{
    match name {
        b'f' | b'n' => 0, // first, next
        b'R' | b'k' => 2, // R, kind
        b'a' | b'x' => 4, // area factor, x
        b'b' => 6, // bend factor
        b'y' => 8,
        b'z' => 12,
        b'u' => 16, // the numbers of a normal
        b'v' => 18,
        b'w' => 20,
        _ => SPACE,
    }
}

// Sets the number named at `at`, in the header or in the record that starts at `start`. The numbers x, y
// and z are bits.
fn set_number(file: &mut Bytes, start: usize, text: &Text, at: usize)
    requires { start ≤ 5686 }
{
    let name = text::byte(text, at);
    if name < b'x' {
        let number = text::decimal(text, at);
        put(file, start + place(name), 2, text::bits(number));
    } else {
        let bits = text::number_in(text, at, 16);
        put(file, start + place(name), 4, bits.value);
    }
}

// A change is a number of the header, by its name, or a number of a record, by "record", the record and
// its name.
fn change(file: &mut Bytes, second: bool, text: &Text, at: usize) {
    if text::byte(text, at) == b'r' {
        let record = text::decimal(text, at);
        let space = text::find(text, record.end, b' ');
        set_number(file, start(record.value, second), text, space + 1);
    } else {
        set_number(file, header(second), text, at);
    }
}

// The changes from `at` to the colon, each after a comma and a space.
pub(crate) fn change_all(file: &mut Bytes, second: bool, text: &Text, at: usize) {
    for i in at..text::ROOM {
        let c = text[i];
        if c == b':' {
            return;
        }
        if c == b',' {
            change(file, second, text, i + 2);
        }
    }
}
