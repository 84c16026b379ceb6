// The lines of the text. A case is a file or a number's bits, a colon and the answer; a heading has no colon.
ghost use Rattle.std.specs.Prelude.{◌≤◌};

use crate::compare::{COUNT, compare};
use crate::file::Bytes;
use crate::text::Text;
use crate::{answers, file, text};
use std::io;

// Sets the file that a case starts from, P, Q or a chain, and returns the case's length.
fn set_base(file: &mut Bytes, second: bool, text: &Text, at: usize) -> usize {
    file::clear(file);
    if text::byte(text, at) < b'c' {
        file::four_points(file, second);
        let length = text::decimal(text, at);
        return length.value as usize;
    }
    let n = text::decimal(text, at);
    let count = text::decimal(text, n.end);
    let stride = text::decimal(text, count.end);
    file::chain(file, second, n.value, count.value, stride.value);
    let length = text::decimal(text, stride.end);
    length.value as usize
}

// Where a case names its file: after the word trim, where that stands.
fn file_at(text: &Text, at: usize) -> usize {
    if at < text::ROOM {
        if text[at] == b't' {
            return at + 5;
        }
    }
    at
}

fn limit_for(trim: bool) -> usize {
    if trim {
        terms::TRIM_VERTICES
    } else {
        terms::MAX_VERTICES
    }
}

// A file with its changes.
fn run_file(
    rt: &impl Print,
    file: &mut Bytes,
    text: &Text,
    at: usize,
    answer: usize,
) -> io::Result<()> {
    let from = file_at(text, at);
    let limit = limit_for(from != at);
    let second = file::is_second(text, from);
    let length = set_base(file, second, text, from);
    file::change_all(file, second, text, from);
    let mut numbers = [0i64; COUNT];
    let n = answers::of_file(text, from, answer, &mut numbers);
    let number = answers::number_due(text, answer);
    compare(rt, limit, file, length, number, n, &numbers)
}

// A number's bits at one place.
fn run_number(
    rt: &impl Print,
    file: &mut Bytes,
    text: &Text,
    place: usize,
    bits: u32,
    answer: usize,
) -> io::Result<()>
    requires { place ≤ 4 }
{
    file::three_points_with(file, place, bits);
    let mut numbers = [0i64; COUNT];
    let n = answers::of_number(text, place, answer, &mut numbers);
    let number = answers::number_due(text, answer);
    compare(rt, terms::MAX_VERTICES, file, 56, number, n, &numbers)
}

// A case with nothing but a number's bits before the colon tries them at each place.
fn run_case(
    rt: &impl Print,
    file: &mut Bytes,
    text: &Text,
    at: usize,
    colon: usize,
) -> io::Result<()>
    requires { colon ≤ 24576 }
{
    print!(rt; ":")?;
    let bits = text::number_in(text, at, 16);
    if bits.end != colon {
        return run_file(rt, file, text, at, colon + 2);
    }
    for place in 0..5 {
        run_number(rt, file, text, place, bits.value, colon + 2)?;
    }
    Ok(())
}

// Where the part of a line that is printed ends: at a semicolon, a colon or the line's end.
fn printed_end(text: &Text, at: usize) -> usize
    ensures { result ≤ 24576 }
{
    for i in at..text::ROOM {
        let c = text[i];
        if c == b';' || c == b':' || c == b'\n' {
            return i;
        }
    }
    text::ROOM
}

// Prints a part of the text.
fn print(rt: &impl Print, text: &[u8], at: usize, end: usize) -> io::Result<()> {
    if at <= end {
        if end <= text.len() {
            rt.write_all(&text[at..end])?;
        }
    }
    Ok(())
}

// A title, with a semicolon after it, is printed instead of the case.
fn run_line(rt: &impl Print, file: &mut Bytes, text: &Text, at: usize) -> io::Result<()> {
    let end = printed_end(text, at);
    print(rt, text, at, end)?;
    match text::byte(text, end) {
        b';' => run_case(rt, file, text, end + 2, text::find(text, end, b':'))?,
        b':' => run_case(rt, file, text, at, end)?,
        _ => {}
    }
    println!(rt)
}

// Runs the lines after the first that start with a letter or a digit. The byte before the digits is /.
pub(crate) fn run(rt: &impl Print, file: &mut Bytes, text: &Text) -> io::Result<()> {
    for i in 0..text::ROOM {
        if text[i] == b'\n' {
            if b'/' < text::byte(text, i + 1) {
                run_line(rt, file, text, i + 1)?;
            }
        }
    }
    Ok(())
}
