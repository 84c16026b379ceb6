// The expected answers, which stand after the colon: a number, or ok and what settles the polygon.
ghost use Rattle.std.specs.Prelude.{◌≤◌};

use crate::compare::{COUNT, NORMALS, Numbers};
use crate::text::{Number, Text};
use crate::{file, text};

// The expected number, 0 for ok.
pub(crate) fn number_due(text: &Text, answer: usize) -> u32 {
    if text::byte(text, answer) == b'o' {
        return 0;
    }
    let number = text::decimal(text, answer);
    number.value
}

fn signed(number: Number) -> i64 {
    let size = i64::from(number.value);
    if number.minus { -size } else { size }
}

// Reads so many numbers to the places from `first` on, and returns where the last ends.
fn read_numbers(text: &Text, at: usize, first: usize, count: u32, numbers: &mut Numbers) -> usize {
    let mut end = at;
    let mut left = count;
    for i in first..COUNT {
        if left == 0 {
            return end;
        }
        let number = text::decimal(text, end);
        numbers[i] = signed(number);
        end = number.end;
        left = left - 1;
    }
    end
}

// Reads factors and n vertices, and returns where they end.
fn read_polygon(text: &Text, at: usize, n: u32, numbers: &mut Numbers) -> usize {
    read_numbers(text, at, 0, 2 + 3 * (n % 65), numbers)
}

// Sets the polygon of a file, and returns its vertex count. That of P stands after ok, and that of Q with its
// normals behind it; that of a chain stands after the text's plus.
pub(crate) fn of_file(text: &Text, at: usize, answer: usize, numbers: &mut Numbers) -> u32 {
    if text::byte(text, answer) != b'o' {
        return 0;
    }
    if text::byte(text, at) < b'c' {
        let n = text::decimal(text, answer);
        let end = read_polygon(text, n.end, n.value, numbers);
        if file::is_second(text, at) {
            read_numbers(text, end, NORMALS, 3 * (n.value % 65), numbers);
        }
        return n.value;
    }
    let n = text::decimal(text, at);
    read_polygon(text, text::find(text, 0, b'+'), n.value, numbers);
    n.value
}

// Sets the polygon of file::three_points_with, and returns its vertex count. It stands after the text's star,
// and the number's grid number after ok. The level point has the height of the point before it.
pub(crate) fn of_number(text: &Text, place: usize, answer: usize, numbers: &mut Numbers) -> u32
    requires { place ≤ 4 }
{
    if text::byte(text, answer) != b'o' {
        return 0;
    }
    read_polygon(text, text::find(text, 0, b'*'), 3, numbers);
    numbers[2 + place] = signed(text::decimal(text, answer));
    numbers[7] = numbers[4];
    3
}
