// The text of the cases, looked up by place.
ghost use Rattle.std.specs.Prelude.{◌≤◌};

// Room for the text. Zeros stand after its end.
pub const ROOM: usize = 24576;

pub type Text = [u8; ROOM];

// A number, whether a minus stands before it, and where it ends.
#[derive(Clone, Copy)]
pub struct Number {
    pub value: u32,
    pub minus: bool,
    pub end: usize,
}

// The byte at a place, 0 past the end.
pub(crate) fn byte(text: &Text, at: usize) -> u8 {
    if at < ROOM { text[at] } else { 0 }
}

// The first place from `at` on that holds c, or the end.
pub(crate) fn find(text: &Text, at: usize, c: u8) -> usize
    ensures { result ≤ 24576 }
{
    for i in at..ROOM {
        if text[i] == c {
            return i;
        }
    }
    ROOM
}

// What a digit stands for, 16 where there is none.
fn digit(c: u8) -> u32 {
    match c {
        b'0'..=b'9' => (c - b'0') as u32,
        b'a'..=b'f' => (c - b'a') as u32 + 10,
        _ => 16,
    }
}

// A number with one more digit, in base 16 or 10. After eight digits the first are lost.
fn append(value: u32, base: u32, digit: u32) -> u32 {
    let small = value % 0x1000_0000;
    if base == 16 {
        std::num::wrapping_add_u32(16 * small, digit)
    } else {
        std::num::wrapping_add_u32(10 * small, digit)
    }
}

// The first number from `at` on in base 16 or 10, whatever stands before it.
pub(crate) fn number_in(text: &Text, at: usize, base: u32) -> Number {
    let mut value = 0;
    let mut minus = false;
    let mut found = false;
    for i in at..ROOM {
        let c = text[i];
        let d = digit(c);
        if d < base {
            value = append(value, base, d);
            found = true;
        } else {
            if found {
                return Number {
                    value,
                    minus,
                    end: i,
                };
            }
            minus = c == b'-';
        }
    }
    Number {
        value,
        minus,
        end: ROOM,
    }
}

pub(crate) fn decimal(text: &Text, at: usize) -> Number {
    number_in(text, at, 10)
}

// The bits of a number, in two's complement.
pub(crate) fn bits(number: Number) -> u32 {
    if number.minus {
        return std::num::wrapping_sub_u32(0, number.value);
    }
    number.value
}
