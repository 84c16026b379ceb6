// The editions of the rim file: which one a file is of, and where each has its numbers.
ghost use Rattle.std.specs.Prelude.{◌≡◌, ◌+◌, ◌-◌, ◌*◌, ◌^◌, ◌≤◌, ◌<◌};
ghost use Rattle.rim_file.specs.File.{is_edition2, marker_size, header_size, record_size2, edition_of, edition_number, layout_in};

use crate::{Layout, bytes};

// The number that a file of edition 2 begins with (rule 1.12), and the bytes that it takes.
const MARKER: u16 = 65535;

const MARKER_SIZE: usize = 2;

// The bytes of the header, and of a record in each edition.
pub const HEADER_SIZE: usize = 8;

pub const RECORD_SIZE_1: usize = 16;

const RECORD_SIZE_2: usize = 22;

fn is_edition_2(s: &[u8]) -> bool
    ensures { result ≡ is_edition2 s.now }
{
    MARKER_SIZE <= s.len() && bytes::u16_at(s, 0) == MARKER
}

#[derive(Clone, Copy, Debug, PartialEq, Eq)]
pub enum Edition {
    One = 1,
    Two = 2,
}

impl Edition {
    // The edition of a file, by its first number alone.
    pub fn of(file: &[u8]) -> Edition
        ensures { result ≡ edition_of file.now }
    {
        if is_edition_2(file) {
            Edition::Two
        } else {
            Edition::One
        }
    }

    // 1 or 2.
    pub fn number(self) -> u32
        ensures { result ≡ edition_number self }
    {
        self as u32
    }

    pub fn layout(self) -> Layout
        ensures { result ≡ layout_in self }
    {
        match self {
            Edition::One => Layout {
                header: 0,
                record_size: RECORD_SIZE_1,
            },
            Edition::Two => Layout {
                header: MARKER_SIZE,
                record_size: RECORD_SIZE_2,
            },
        }
    }

    // Where record k starts. With one more than the last record it is where the file ends.
    pub fn record_start(self, k: usize) -> usize
        requires { (0 < k) × (k ≤ 2 ^ 16) }
        ensures { result ≡ (layout_in self).header + header_size + (layout_in self).record_size * (k - 1) }
    {
        record_start(self.layout(), k)
    }
}

// Where record k starts in a layout. With one more than the last record it is where the file ends.
pub fn record_start(layout: Layout, k: usize) -> usize
    requires { (layout.header ≤ marker_size) × (layout.record_size ≤ record_size2) × (0 < k) × (k ≤ 2 ^ 16) }
    ensures { result ≡ layout.header + header_size + layout.record_size * (k - 1) }
{
    layout.header + HEADER_SIZE + layout.record_size * (k - 1)
}
