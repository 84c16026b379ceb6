// A rim file: its edition, the numbers of its header, where its records start, and whether its length is right.
ghost use Rattle.std.specs.Prelude.{◌≡◌, ◌+◌, ◌^◌, ◌≤◌, ◌<◌, length};
ghost use Rattle.rim_file.specs.File.{edition_of, layout_of, header_size, header_start, length_wrong, offset, next_record, u16_at};
ghost use Rattle.rim_file.specs.File.{first_record, record_count, area_factor_of, bend_factor_of};

use crate::edition::{Edition, HEADER_SIZE};
use crate::{Layout, bytes};

#[derive(Clone, Copy)]
pub struct RimFile<'a> {
    pub bytes: &'a [u8],
    pub edition: Edition,
    pub ghost edition_is: { edition ≡ edition_of bytes.now },
}

impl<'a> RimFile<'a> {
    pub fn new(bytes: &'a [u8]) -> RimFile<'a>
        ensures { result.bytes.now ≡ bytes.now }
    {
        RimFile {
            bytes,
            edition: Edition::of(bytes),
        }
    }

    // Where its header starts, and how many bytes a record has.
    pub fn layout(&self) -> Layout
        ensures { result ≡ layout_of self.now.bytes.now }
    {
        self.edition.layout()
    }

    // A number of the header, by its place there.
    fn header_number(&self, at: usize) -> u16
        requires { (header_start self.now.bytes.now + header_size ≤ length self.now.bytes.now) × (at + 2 ≤ header_size) }
        ensures { result ≡ u16_at self.now.bytes.now (header_start self.now.bytes.now + at) }
    {
        bytes::u16_at(self.bytes, self.layout().header + at)
    }

    pub fn first_record(&self) -> usize
        requires { header_start self.now.bytes.now + header_size ≤ length self.now.bytes.now }
        ensures { result ≡ first_record self.now.bytes.now }
    {
        usize::from(self.header_number(0))
    }

    pub fn record_count(&self) -> usize
        requires { header_start self.now.bytes.now + header_size ≤ length self.now.bytes.now }
        ensures { (result ≡ record_count self.now.bytes.now) × (result < 65536) }
    {
        usize::from(self.header_number(2))
    }

    pub fn area_factor(&self) -> u32
        requires { header_start self.now.bytes.now + header_size ≤ length self.now.bytes.now }
        ensures { result ≡ area_factor_of self.now.bytes.now }
    {
        u32::from(self.header_number(4))
    }

    pub fn bend_factor(&self) -> u32
        requires { header_start self.now.bytes.now + header_size ≤ length self.now.bytes.now }
        ensures { result ≡ bend_factor_of self.now.bytes.now }
    {
        u32::from(self.header_number(6))
    }

    pub fn record_start(&self, k: usize) -> usize
        requires { (0 < k) × (k ≤ 2 ^ 16) }
        ensures { result ≡ offset self.now.bytes.now k }
    {
        self.edition.record_start(k)
    }

    // The link of the record that starts at a position of the file.
    pub fn next_record(&self, at: usize) -> usize
        requires { at + 16 ≤ length self.now.bytes.now }
        ensures { result ≡ next_record self.now.bytes.now at }
    {
        usize::from(bytes::u16_at(self.bytes, at))
    }

    // Is the length not what the header's record count asks for, or the count too large?
    pub fn length_wrong(&self) -> bool
        ensures { result ≡ length_wrong self.now.bytes.now }
    {
        if self.bytes.len() < self.layout().header + HEADER_SIZE {
            return true;
        }
        let count = self.record_count();
        crate::MAX_RECORDS < count || self.bytes.len() != self.record_start(count + 1)
    }
}
