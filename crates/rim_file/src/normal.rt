// The normal of a record, and the number due on it.
ghost use Rattle.std.specs.Prelude.{◌≡◌, ◌+◌, ◌≤◌, length};
ghost use Rattle.codes.specs.Refusals.{or_refused};
ghost use Rattle.polygon.specs.Normal.{normal_code};
ghost use Rattle.rim_file.specs.File.{record_size_of};
ghost use Rattle.rim_file.specs.Record.{normal_in};

use crate::bytes;
use crate::edition::Edition;
use crate::file::RimFile;
use codes::Refusal;
use polygon::normal::Normal;

impl<'a> RimFile<'a> {
    // The normal of the record that starts at a position of the file. A record of edition 1 has none.
    pub fn normal_at(&self, at: usize) -> Normal
        requires { at + record_size_of self.now.bytes.now ≤ length self.now.bytes.now }
        ensures { result ≡ normal_in self.now.bytes.now at }
    {
        match self.edition {
            Edition::One => Normal::none(),
            Edition::Two => Normal {
                x: bytes::i16_at(self.bytes, at + 16),
                y: bytes::i16_at(self.bytes, at + 18),
                z: bytes::i16_at(self.bytes, at + 20),
            },
        }
    }
}

// The normal, where its numbers are in range.
pub fn checked(normal: Normal) -> Result<Normal, Refusal>
    ensures { result ≡ or_refused (normal_code normal) normal }
{
    if normal.in_range() {
        Ok(normal)
    } else {
        Err(Refusal::NORMAL)
    }
}
