// The rim file: its bytes, its layout in each edition, and one record of it, decoded and put on the grid, with its normal.
// Nothing here is for hosts: the functions serve the crates that follow a file, and what one of them asks for its callers meet.
#![tactic(auto)]

ghost use Rattle.std.specs.Prelude.{◌≡◌};
ghost use Rattle.rim_file.specs.Steps.{kind_of};

pub mod bytes;
pub mod edition;
pub mod file;
pub mod normal;
pub mod records;

use codes::Refusal;

// The most records of a file (rule 1.4).
pub const MAX_RECORDS: usize = 256;

// Where the header's four numbers start, and how many bytes a record has (rule 1.12).
#[derive(Clone, Copy)]
pub struct Layout {
    pub header: usize,
    pub record_size: usize,
}

// The coordinates of a point, in millimetres.
#[derive(Clone, Copy)]
pub struct Coordinates {
    pub x: f32,
    pub y: f32,
    pub z: f32,
}

// The kinds of records that there are (rules 1.6, 1.7).
#[derive(Clone, Copy, Debug, PartialEq, Eq)]
pub enum Kind {
    Point,
    Level,
}

impl TryFrom<u16> for Kind {
    type Error = Refusal;

    ghost try_from_gives = { λ number kind. kind ≡ kind_of number };

    fn try_from(number: u16) -> Result<Kind, Refusal> {
        match number {
            1 => Ok(Kind::Point),
            2 => Ok(Kind::Level),
            _ => Err(Refusal::KIND),
        }
    }
}

// A record as it stands in the file: a point, or a level point with no height of its own.
#[derive(Clone, Copy)]
pub enum Record {
    Point(Coordinates),
    Level(f32, f32),
}
