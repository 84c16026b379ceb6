// Refusals: what a call answers where a number is due, and the numbers of rules 4.1 to 4.23, by who causes them,
// each with the text that hosts are given.
#![tactic(auto)]

ghost use Rattle.std.specs.Prelude.{◌≡◌};
ghost use Rattle.codes.specs.Refusals.{refusal, number_of};

use std::error::Error;
use std::fmt;

// What a refusing call tells its caller (rule 4.30): the error of each Result here. A number and no enum of cases: the page of promises speaks of
// refusals with every number (`refusal_values`, `given_first`).
#[derive(Clone, Copy, Debug, PartialEq, Eq)]
pub struct Refusal {
    pub number: u32,
}

impl Refusal {
    // The refusal with this number, for a caller that keeps numbers. The refusals here are the values below, by name.
    pub fn new(number: u32) -> Refusal
        ensures { result ≡ refusal number }
    {
        Refusal { number }
    }

    // The writer of the file.
    pub const LENGTH: Refusal = Refusal { number: 1 }; // the length of the file is not that of a header and its records, or these are over 256

    pub const AREA_FACTOR: Refusal = Refusal { number: 2 }; // the area factor is more than 16

    pub const LINK: Refusal = Refusal { number: 3 }; // a link leads past the last record

    pub const RECORD_REPEATED: Refusal = Refusal { number: 4 }; // a link leads back to a record of the chain

    pub const TOO_MANY_VERTICES: Refusal = Refusal { number: 5 }; // the limit is 64, and the chain has more records

    pub const KIND: Refusal = Refusal { number: 6 }; // a record of the chain is neither a point nor a level point

    pub const NO_HEIGHT: Refusal = Refusal { number: 7 }; // a level point has no point before it on the chain

    pub const NOT_FINITE: Refusal = Refusal { number: 8 }; // a coordinate is not finite, or the unused bytes of a level point are not zero

    pub const OUT_OF_RANGE: Refusal = Refusal { number: 9 }; // a coordinate is not from -125 to 125 mm

    pub const NORMAL: Refusal = Refusal { number: 18 }; // a number of the normal of a vertex is not from -1000 to 1000

    pub const OVER_LIMIT: Refusal = Refusal { number: 20 }; // the limit is below 64, and the chain has more records

    pub const TOO_FEW_VERTICES: Refusal = Refusal { number: 10 }; // the rim has fewer than 3 vertices

    pub const VERTEX_REPEATED: Refusal = Refusal { number: 11 }; // two vertices are at one grid point

    // The shape of the polygon.
    pub const COSPHERICAL: Refusal = Refusal { number: 12 }; // five vertices, not all in one plane, are on a sphere that has no vertex inside; in a flat rim, four on such a circle

    // The host program.
    pub const TABLE_TOO_SHORT: Refusal = Refusal { number: 13 }; // a lent table is too short

    // The lister of a direct job; the first also a caller whose limit is not from 3 to 64.
    pub const VERTEX_COUNT: Refusal = Refusal { number: 14 }; // the n of a direct job, or the limit asked for, is not from 3 to 64

    pub const CANDIDATE: Refusal = Refusal { number: 15 }; // the candidates of a direct job are not vertices a < b < c < n in rising order

    pub const ROW: Refusal = Refusal { number: 16 }; // the rows of a direct job are not hanging pairs in rising order

    pub const WEIGHT: Refusal = Refusal { number: 17 }; // a weight of a direct job is more than 2,000,000,000

    // The writer of a file to convert.
    pub const NORMAL_LOST: Refusal = Refusal { number: 19 }; // a normal would be lost: a record of the file to convert has one that is not zero

    // The maker of a patch to judge.
    pub const NOT_A_TRIANGULATION: Refusal = Refusal { number: 21 }; // the list to judge is not a triangulation, or names a candidate twice

    pub const WRONG_TOTAL: Refusal = Refusal { number: 22 }; // the total stated for the list to judge is not its own

    // A caller who agreed on a total.
    pub const NOT_LEAST: Refusal = Refusal { number: 23 }; // the agreed total is not the least total of the direct job
}

// As the programs print it (rule 5.4).
impl fmt::Display for Refusal {
    fn fmt<W: fmt::Write>(&self, f: &mut fmt::Formatter<W>) -> fmt::Result {
        write!(f, "refused {}", self.number)
    }
}

impl Error for Refusal {}

// The number of a refusal; 0 where there is none.
pub fn number_of<T>(answer: &Result<T, Refusal>) -> u32
    ensures { result ≡ number_of answer.now }
{
    match answer {
        Ok(_) => 0,
        Err(refusal) => refusal.number,
    }
}
