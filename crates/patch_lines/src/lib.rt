// The numbers on the lines of a patch (rule 5.4). The functions serve the programs that print them, and what one of them asks its callers meet.
#![tactic(auto)]

ghost use Rattle.std.specs.Prelude.{◌≡◌, ◌≤◌, get_or, length};
ghost use Rattle.terms.specs.Entries.{triple};
ghost use Rattle.triangulator.specs.Call.{triangles_of};
ghost use Rattle.patch_lines.specs.Lines.{vertices_of, row_under, line_of, lines_of, line_places, in_places};
ghost use Rattle.patch_lines.specs.Places.{row_count_of};

use codes::Refusal;
use jobs::pairs::hangs_on;
use rows::Rows;
use std::fmt;
use triangulator::Patch;

// A rim of 64 points has at most 62 triangles (rule 5.3).
pub const TRIANGLES: usize = 62;

// A triangle's vertices, its own weight, and the row weight of the pair that it is the inner of.
#[derive(Clone, Copy, Debug, Default, PartialEq, Eq)]
pub struct Line {
    pub a: u8,
    pub b: u8,
    pub c: u8,
    pub weight: u32,
    pub row: u32,
}

// A line as it is printed (rule 5.4).
impl fmt::Display for Line {
    fn fmt<W: fmt::Write>(&self, f: &mut fmt::Formatter<W>) -> fmt::Result {
        write!(
            f,
            "{} {} {} {} {}",
            self.a, self.b, self.c, self.weight, self.row
        )
    }
}

// The vertices of a patch, two more than its triangles; 0 where there is none.
pub fn vertices_of(outcome: &Result<Option<Patch>, Refusal>) -> usize
    requires { triangles_of outcome.now ≤ line_places }
    ensures { result ≡ vertices_of outcome.now }
{
    match outcome {
        Ok(Some(patch)) => patch.triangles + 2,
        Ok(None) | Err(_) => 0,
    }
}

// A patch, and the lists of the job that it is of.
#[derive(Clone, Copy)]
pub struct Listing<'a> {
    pub candidates: &'a [[u8; 3]],
    pub weights: &'a [u32],
    // They ascend, so a row is found by its pair.
    pub rows: Rows<'a>,
    pub patch: &'a [u16],
}

impl Listing<'_> {
    // Candidate t, three zeros where there is none.
    fn candidate(&self, t: usize) -> [u8; 3]
        ensures { result ≡ get_or self.now.candidates.now t (triple 0 0 0) }
    {
        self.candidates.get(t).copied().unwrap_or([0, 0, 0])
    }

    // The row weight of t and the triangle of the patch that it hangs on, 0 where it hangs on none.
    fn row_under(&self, t: usize) -> u32
        ensures { result ≡ row_under self.now.candidates.now self.now.rows.rows.now self.now.patch.now t }
    {
        let inner = self.candidate(t);
        for triangle in self.patch {
            let o = usize::from(*triangle);
            let outer = self.candidate(o);
            if hangs_on(inner, outer) {
                return self.rows.weight(o, t);
            }
        }
        0
    }

    // The line of candidate t of the patch.
    fn line(&self, t: usize) -> Line
        ensures { result ≡ line_of self.now.candidates.now self.now.weights.now self.now.rows.rows.now self.now.patch.now t }
    {
        let triangle = self.candidate(t);
        let weight = self.weights.get(t).copied().unwrap_or(0);
        let row = self.row_under(t);
        Line {
            a: triangle[0],
            b: triangle[1],
            c: triangle[2],
            weight,
            row,
        }
    }

    // The lines of the patch in walk order; the places after them hold zeros.
    pub fn lines(&self) -> [Line; TRIANGLES]
        requires { length self.now.patch.now ≤ line_places }
        ensures { result
            ≡ in_places (lines_of self.now.candidates.now self.now.weights.now self.now.rows.rows.now self.now.patch.now) }
    {
        let mut lines = [Line::default(); TRIANGLES];
        for (k, t) in self.patch.iter().enumerate() {
            lines[k] = self.line(usize::from(*t));
        }
        lines
    }
}

// How many rows a table begins with. The places after them name candidate 0 twice, as the program made them; no candidate hangs on itself, so no row does.
pub fn row_count(rows: &[[u32; 3]]) -> usize
    ensures { (result ≡ row_count_of rows.now) × (result ≤ length rows.now) }
{
    rows.iter()
        .position(|row| row[0] == row[1])
        .unwrap_or(rows.len())
}
