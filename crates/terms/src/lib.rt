// What every stage speaks of: the limits. The words of the lists are in specs/.
#![tactic(auto)]

ghost use Rattle.std.specs.Prelude.{◌≡◌};
ghost use Rattle.terms.specs.Limits.{count_fits};

// Vertices of a rim and of a direct job, and the limits that a caller can ask for (rules 4.5, 4.10, 4.14, 4.20).
pub const MIN_VERTICES: usize = 3;

pub const MAX_VERTICES: usize = 64;

// The most vertices that the trim program takes (rule 5.9).
pub const TRIM_VERTICES: usize = 24;

// Factors of a rim (rules 4.2, 4.34): the file's 16 bits hold every bend factor.
pub const MAX_AREA_FACTOR: u32 = 16;

pub const MAX_BEND_FACTOR: u32 = 65535;

// A weight of a direct job (rule 4.17).
pub const MAX_WEIGHT: u32 = 2_000_000_000;

// Is n from 3 to 64?
pub fn count_fits(n: usize) -> bool
    ensures { result ≡ count_fits n }
{
    (MIN_VERTICES..=MAX_VERTICES).contains(&n)
}
