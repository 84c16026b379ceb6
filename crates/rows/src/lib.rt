// Rows found by bisection: they ascend by outer, then inner.
#![tactic(auto)]

ghost use Rattle.std.specs.Prelude.{◌≡◌, ◌+◌, ◌<◌, ◌≤◌, length};
ghost use Rattle.std.specs.List.{prefix_len};
ghost use Rattle.terms.specs.Limits.{max_triples};
ghost use Rattle.triangulation.specs.Problems.{pair_weight};
ghost use Rattle.rows.specs.Search.{RowsAscend, row_is_before, row_or_zero, rows_before};

// The row is before (outer, inner).
fn is_before(row: [u32; 3], outer: usize, inner: usize) -> bool
    ensures { result ≡ row_is_before row outer inner }
{
    (row[0] as usize, row[1] as usize) < (outer, inner)
}

// The row's weight where it is the row (outer, inner), else 0.
fn weight_if(row: [u32; 3], outer: usize, inner: usize) -> u32
    ensures { result ≡ row_or_zero row outer inner }
{
    if (row[0] as usize, row[1] as usize) == (outer, inner) {
        row[2]
    } else {
        0
    }
}

// How many rows from the first on are before (outer + 1, 0).
fn run_length(rows: &[[u32; 3]], outer: usize) -> usize
    requires { outer < max_triples }
    ensures value { result ≡ prefix_len (λ r. row_is_before r (outer + 1) 0) rows.now }
    ensures within { result ≤ length rows.now }
{
    rows.iter()
        .take_while(|row| is_before(**row, outer + 1, 0))
        .count()
}

// Rows that ascend.
#[derive(Clone, Copy)]
pub struct Rows<'a> {
    pub rows: &'a [[u32; 3]],
    pub ghost ascend: { RowsAscend rows.now },
}

impl<'a> Rows<'a> {
    pub fn new(rows: &'a [[u32; 3]]) -> Rows<'a>
        requires { RowsAscend rows.now }
        ensures { result.rows.now ≡ rows.now }
    {
        Rows { rows }
    }

    // The first row that is not before (outer, inner), by bisection.
    pub fn lower_bound(&self, outer: usize, inner: usize) -> usize
        ensures { result ≡ rows_before self.now.rows.now outer inner }
    {
        self.rows
            .partition_point(|row| is_before(*row, outer, inner))
    }

    // Where the rows of an outer end, from where they start: they are one run.
    pub fn run_end(&self, start: usize, outer: usize) -> usize
        requires { (start ≡ rows_before self.now.rows.now outer 0) × (outer < max_triples) }
        ensures { result ≡ rows_before self.now.rows.now (outer + 1) 0 }
    {
        start + run_length(&self.rows[start..], outer)
    }

    // The weight of the row (outer, inner), or 0 where there is none.
    pub fn weight(&self, outer: usize, inner: usize) -> u32
        ensures { result ≡ pair_weight self.now.rows.now outer inner }
    {
        match self.rows.get(self.lower_bound(outer, inner)) {
            Some(row) => weight_if(*row, outer, inner),
            None => 0,
        }
    }
}
