// A list to judge that names triangles.
ghost use Rattle.std.specs.Prelude.{◌≡◌};
ghost use Rattle.validation.specs.Edges.{Triangles};

// Candidates, and a short list of numbers of theirs, each that of a triangle.
#[derive(Clone, Copy)]
pub struct Selection<'a> {
    pub candidates: &'a [[u8; 3]],
    pub list: &'a [u16],
    pub ghost triangles: { Triangles candidates.now list.now },
}

impl<'a> Selection<'a> {
    pub fn new(candidates: &'a [[u8; 3]], list: &'a [u16]) -> Selection<'a>
        requires { Triangles candidates.now list.now }
        ensures { (result.candidates.now ≡ candidates.now) × (result.list.now ≡ list.now) }
    {
        Selection { candidates, list }
    }
}
