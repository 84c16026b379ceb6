// What the numbers of a list name.
ghost use Rattle.std.specs.Prelude.{◌≡◌, ◌≤◌};
ghost use Rattle.validation.specs.Edges.{names_triangles};

// As many numbers as a triangulation has triangles, n − 2, each of them a candidate's.
pub fn names_triangles(n: usize, count: usize, list: &[u16]) -> bool
    requires { 2 ≤ n }
    ensures { result ≡ names_triangles n count list.now }
{
    list.len() == n - 2 && list.iter().all(|k| usize::from(*k) < count)
}
