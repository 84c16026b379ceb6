// Hinges: pairs of candidates that share an edge, the inner hanging on the outer (rule 2.9).
#![tactic(auto)]

ghost use Rattle.std.specs.Prelude.{◌≡◌, ◌<◌, ◌≤◌, length};
ghost use Rattle.terms.specs.Limits.{max_vertices};
ghost use Rattle.faces.specs.Faces.{triples_of};
ghost use Rattle.faces.specs.Masks.{has};
ghost use Rattle.hinges.specs.Hinges.{inners_of, beneath};

use faces::TriangleSet;

// How many triangles of the set have (i, j) as the edge from their first to their last vertex.
fn count_beneath(set: &TriangleSet, i: usize, j: usize) -> usize
    requires { (i < max_vertices) × (j < max_vertices) }
    ensures { result ≡ length (beneath (has set.now) i j) }
{
    let mut count = 0;
    // A loop: the check did not find what `filter(..).count()` gives over a range of numbers.
    for x in i + 1..j {
        if set.contains(i, x, j) {
            count += 1;
        }
    }
    count
}

// How many hanging pairs the triangles of the set on the first n vertices make: on (a, b, c) hang those beneath (a, b) and beneath (b, c).
pub fn count_rows(set: &TriangleSet, n: usize) -> usize
    requires { n ≤ max_vertices }
    ensures { result ≡ length (inners_of (triples_of n (has set.now))) }
{
    let mut count = 0;
    // The loops run through the triples of numbers, not through a table: each number is asked for.
    for a in 0..n {
        for b in a + 1..n {
            for c in b + 1..n {
                if set.contains(a, b, c) {
                    let first = count_beneath(set, a, b);
                    let second = count_beneath(set, b, c);
                    count += first + second;
                }
            }
        }
    }
    count
}
