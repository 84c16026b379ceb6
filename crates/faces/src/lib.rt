// Sets of triangles.
#![tactic(auto)]

ghost use Rattle.std.specs.Prelude.{◌≡◌, ◌<◌, ◌≤◌, List, ℕ, length};
ghost use Rattle.terms.specs.Limits.{max_vertices};
ghost use Rattle.lists.specs.Lists.{filled};
ghost use Rattle.faces.specs.Faces.{same_triple, is_face, triples_of};
ghost use Rattle.faces.specs.Masks.{pair_at, with_vertex, has_vertex, has, empty_set, with_triple, with_faces, Joined};

use std::marker::Model;

// A mask for each pair of vertices.
pub const PAIRS: usize = terms::MAX_VERTICES * terms::MAX_VERTICES;

// No more candidates than triples of vertices.
pub const TRIPLES: usize = terms::MAX_VERTICES
    * (terms::MAX_VERTICES - 1)
    * (terms::MAX_VERTICES - 2)
    / 6;

fn pair_index(a: usize, b: usize) -> usize
    requires { (a < max_vertices) × (b < max_vertices) }
    ensures { result ≡ pair_at a b }
{
    a * terms::MAX_VERTICES + b
}

fn with_vertex(mask: u64, c: usize) -> u64
    requires { c < max_vertices }
    ensures { result ≡ with_vertex mask c }
{
    mask | (1 << c)
}

fn has_vertex(mask: u64, c: usize) -> bool
    requires { c < max_vertices }
    ensures { result ≡ has_vertex mask c }
{
    (mask >> c) % 2 == 1
}

// A set of triangles (a, b, c): a mask of the vertices c for each pair (a, b), in fixed memory. In contracts it is the list of its masks.
#[derive(Drop)]
pub struct TriangleSet {
    masks: [u64; PAIRS],
}

impl Model for TriangleSet {
    ghost Value = { List ℕ };

    ghost view = { λ s. s.masks };
}

impl TriangleSet {
    // The empty set.
    pub fn new() -> TriangleSet
        ensures { result ≡ empty_set }
    {
        TriangleSet { masks: [0; PAIRS] }
    }

    // Empties the set.
    pub fn clear(&mut self)
        ensures { self.new ≡ empty_set }
    {
        self.masks = [0; PAIRS];
    }

    // Inserts a triangle.
    pub fn insert(&mut self, a: usize, b: usize, c: usize)
        requires { (a < max_vertices) × (b < max_vertices) × (c < max_vertices) }
        ensures masks { self.new ≡ with_triple self.old a b c }
        ensures triangles { Joined self.old (same_triple a b c) self.new }
    {
        let ab = pair_index(a, b);
        self.masks[ab] = with_vertex(self.masks[ab], c);
    }

    // Inserts the four faces of a tetrahedron.
    pub fn insert_faces(&mut self, a: usize, b: usize, c: usize, d: usize)
        requires { (a < max_vertices) × (b < max_vertices) × (c < max_vertices) × (d < max_vertices) }
        ensures masks { self.new ≡ with_faces self.old a b c d }
        ensures triangles { Joined self.old (is_face a b c d) self.new }
    {
        self.insert(b, c, d);
        self.insert(a, c, d);
        self.insert(a, b, d);
        self.insert(a, b, c);
    }

    // Is (a, b, c) in the set?
    pub fn contains(&self, a: usize, b: usize, c: usize) -> bool
        requires { (a < max_vertices) × (b < max_vertices) × (c < max_vertices) }
        ensures { result ≡ has self.now a b c }
    {
        let index = pair_index(a, b);
        has_vertex(self.masks[index], c)
    }

    // How many triangles on the first n vertices the set has.
    pub fn count(&self, n: usize) -> usize
        requires { n ≤ max_vertices }
        ensures { result ≡ length (triples_of n (has self.now)) }
    {
        let mut count = 0;
        // The loops run through the triples of numbers, not through a table: each number is asked for.
        for i in 0..n {
            for j in i + 1..n {
                for k in j + 1..n {
                    if self.contains(i, j, k) {
                        count += 1;
                    }
                }
            }
        }
        count
    }

    // Lists the triangles of the set on the first n vertices, in ascending order: how many there are.
    pub fn list(&self, n: usize, out: &mut [[u8; 3]]) -> usize
        requires { (n ≤ max_vertices) × (length (triples_of n (has self.now)) ≤ length out.old) }
        ensures { (result ≡ length (triples_of n (has self.now))) × (out.new ≡ filled (triples_of n (has self.now)) out.old) }
    {
        let mut count = 0;
        // As in `count`.
        for a in 0..n {
            for b in a + 1..n {
                for c in b + 1..n {
                    if self.contains(a, b, c) {
                        out[count] = [a as u8, b as u8, c as u8];
                        count += 1;
                    }
                }
            }
        }
        count
    }
}
