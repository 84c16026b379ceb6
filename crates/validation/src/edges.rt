// The edge test of a list of triangles, by tables over the edges (i, j), i < j, with a place for each i and j.
ghost use Rattle.std.specs.Prelude.{◌≡◌, ◌≤◌, ◌<◌, [], replicate};
ghost use Rattle.terms.specs.Limits.{max_vertices};
ghost use Rattle.terms.specs.Entries.{vertex_a, vertex_b, vertex_c};
ghost use Rattle.lists.specs.Lists.{every};
ghost use Rattle.triangulation.specs.Triangulations.{is_boundary, edge_ok, is_triangulation};
ghost use Rattle.triangulation.specs.Problems.{problem_from};
ghost use Rattle.validation.specs.Edges.{edge_at, edge_places, added, Room, Counted, vertices_alone, edge_fits, edges_fit};

use crate::selection::Selection;

// One array, not an array of rows: the definition `edge_at` counts its places so.
const EDGES: usize = terms::MAX_VERTICES * terms::MAX_VERTICES;

// The place of the edge (i, j).
fn edge_index(i: usize, j: usize) -> usize
    requires { (i < max_vertices) × (j < max_vertices) }
    ensures { (result ≡ edge_at i j) × (result < edge_places) }
{
    i * terms::MAX_VERTICES + j
}

// One triangle more at the edge (i, j).
fn add(table: &mut [u8; EDGES], i: u8, j: u8)
    requires { (i < max_vertices) × (j < max_vertices) × Room table.old i j }
    ensures { table.new ≡ added table.old i j }
{
    let at = edge_index(usize::from(i), usize::from(j));
    table[at] += 1;
}

// One more at the edge of t that has its third vertex between.
fn add_between(table: &mut [u8; EDGES], t: [u8; 3])
    requires { (vertex_a t < max_vertices) × (vertex_c t < max_vertices) × Room table.old (vertex_a t) (vertex_c t) }
    ensures { table.new ≡ added table.old (vertex_a t) (vertex_c t) }
{
    add(table, t[0], t[2]);
}

// One more at each of the two edges of t that have its third vertex outside.
fn add_outside(table: &mut [u8; EDGES], t: [u8; 3])
    requires { (vertex_a t < vertex_b t) × (vertex_b t < max_vertices) × (vertex_c t < max_vertices) × Room table.old (vertex_a t) (vertex_b t)
        × Room table.old (vertex_b t) (vertex_c t) }
    ensures { table.new ≡ added (added table.old (vertex_a t) (vertex_b t)) (vertex_b t) (vertex_c t) }
{
    add(table, t[0], t[1]);
    add(table, t[1], t[2]);
}

// Counts the triangles of a list at their edges, those on each side by themselves, in tables of zeros.
fn count_edges(selection: &Selection<'_>, between: &mut [u8; EDGES], outside: &mut [u8; EDGES])
    requires { (between.old ≡ replicate edge_places 0) × (outside.old ≡ replicate edge_places 0) }
    ensures { Counted selection.now.candidates.now selection.now.list.now between.new outside.new }
{
    for k in selection.list {
        let t = selection.candidates[usize::from(*k)];
        add_between(between, t);
        add_outside(outside, t);
    }
}

// A rim edge: (i, i + 1), or (0, n − 1).
fn is_boundary(n: usize, i: usize, j: usize) -> bool
    requires { (i < j) × (j < n) }
    ensures { result ≡ is_boundary (vertices_alone n) i j }
{
    j == i + 1 || (i == 0 && j == n - 1)
}

// A rim edge is in one triangle, any other in none or in one on each side.
fn edge_fits(n: usize, i: usize, j: usize, between: u8, outside: u8) -> bool
    requires { (i < j) × (j < n) }
    ensures { result ≡ edge_ok (vertices_alone n) (is_boundary (vertices_alone n) i j) between outside }
{
    let triangles = u32::from(between) + u32::from(outside);
    if is_boundary(n, i, j) {
        triangles == 1
    } else {
        triangles == 0 || (between == 1 && outside == 1)
    }
}

// The edges (i, j) for one j.
fn edges_to_fit(n: usize, j: usize, between: &[u8; EDGES], outside: &[u8; EDGES]) -> bool
    requires { (j < n) × (n ≤ max_vertices) }
    ensures { result ≡ every 0 j (edge_fits n between.now outside.now j) }
{
    (0..j).all(|i| {
        let at = edge_index(i, j);
        edge_fits(n, i, j, between[at], outside[at])
    })
}

// All edges.
fn edges_fit(n: usize, between: &[u8; EDGES], outside: &[u8; EDGES]) -> bool
    requires { n ≤ max_vertices }
    ensures { result ≡ edges_fit n between.now outside.now }
{
    (0..n).all(|j| edges_to_fit(n, j, between, outside))
}

// The list passes the edge test as it stands.
pub fn is_triangulation(n: usize, selection: &Selection<'_>) -> bool
    requires { n ≤ max_vertices }
    ensures { result ≡ is_triangulation (problem_from n selection.now.candidates.now [] []) selection.now.list.now }
{
    let mut between = [0u8; EDGES];
    let mut outside = [0u8; EDGES];
    count_edges(selection, &mut between, &mut outside);
    edges_fit(n, &between, &outside)
}
