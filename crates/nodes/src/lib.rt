// The new nodes: whether a split edge has an exact midpoint, and the nodes of the split edges in their table.
#![tactic(auto)]

ghost use Rattle.std.specs.Prelude.{◌≡◌, ℕ, ◌+◌, ◌*◌, ◌≤◌, ◌<◌, length, pos, ◌+ℤ◌};
ghost use Rattle.lists.specs.Search.{lowest, iter};
ghost use Rattle.meaning.specs.Lawful.{InRange, InBounds, NodeInRange};
ghost use Rattle.meaning.specs.Rounding.{floor};
ghost use Rattle.meaning.specs.Split.{even, half, mean};
ghost use Rattle.meaning.specs.Tables.{row_at};
ghost use Rattle.laws.specs.Meshes.{Stands, Standing};
ghost use Rattle.notes.specs.Notes.{Short, note_at};
ghost use Rattle.notes.specs.Met.{after};
ghost use Rattle.nodes.specs.Nodes.{Near, even_between, middle_of, between, odd_split, odd_at, place_edge, place_three, place_row};

use meaning::{Correction, Node, Place, Tri};
use notes::Note;

// ---- midpoints

// The sum is even. The remainder of an odd sum is 1 or -1.
fn even_sum(a: i32, b: i32) -> bool
    requires { Near 1_048_576 a × Near 1_048_576 b }
    ensures { result ≡ even (a +ℤ b) }
{
    (a + b) % 2 == 0
}

fn half_sum(a: i32, b: i32) -> i32
    requires { Near 1_048_576 a × Near 1_048_576 b }
    ensures { result ≡ half (a +ℤ b) }
{
    (a + b) / 2
}

// There is an exact midpoint.
fn even_between(a: Place, b: Place) -> bool
    requires { InRange a × InRange b }
    ensures { result ≡ even_between a b }
{
    even_sum(a.x, b.x) && even_sum(a.y, b.y)
}

// It is exact where there is one.
fn middle(a: Place, b: Place) -> Place
    requires { InRange a × InRange b }
    ensures { result ≡ middle_of a b }
{
    Place {
        x: half_sum(a.x, b.x),
        y: half_sum(a.y, b.y),
    }
}

// ---- means

// Rounded down.
fn mean_of(a: i32, b: i32) -> i32
    requires { Near 32_768 a × Near 32_768 b }
    ensures { result ≡ floor (a +ℤ b) (pos 2) }
{
    (a + b).div_euclid(2)
}

// W5: the mean of two corrections, rounded down.
fn mean(c: Correction, d: Correction) -> Correction
    requires { InBounds c × InBounds d }
    ensures { result ≡ mean c d }
{
    Correction {
        dx: mean_of(c.dx, d.dx),
        dy: mean_of(c.dy, d.dy),
    }
}

// The node of a split edge: in the middle of its ends, with the mean of their corrections.
fn between(a: Node, b: Node) -> Node
    requires { NodeInRange a × NodeInRange b }
    ensures { result ≡ between a b }
{
    Node {
        place: middle(a.place, b.place),
        correction: mean(a.correction, b.correction),
    }
}

// ---- 8: an edge to be split has an odd sum of x or of y

// The edge x-y is split and has no exact midpoint.
fn odd_split(nodes: &[i32], on: u32, x: u32, y: u32) -> bool
    requires { Stands nodes.now x × Stands nodes.now y }
    ensures { result ≡ odd_split nodes.now on x y }
{
    on != 0 && !even_between(tables::corner(nodes, x), tables::corner(nodes, y))
}

fn odd_at(nodes: &[i32], rows: &[u32], scratch: &[u32], i: usize) -> bool
    requires i_in_bounds { 3 * i + 3 ≤ length rows.now }
    requires i_in_bounds_2 { i < length scratch.now }
    requires standing { Standing nodes.now (row_at rows.now i) }
    ensures { result ≡ odd_at nodes.now rows.now scratch.now i }
{
    let w = tables::row_at(rows, i);
    let c = notes::note_at(scratch, i);
    odd_split(nodes, c.m, w.q, w.r)
        || odd_split(nodes, c.u, w.p, w.q)
        || odd_split(nodes, c.v, w.r, w.p)
}

// The lowest row with a split edge that has no exact midpoint.
pub fn find_odd(nodes: &[i32], rows: &[u32], scratch: &[u32], t: usize) -> Option<usize>
    requires t_in_bounds { 3 * t ≤ length rows.now }
    requires t_in_bounds_2 { t ≤ length scratch.now }
    requires by_index { (i : ℕ) → i < t → Standing nodes.now (row_at rows.now i) }
    ensures { result ≡ lowest (odd_at nodes.now rows.now scratch.now) 0 t }
{
    (0..t).find(|&i| odd_at(nodes, rows, scratch, i))
}

// ---- the new nodes

// If the edge x-y is first met here, its node becomes node `at`.
fn place_edge(nodes: &mut [i32], first: u32, at: u32, x: u32, y: u32)
    requires stands { Stands nodes.old x × Stands nodes.old y }
    requires first_in_bounds { 4 * (at + first) ≤ length nodes.old }
    ensures { nodes.new ≡ place_edge first at x y nodes.old }
{
    if first == 1 {
        let a = tables::node_at(nodes, x as usize);
        let b = tables::node_at(nodes, y as usize);
        tables::put_node(nodes, at as usize, between(a, b));
    }
}

fn place_three(nodes: &mut [i32], w: Tri, c: Note, n: u32)
    requires n_bound { n ≤ 65_536 }
    requires short { Short c }
    requires standing { Standing nodes.old w }
    requires c_in_bounds { 4 * after n c ≤ length nodes.old }
    ensures { nodes.new ≡ place_three n w c nodes.old }
{
    place_edge(nodes, c.fm, c.own_m(n), w.q, w.r);
    place_edge(nodes, c.fu, c.own_u(n), w.p, w.q);
    place_edge(nodes, c.fv, c.own_v(n), w.r, w.p);
}

fn place_row(nodes: &mut [i32], rows: &[u32], scratch: &[u32], n: u32, i: usize)
    requires n_bound { n ≤ 65_536 }
    requires i_in_bounds { 3 * i + 3 ≤ length rows.now }
    requires i_in_bounds_2 { i < length scratch.now }
    requires standing { Standing nodes.old (row_at rows.now i) }
    requires i_in_bounds_3 { 4 * after n (note_at scratch.now i) ≤ length nodes.old }
    ensures { nodes.new ≡ place_row n rows.now scratch.now i nodes.old }
{
    let w = tables::row_at(rows, i);
    let c = notes::note_at(scratch, i);
    place_three(nodes, w, c, n);
}

// Every new node gets its place and its correction.
pub fn place_nodes(nodes: &mut [i32], rows: &[u32], scratch: &[u32], n: u32, t: usize)
    requires n_bound { n ≤ 65_536 }
    requires t_in_bounds { 3 * t ≤ length rows.now }
    requires t_in_bounds_2 { t ≤ length scratch.now }
    requires by_index { (i : ℕ) → i < t → Standing nodes.old (row_at rows.now i) }
    requires by_index_2 { (i : ℕ) → i < t → 4 * after n (note_at scratch.now i) ≤ length nodes.old }
    ensures { nodes.new ≡ iter (place_row n rows.now scratch.now) 0 t nodes.old }
{
    for i in 0..t {
        place_row(nodes, rows, scratch, n, i);
    }
}
