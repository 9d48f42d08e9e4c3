// Reading and writing the tables that a caller lends: rows, nodes and notes.
#![tactic(auto)]

ghost use Rattle.std.specs.Prelude.{◌≡◌, ℕ, ◌++◌, ◌+◌, ◌*◌, ◌≤◌, ◌<◌, length, drop, replicate, get_or, set, pos, refl};
ghost use Rattle.lists.specs.Search.{items};
ghost use Rattle.lists.specs.Table.{Form, Faithful, read_at, write_at, flatten};
ghost use Rattle.meaning.specs.Mesh.{arrow, holds_arrow};
ghost use Rattle.meaning.specs.Tables.{row_form, node_form, rows-faithful, nodes-faithful};
ghost use Rattle.meaning.specs.Tables.{row_at, node_at, place_at, flat_rows, flat_nodes, filled};
ghost use Rattle.tables.specs.Arrow.{arrow_at};
ghost use Rattle.tables.specs.Put.{set_row, set_node};

use meaning::{Correction, Node, Place, Tri};

// ---- records

// A record of a table: how it stands there, its numbers one after the other.
pub trait Record: Copy {
    type Number;

    ghost form: { Form Self.Number Self };

    // How many numbers it has.
    ghost WIDTH: { ℕ };

    const WIDTH: usize;

    // Record k of the table.
    fn read(table: &[Self::Number], k: usize) -> Self
        requires { form.width * k + form.width ≤ length table.now }
        ensures { result ≡ read_at form table.now k };

    // The record becomes record k of the table.
    fn put(self, table: &mut [Self::Number], k: usize)
        requires { form.width * k + form.width ≤ length table.old }
        ensures { table.new ≡ write_at form table.old k self };

    // All of the table is blank after.
    fn clear(table: &mut [Self::Number])
        ensures { table.new ≡ replicate (length table.old) form.blank };

    ghost faithful: { Faithful form };

    ghost wide: { form.width ≡ WIDTH };
}

impl Record for Tri {
    type Number = u32;

    ghost form = { row_form };

    ghost WIDTH = { 3 };

    const WIDTH: usize = 3;

    fn read(table: &[u32], k: usize) -> Tri {
        row_at(table, k)
    }

    fn put(self, table: &mut [u32], k: usize) {
        put_row(table, k, self);
    }

    fn clear(table: &mut [u32]) {
        clear(table);
    }

    ghost faithful = { rows-faithful };

    ghost wide = { refl };
}

impl Record for Node {
    type Number = i32;

    ghost form = { node_form };

    ghost WIDTH = { 4 };

    const WIDTH: usize = 4;

    fn read(table: &[i32], k: usize) -> Node {
        node_at(table, k)
    }

    fn put(self, table: &mut [i32], k: usize) {
        put_node(table, k, self);
    }

    fn clear(nodes: &mut [i32]) {
        nodes.fill(0);
    }

    ghost faithful = { nodes-faithful };

    ghost wide = { refl };
}

// The first k records stay; the rest of the table is blank.
pub fn clear_from<R: Record>(table: &mut [R::Number], k: usize)
    requires { R.form.width * k ≤ length table.old }
    ensures { table.new ≡ filled R.form.blank (length table.old) (flatten R.form (items (read_at R.form table.old) 0 k)) }
{
    R::clear(&mut table[R::WIDTH * k..]);
}

// ---- rows and nodes

// Row i of the triangle table.
pub fn row_at(rows: &[u32], i: usize) -> Tri
    requires { 3 * i + 3 ≤ length rows.now }
    ensures { result ≡ row_at rows.now i }
{
    Tri {
        p: rows[3 * i],
        q: rows[3 * i + 1],
        r: rows[3 * i + 2],
    }
}

// Node k of the node table.
pub fn node_at(nodes: &[i32], k: usize) -> Node
    requires { 4 * k + 4 ≤ length nodes.now }
    ensures { result ≡ node_at nodes.now k }
{
    Node {
        place: place_at(nodes, k),
        correction: correction_at(nodes, k),
    }
}

// Its place.
pub fn place_at(nodes: &[i32], k: usize) -> Place
    requires { 4 * k + 4 ≤ length nodes.now }
    ensures { result ≡ place_at nodes.now k }
{
    Place {
        x: nodes[4 * k],
        y: nodes[4 * k + 1],
    }
}

// Its correction.
pub fn correction_at(nodes: &[i32], k: usize) -> Correction
    requires { 4 * k + 4 ≤ length nodes.now }
    ensures { result ≡ (node_at nodes.now k).correction }
{
    Correction {
        dx: nodes[4 * k + 2],
        dy: nodes[4 * k + 3],
    }
}

// The place of a corner.
pub fn corner(nodes: &[i32], k: u32) -> Place
    requires { 4 * k + 4 ≤ length nodes.now }
    ensures { result ≡ place_at nodes.now k }
{
    place_at(nodes, k as usize)
}

pub fn put_row(rows: &mut [u32], i: usize, w: Tri)
    requires { 3 * i + 3 ≤ length rows.old }
    ensures { rows.new ≡ set_row rows.old i w }
{
    rows[3 * i] = w.p;
    rows[3 * i + 1] = w.q;
    rows[3 * i + 2] = w.r;
}

pub fn put_node(nodes: &mut [i32], k: usize, a: Node)
    requires { 4 * k + 4 ≤ length nodes.old }
    ensures { nodes.new ≡ set_node nodes.old k a }
{
    nodes[4 * k] = a.place.x;
    nodes[4 * k + 1] = a.place.y;
    nodes[4 * k + 2] = a.correction.dx;
    nodes[4 * k + 3] = a.correction.dy;
}

// ---- a mesh as lent

// The mesh in the tables that a caller lends: the first n nodes and the first t rows.
#[derive(Clone, Copy)]
pub struct Mesh<'a> {
    pub nodes: &'a [i32],
    pub rows: &'a [u32],
    pub n: usize,
    pub t: usize,
    ghost nodes_fit: { 4 * n ≤ length nodes.now },
    ghost rows_fit: { 3 * t ≤ length rows.now },
}

impl Mesh<'_> {
    pub fn row(self, i: usize) -> Tri
        requires { i < self.t }
        ensures { result ≡ row_at self.entry.rows.now i }
    {
        row_at(self.rows, i)
    }

    pub fn node(self, k: usize) -> Node
        requires { k < self.n }
        ensures { result ≡ node_at self.entry.nodes.now k }
    {
        node_at(self.nodes, k)
    }

    // Where node k stands.
    pub fn place(self, k: u32) -> Place
        requires { k < self.n }
        ensures { result ≡ place_at self.entry.nodes.now k }
    {
        corner(self.nodes, k)
    }
}

// ---- zeros past the counts

// The first t rows stay; the rest of the table is zero.
pub fn clear_rows_from(rows: &mut [u32], t: usize)
    requires { 3 * t ≤ length rows.old }
    ensures { rows.new ≡ filled 0 (length rows.old) (flat_rows (items (row_at rows.old) 0 t)) }
{
    clear_from::<Tri>(rows, t);
}

// The first n nodes stay; the rest of the table is zero.
pub fn clear_nodes_from(nodes: &mut [i32], n: usize)
    requires { 4 * n ≤ length nodes.old }
    ensures { nodes.new ≡ filled (pos 0) (length nodes.old) (flat_nodes (items (node_at nodes.old) 0 n)) }
{
    clear_from::<Node>(nodes, n);
}

// ---- notes

pub fn note_at(scratch: &[u32], k: usize) -> u32
    requires { k < length scratch.now }
    ensures { result ≡ get_or scratch.now k 0 }
{
    scratch[k]
}

pub fn put_note(scratch: &mut [u32], k: usize, v: u32)
    requires { k < length scratch.old }
    ensures { scratch.new ≡ set scratch.old k v }
{
    scratch[k] = v;
}

// All of the table is zero after.
pub fn clear(table: &mut [u32])
    ensures { table.new ≡ replicate (length table.old) 0 }
{
    table.fill(0);
}

// The first k of scratch are zero after.
pub fn clear_front(scratch: &mut [u32], k: usize)
    requires { k ≤ length scratch.old }
    ensures { scratch.new ≡ replicate k 0 ++ drop k scratch.old }
{
    clear(&mut scratch[..k]);
}

// ---- directed edges

// The row has the directed edge x→y.
pub fn has_edge(w: Tri, x: u32, y: u32) -> bool
    ensures { result ≡ holds_arrow (arrow x y) w }
{
    x == w.p && y == w.q || x == w.q && y == w.r || x == w.r && y == w.p
}

// Row i has it.
pub fn edge_at(rows: &[u32], x: u32, y: u32, i: usize) -> bool
    requires { 3 * i + 3 ≤ length rows.now }
    ensures { result ≡ arrow_at rows.now x y i }
{
    has_edge(row_at(rows, i), x, y)
}
