// What coarsen does to a lawful mesh: which nodes go, what becomes of each row, the new numbers, and the closing up.
//
// Notes, with nc the room of nodes:
//   z          the new number of node z
//   nc + z     the number of the pair b, c of node z where it goes, else 0
//   2 nc + i   what becomes of row i: 0 it stays, 1 it goes, c + 2 it becomes (q, r, c)
#![tactic(auto)]

ghost use Rattle.std.specs.Prelude.{◌≡◌, ℕ, ◌+◌, ◌*◌, ◌^◌, ◌≤◌, ◌<◌, pos, length, get_or, set, take, replicate, Option};
ghost use Rattle.std.specs.Option.{unwrap_or};
ghost use Rattle.lists.specs.Table.{read_at, flatten};
ghost use Rattle.lists.specs.Loops.{noted, remaining};
ghost use Rattle.meaning.specs.Lawful.{Lawful};
ghost use Rattle.meaning.specs.Coarsen.{marked, coarsened};
ghost use Rattle.meaning.specs.Tables.{row_at, node_at, flat_rows, flat_nodes, filled};
ghost use Rattle.neighbours.specs.Sized.{Sized, index_at};
ghost use Rattle.neighbours.specs.Ready.{Ready};
ghost use Rattle.laws.specs.Meshes.{mesh_at, Fair};
ghost use Rattle.gather.specs.Whole.{Going, Settled, tabled, tabled_of};
ghost use Rattle.gather.specs.Closing.{Renewing, renewed, kept_by, row_renewing, node_renewing};
ghost use Rattle.gather.specs.Goes.{Small, take_at, number_of, fate_no, fate_at, gone_node, next_number, number_below, gone_row, renamed_by, new_row};

use meaning::{Node, Tri};
use refusals::Counts;
use tables::Record;

// ---- which nodes go

fn is_marked(marks: &[u8], z: usize) -> bool
    requires { z < length marks.now }
    ensures { result ≡ marked marks.now z }
{
    marks[z] == 1
}

// The number of its pair, where it goes.
fn taken(scratch: &[u32], marks: &[u8], nc: usize, z: usize) -> Option<u32>
    requires z_in_bounds { nc + z < length scratch.now }
    requires z_in_bounds_2 { z < length marks.now }
    ensures { unwrap_or result 0 ≡ take_at marks.now scratch.now nc z }
{
    let v = tables::note_at(scratch, nc + z);
    if is_marked(marks, z) && v % 2 == 1 {
        Some(v / 2)
    } else {
        None
    }
}

fn take_nodes(scratch: &mut [u32], marks: &[u8], nc: usize, n: usize)
    requires n_in_bounds { nc + n ≤ length scratch.old }
    requires n_in_bounds_2 { n ≤ length marks.now }
    ensures { scratch.new ≡ noted nc (take_at marks.now scratch.old nc) n scratch.old }
{
    for z in 0..n {
        let v = taken(scratch, marks, nc, z).unwrap_or(0);
        tables::put_note(scratch, nc + z, v);
    }
}

// ---- what becomes of a row

#[derive(Clone, Copy)]
enum Fate {
    Stays,
    Goes,
    Becomes(u32), // of (p, q, r) it is (q, r, c), with this c
}

impl Fate {
    // As scratch holds it.
    fn number(self) -> u32
        requires { number_of self < 2 ^ 32 }
        ensures { result ≡ number_of self }
    {
        match self {
            Fate::Stays => 0,
            Fate::Goes => 1,
            Fate::Becomes(c) => c + 2,
        }
    }
}

impl From<u32> for Fate {
    ghost from_gives = { λ k f. number_of f ≡ k };

    fn from(k: u32) -> Fate {
        match k {
            0 => Fate::Stays,
            1 => Fate::Goes,
            _ => Fate::Becomes(k - 2),
        }
    }
}

// Of row w, whose newest vertex goes with the pair number v, or stays with 0.
fn fate_of(w: Tri, v: u32) -> Fate
    requires { v ≤ 1_073_741_824 }
    ensures number { number_of result ≡ fate_no v w }
    ensures few { number_of result < 2 ^ 32 }
{
    let Some(pair) = v.checked_sub(1) else {
        return Fate::Stays;
    };
    let lo = pair / 32768;
    let hi = pair % 32768;
    if w.r == lo {
        Fate::Becomes(hi)
    } else if w.r == hi {
        Fate::Becomes(lo)
    } else {
        Fate::Goes // a brother's
    }
}

fn at_node(scratch: &[u32], nc: usize, k: u32) -> u32
    requires { nc + k < length scratch.now }
    ensures { result ≡ get_or scratch.now (nc + k) 0 }
{
    tables::note_at(scratch, nc + k as usize)
}

fn fate_at(rows: &[u32], scratch: &[u32], nc: usize, n: usize, t: usize, i: usize) -> Fate
    requires fair { Fair rows.now n t }
    requires i_lt_t { i < t }
    requires n_in_bounds { nc + n ≤ length scratch.now }
    requires small { Small scratch.now nc n }
    ensures number { number_of result ≡ fate_at rows.now scratch.now nc i }
    ensures few { number_of result < 2 ^ 32 }
{
    let w = tables::row_at(rows, i);
    let v = at_node(scratch, nc, w.p);
    fate_of(w, v)
}

fn fates(rows: &[u32], scratch: &mut [u32], nc: usize, n: usize, t: usize)
    requires fair { Fair rows.now n t }
    requires n_le_nc { n ≤ nc }
    requires t_in_bounds { 2 * nc + t ≤ length scratch.old }
    requires small { Small scratch.old nc n }
    ensures { scratch.new ≡ noted (2 * nc) (fate_at rows.now scratch.old nc) t scratch.old }
{
    for i in 0..t {
        let f = fate_at(rows, scratch, nc, n, t, i).number();
        tables::put_note(scratch, 2 * nc + i, f);
    }
}

// ---- new numbers

#[tactic(auto, unfolding(crate::specs::Goes::gone_node))]
fn gone_node(scratch: &[u32], nc: usize, z: usize) -> bool
    requires { nc + z < length scratch.now }
    ensures { result ≡ gone_node scratch.now nc z }
{
    tables::note_at(scratch, nc + z) != 0
}

// Node z gets the number k; the next number is returned.
fn number_node(scratch: &mut [u32], nc: usize, z: usize, k: u32) -> u32
    requires z_lt_nc { z < nc }
    requires k_bound { k ≤ 65_536 }
    requires z_in_bounds { nc + z < length scratch.old }
    ensures put { scratch.new ≡ set scratch.old z k }
    ensures next { result ≡ next_number (gone_node scratch.old nc z) k }
{
    let g = gone_node(scratch, nc, z);
    tables::put_note(scratch, z, k);
    if g { k } else { k + 1 }
}

// Each node's number is how many nodes below it stay.
fn numbers(scratch: &mut [u32], nc: usize, n: usize)
    requires n_le_nc { n ≤ nc }
    requires nc_bound { nc ≤ 65_536 }
    requires n_in_bounds { nc + n ≤ length scratch.old }
    ensures { scratch.new ≡ noted 0 (number_below (gone_node scratch.old nc)) n scratch.old }
{
    let mut k = 0;
    for z in 0..n {
        k = number_node(scratch, nc, z, k);
    }
}

// ---- tables close up

// Of the first t records each goes or stays, made new: those that stay move to the front in order, and the rest of the table is blank.
// Returns their number.
fn close<R: Record, F: Fn(usize, R) -> Option<R>>(
    table: &mut [R::Number],
    t: usize,
    after: F,
) -> usize
    ghost all: { Renewing R }
    requires t_in_bounds { R.form.width * t ≤ length table.old }
    requires callable { (i : ℕ) (w : R) → i < t → F.pre after i w }
    requires told { (i : ℕ) (w : R) (o : Option R) → i < t → F.post after i w o → o ≡ renewed all i w }
    ensures count { result ≡ length (kept_by all (read_at R.form table.old) t) }
    ensures table { table.new ≡ filled R.form.blank (length table.old) (flatten R.form (kept_by all (read_at R.form table.old) t)) }
{
    let mut k = 0;
    for i in 0..t {
        if let Some(w) = after(i, R::read(table, i)) {
            w.put(table, k);
            k += 1;
        }
    }
    tables::clear_from::<R>(table, k);
    k
}

fn number(scratch: &[u32], k: u32) -> u32
    ensures { result ≡ get_or scratch.now k 0 }
{
    scratch.get(k as usize).copied().unwrap_or(0)
}

#[tactic(auto, unfolding(crate::specs::Goes::renamed_by))]
fn renamed(scratch: &[u32], w: Tri) -> Tri
    ensures { result ≡ renamed_by scratch.now w }
{
    Tri {
        p: number(scratch, w.p),
        q: number(scratch, w.q),
        r: number(scratch, w.r),
    }
}

// Row i, which is w, as it is after.
fn row_after(scratch: &[u32], nc: usize, i: usize, w: Tri) -> Option<Tri>
    requires { 2 * nc + i < length scratch.now }
    ensures { result ≡ renewed (row_renewing scratch.now nc) i w }
{
    match Fate::from(tables::note_at(scratch, 2 * nc + i)) {
        Fate::Stays => Some(renamed(scratch, w)),
        Fate::Goes => None,
        Fate::Becomes(r) => {
            let father = Tri { p: w.q, q: w.r, r };
            Some(renamed(scratch, father))
        }
    }
}

// The table after, and the number of its rows.
fn close_rows(rows: &mut [u32], scratch: &[u32], nc: usize, t: usize) -> usize
    requires t_in_bounds { 3 * t ≤ length rows.old }
    requires t_in_bounds_2 { 2 * nc + t ≤ length scratch.now }
    ensures count { result ≡ length (remaining (gone_row scratch.now nc) (new_row scratch.now nc rows.old) 0 t) }
    ensures rows { rows.new ≡ filled 0 (length rows.old) (flat_rows (remaining (gone_row scratch.now nc) (new_row scratch.now nc rows.old) 0 t)) }
{
    close(rows, t, |i, w: Tri| row_after(scratch, nc, i, w))
}

// Node z, which is a, as it is after.
fn node_after(scratch: &[u32], nc: usize, z: usize, a: Node) -> Option<Node>
    requires { nc + z < length scratch.now }
    ensures { result ≡ renewed (node_renewing scratch.now nc) z a }
{
    if gone_node(scratch, nc, z) {
        None
    } else {
        Some(a)
    }
}

// The table after, and the number of its nodes.
fn close_nodes(nodes: &mut [i32], scratch: &[u32], nc: usize, n: usize) -> usize
    requires n_in_bounds { 4 * n ≤ length nodes.old }
    requires n_in_bounds_2 { nc + n ≤ length scratch.now }
    ensures count { result ≡ length (remaining (gone_node scratch.now nc) (node_at nodes.old) 0 n) }
    ensures nodes { nodes.new ≡ filled (pos 0) (length nodes.old) (flat_nodes (remaining (gone_node scratch.now nc) (node_at nodes.old) 0 n)) }
{
    close(nodes, n, |z, a: Node| node_after(scratch, nc, z, a))
}

// ---- all of it

// Notes which nodes go, each with its pair.
fn note_nodes(
    nodes: &[i32],
    rows: &[u32],
    scratch: &mut [u32],
    marks: &[u8],
    nc: usize,
    n0: usize,
    n: usize,
    t: usize,
)
    requires lawful { Lawful (mesh_at nodes.now rows.now n t) }
    requires sized { Sized nc (length rows.now) (length scratch.old) }
    requires n_in_bounds { (4 * n ≤ length nodes.now) × (3 * t ≤ length rows.now) }
    requires n_le_nc { (n ≤ nc) × (nc ≤ 32_768) }
    requires n_in_bounds_2 { n ≤ length marks.now }
    requires scratch_value { take (index_at nc (length rows.now)) scratch.old ≡ replicate (index_at nc (length rows.now)) 0 }
    requires ready { Ready scratch.old nc rows.now t }
    ensures { Going scratch.new nc n0 (mesh_at nodes.now rows.now n t) marks.now n }
{
    good::judge(nodes, rows, scratch, nc, n0, n, t);
    take_nodes(scratch, marks, nc, n);
}

// Notes which nodes go, what becomes of each row, and the new numbers.
fn note(
    nodes: &[i32],
    rows: &[u32],
    scratch: &mut [u32],
    marks: &[u8],
    nc: usize,
    n0: usize,
    n: usize,
    t: usize,
)
    requires lawful { Lawful (mesh_at nodes.now rows.now n t) }
    requires sized { Sized nc (length rows.now) (length scratch.old) }
    requires n_in_bounds { (4 * n ≤ length nodes.now) × (3 * t ≤ length rows.now) }
    requires n_le_nc { (n ≤ nc) × (nc ≤ 32_768) }
    requires n_in_bounds_2 { n ≤ length marks.now }
    requires scratch_value { take (index_at nc (length rows.now)) scratch.old ≡ replicate (index_at nc (length rows.now)) 0 }
    requires ready { Ready scratch.old nc rows.now t }
    ensures { Settled scratch.new nc n0 (mesh_at nodes.now rows.now n t) marks.now rows.now n t }
{
    note_nodes(nodes, rows, scratch, marks, nc, n0, n, t);
    fates(rows, scratch, nc, n, t);
    numbers(scratch, nc, n);
}

// Takes the marked good nodes out of a lawful mesh all of whose rows are in the index.
pub fn take_out(
    nodes: &mut [i32],
    rows: &mut [u32],
    scratch: &mut [u32],
    marks: &[u8],
    nc: usize,
    n0: usize,
    n: usize,
    t: usize,
) -> Counts
    requires lawful { Lawful (mesh_at nodes.old rows.old n t) }
    requires sized { Sized nc (length rows.old) (length scratch.old) }
    requires n_in_bounds { (4 * n ≤ length nodes.old) × (3 * t ≤ length rows.old) }
    requires n_le_nc { (n ≤ nc) × (nc ≤ 32_768) }
    requires n_in_bounds_2 { n ≤ length marks.now }
    requires scratch_value { take (index_at nc (length rows.old)) scratch.old ≡ replicate (index_at nc (length rows.old)) 0 }
    requires ready { Ready scratch.old nc rows.old t }
    ensures { tabled result nodes.new rows.new ≡ tabled_of (length nodes.old) (length rows.old) (coarsened n0 (mesh_at nodes.old rows.old n t) marks.now) }
{
    note(nodes, rows, scratch, marks, nc, n0, n, t);
    let t_left = close_rows(rows, scratch, nc, t);
    let n_left = close_nodes(nodes, scratch, nc, n);
    Counts {
        n: n_left,
        t: t_left,
    }
}
