// The judge of a mesh: document 01's numbers 3 to 7, each with the lowest node or row at fault.
#![tactic(auto)]

ghost use Rattle.std.specs.Prelude.{◌≡◌, false, ◌+◌, ◌*◌, ◌/◌, ◌≤◌, ◌<◌, length, take, replicate, set, leb, None};
ghost use Rattle.lists.specs.Search.{lowest, items, iter};
ghost use Rattle.meaning.specs.Lawful.{misnamed, unused, fault_of};
ghost use Rattle.meaning.specs.Tables.{row_at, given, mesh_of};
ghost use Rattle.neighbours.specs.Sized.{Sized, index_at};
ghost use Rattle.neighbours.specs.Ready.{Ready};
ghost use Rattle.lawful.specs.Tests.{outside_at, misnamed_at, arrow_below, repeat_at, flat_at, mark_step, blank_at, later_by};
ghost use Rattle.lawful.specs.FaultLaw.{Judged};
ghost use Rattle.refusals.specs.Refusals.{verdict};

use meaning::Tri;
use neighbours::Search;
use refusals::Refusal;
use tables::Mesh;

// ---- 3: a coordinate or a correction is outside its range

fn outside_at(mesh: Mesh, k: usize) -> bool
    requires { k < mesh.n }
    ensures { result ≡ outside_at mesh.entry.nodes.now k }
{
    plane::node_outside(mesh.node(k))
}

fn first_outside(mesh: Mesh) -> Option<usize>
    ensures { result ≡ lowest (outside_at mesh.entry.nodes.now) 0 mesh.entry.n }
{
    (0..mesh.n).find(|&k| outside_at(mesh, k))
}

// ---- 4: a row names a node that is not below n, or one node twice

fn misnamed(w: Tri, n: usize) -> bool
    ensures { result ≡ misnamed n w }
{
    w.p as usize >= n
        || w.q as usize >= n
        || w.r as usize >= n
        || w.p == w.q
        || w.q == w.r
        || w.r == w.p
}

fn misnamed_at(mesh: Mesh, i: usize) -> bool
    requires { i < mesh.t }
    ensures { result ≡ misnamed_at mesh.entry.rows.now mesh.entry.n i }
{
    misnamed(mesh.row(i), mesh.n)
}

fn first_misnamed(mesh: Mesh) -> Option<usize>
    ensures { result ≡ lowest (misnamed_at mesh.entry.rows.now mesh.entry.n) 0 mesh.entry.t }
{
    (0..mesh.t).find(|&i| misnamed_at(mesh, i))
}

// ---- 5: a row has a directed edge that a lower row has

fn edge_below(search: Search, x: u32, y: u32) -> bool
    ensures { result ≡ arrow_below search.entry.rows.now search.entry.t x y }
{
    search.find_edge(x, y).is_some()
}

// Asked of row t, where the search is of the rows below it.
fn repeat_at(search: Search) -> bool
    requires t_in_bounds { 3 * search.t + 3 ≤ length search.rows.now }
    ensures { result ≡ repeat_at search.entry.rows.now search.entry.t }
{
    let w = tables::row_at(search.rows, search.t);
    edge_below(search, w.p, w.q) || edge_below(search, w.q, w.r) || edge_below(search, w.r, w.p)
}

// Row by row: each is asked about, then joins the index. Where no row is at fault, all are in the index.
fn first_repeat(mesh: Mesh, scratch: &mut [u32], nc: usize) -> Option<usize>
    requires n_le_nc { mesh.n ≤ nc }
    requires t_value { lowest (misnamed_at mesh.rows.now mesh.n) 0 mesh.t ≡ None }
    requires ready_2 { Ready scratch.old nc mesh.rows.now 0 }
    ensures answer { result ≡ lowest (repeat_at mesh.entry.rows.now) 0 mesh.entry.t }
    ensures notes { take (index_at nc (length mesh.entry.rows.now)) scratch.new ≡ take (index_at nc (length mesh.entry.rows.now)) scratch.old }
    ensures ready { result ≡ None → Ready scratch.new nc mesh.entry.rows.now mesh.entry.t }
{
    for i in 0..mesh.t {
        let below = Search {
            rows: mesh.rows,
            scratch,
            nc,
            t: i,
        };
        if repeat_at(below) {
            return Some(i);
        }
        neighbours::add_row(mesh.rows, scratch, nc, i);
    }
    None
}

// ---- 6: a row's twice-area is not above 0

fn flat_at(mesh: Mesh, i: usize) -> bool
    requires i_lt_t { i < mesh.t }
    requires i_value { misnamed_at mesh.rows.now mesh.n i ≡ false }
    requires n_value { lowest (outside_at mesh.nodes.now) 0 mesh.n ≡ None }
    ensures { result ≡ flat_at mesh.entry.nodes.now mesh.entry.rows.now i }
{
    let w = mesh.row(i);
    plane::flat(mesh.place(w.p), mesh.place(w.q), mesh.place(w.r))
}

fn first_flat(mesh: Mesh) -> Option<usize>
    requires t_value { lowest (misnamed_at mesh.rows.now mesh.n) 0 mesh.t ≡ None }
    requires n_value { lowest (outside_at mesh.nodes.now) 0 mesh.n ≡ None }
    ensures { result ≡ lowest (flat_at mesh.entry.nodes.now mesh.entry.rows.now) 0 mesh.entry.t }
{
    (0..mesh.t).find(|&i| flat_at(mesh, i))
}

// ---- 7: a node is in no row

fn mark(scratch: &mut [u32], k: u32)
    requires { k < length scratch.old }
    ensures { scratch.new ≡ set scratch.old k 1 }
{
    tables::put_note(scratch, k as usize, 1);
}

fn mark_row(mesh: Mesh, scratch: &mut [u32], i: usize)
    requires i_lt_t { i < mesh.t }
    requires n_in_bounds { mesh.n ≤ length scratch.old }
    requires i_value { misnamed_at mesh.rows.now mesh.n i ≡ false }
    ensures { scratch.new ≡ mark_step mesh.entry.rows.now i scratch.old }
{
    let w = mesh.row(i);
    mark(scratch, w.p);
    mark(scratch, w.q);
    mark(scratch, w.r);
}

fn mark_rows(mesh: Mesh, scratch: &mut [u32])
    requires n_in_bounds { mesh.n ≤ length scratch.old }
    requires t_value { lowest (misnamed_at mesh.rows.now mesh.n) 0 mesh.t ≡ None }
    ensures { scratch.new ≡ iter (mark_step mesh.entry.rows.now) 0 mesh.entry.t scratch.old }
{
    for i in 0..mesh.t {
        mark_row(mesh, scratch, i);
    }
}

fn blank_at(scratch: &[u32], z: usize) -> bool
    requires { z < length scratch.now }
    ensures { result ≡ blank_at scratch.now z }
{
    tables::note_at(scratch, z) == 0
}

fn first_blank(scratch: &[u32], n: usize) -> Option<usize>
    requires { n ≤ length scratch.now }
    ensures { result ≡ lowest (blank_at scratch.now) 0 n }
{
    (0..n).find(|&z| blank_at(scratch, z))
}

// The nodes of all rows are marked in the notes; the marks are taken away again.
fn first_unused(mesh: Mesh, scratch: &mut [u32]) -> Option<usize>
    requires n_in_bounds { mesh.n ≤ length scratch.old }
    requires t_value { lowest (misnamed_at mesh.rows.now mesh.n) 0 mesh.t ≡ None }
    requires scratch_value { take mesh.n scratch.old ≡ replicate mesh.n 0 }
    ensures answer { result ≡ lowest (unused (items (row_at mesh.entry.rows.now) 0 mesh.entry.t)) 0 mesh.entry.n }
    ensures same { scratch.new ≡ scratch.old }
{
    mark_rows(mesh, scratch);
    let f = first_blank(scratch, mesh.n);
    tables::clear_front(scratch, mesh.n);
    f
}

// ---- 3 to 7

// Of a mesh that draws neither 3 nor 4, the lowest of 5 to 7 that applies.
fn later_fault(mesh: Mesh, scratch: &mut [u32], nc: usize) -> Result<(), Refusal>
    requires sized { Sized nc (length mesh.rows.now) (length scratch.old) }
    requires n_le_nc { mesh.n ≤ nc }
    requires n_value { lowest (outside_at mesh.nodes.now) 0 mesh.n ≡ None }
    requires t_value { lowest (misnamed_at mesh.rows.now mesh.n) 0 mesh.t ≡ None }
    requires scratch_value { scratch.old ≡ replicate (length scratch.old) 0 }
    ensures answer { verdict result ≡ later_by mesh.entry.nodes.now mesh.entry.rows.now mesh.entry.n mesh.entry.t }
    ensures after { Judged (verdict result) scratch.new nc mesh.entry.rows.now mesh.entry.t }
{
    if let Some(i) = first_repeat(mesh, scratch, nc) {
        return Err(Refusal::Repeated(i));
    }
    if let Some(i) = first_flat(mesh) {
        return Err(Refusal::Flat(i));
    }
    if let Some(k) = first_unused(mesh, scratch) {
        return Err(Refusal::Unused(k));
    }
    Ok(())
}

// The lowest number that applies, and where. The notes are all zero after; where no number applies, all rows are in the index.
pub fn lowest_fault(mesh: Mesh, scratch: &mut [u32]) -> Result<(), Refusal>
    requires sized { Sized (length mesh.nodes.now / 4) (length mesh.rows.now) (length scratch.old) }
    requires scratch_value { scratch.old ≡ replicate (length scratch.old) 0 }
    ensures answer { verdict result ≡ fault_of (mesh_of (given mesh.entry.nodes.now mesh.entry.rows.now scratch.old mesh.entry.n mesh.entry.t)) }
    ensures after { Judged (verdict result) scratch.new (length mesh.entry.nodes.now / 4) mesh.entry.rows.now mesh.entry.t }
{
    if let Some(k) = first_outside(mesh) {
        return Err(Refusal::OutOfRange(k));
    }
    if let Some(i) = first_misnamed(mesh) {
        return Err(Refusal::Misnamed(i));
    }
    later_fault(mesh, scratch, mesh.nodes.len() / 4)
}
