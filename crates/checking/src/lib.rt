// What stands in the way of the base check: 1 to 7, then 11, 12 and 10.
#![tactic(auto)]

ghost use Rattle.std.specs.Prelude.{◌<◌, ◌≡◌, [], ◌+◌, ◌*◌, ◌≤◌, length, replicate};
ghost use Rattle.lists.specs.Search.{lowest};
ghost use Rattle.meaning.specs.Lawful.{fault};
ghost use Rattle.meaning.specs.Tables.{given};
ghost use Rattle.meaning.specs.Calls.{base_no};
ghost use Rattle.neighbours.specs.Ready.{Ready};
ghost use Rattle.pairs.specs.Gravity.{gravity};
ghost use Rattle.refusals.specs.Refusals.{verdict};
ghost use Rattle.checking.specs.Clash.{clash_with, clash_at};
ghost use Rattle.sweep.specs.Severity.{severity};
ghost use Rattle.judging.specs.Judge.{mesh_in, Admitted};
ghost use Rattle.checking.specs.Check.{check_fault, number_of};

use meaning::Tri;
use neighbours::Search;
use pairs::Grave;
use refusals::Refusal;
use tables::Mesh;

// ---- 10: the refinement edge of a row is in another row, and not as that one's refinement edge

// Of a row w and the one that holds r→q of w.
#[tactic(auto, unfolding(crate::specs::Clash::clash_with))]
fn clash_with(w: Tri, u: Tri) -> bool
    ensures { result ≡ clash_with w u }
{
    !(w.r == u.q && w.q == u.r)
}

fn clash_at(search: Search, i: usize) -> bool
    requires { i < search.t }
    ensures { result ≡ clash_at search.entry.rows.now search.entry.t i }
{
    let w = tables::row_at(search.rows, i);
    match search.find_edge(w.r, w.q) {
        Some(j) => clash_with(w, tables::row_at(search.rows, j)),
        None => false,
    }
}

// For a mesh that draws none of 3 to 7.
fn first_clash(search: Search) -> Option<usize>
    ensures { result ≡ lowest (clash_at search.entry.rows.now search.entry.t) 0 search.entry.t }
{
    (0..search.t).find(|&i| clash_at(search, i))
}

// ---- the lowest number

// 11, 12 or 10: from how grave it is of the rows, and whether the labelling clashes.
#[tactic(auto, unfolding(crate::specs::Check::number_of))]
fn refusal_of(grave: Grave, clashing: bool) -> Result<(), Refusal>
    ensures { verdict result ≡ fault (number_of (gravity grave) clashing) 0 }
{
    match grave {
        Grave::Touching => Err(Refusal::Touching),
        Grave::Lapping => Err(Refusal::Lapping),
        Grave::Apart if clashing => Err(Refusal::Clashing),
        Grave::Apart => Ok(()),
    }
}

// How grave it is of the rows of a lawful mesh, two by two: not at all where the border is clear, so that they are compared only where it is not.
// The index of the mesh stands in scratch before, and need not after.
fn severity_of(mesh: Mesh, scratch: &mut [u32]) -> Grave
    requires { Admitted mesh.nodes.now mesh.rows.now scratch.old [] 0 mesh.n mesh.t }
    ensures { let e = mesh.entry in gravity result ≡ severity (mesh_in e.nodes.now e.rows.now e.n e.t) }
{
    if outline::is_clear(mesh.nodes, mesh.rows, scratch, mesh.t) {
        return Grave::Apart;
    }
    tables::clear(scratch);
    sweep::severity(mesh.nodes, mesh.rows, scratch, mesh.n, mesh.t)
}

// 11, 12 or 10 of a lawful mesh. Its index stands in scratch before, and need not after.
fn late(mesh: Mesh, scratch: &mut [u32]) -> Result<(), Refusal>
    requires { Admitted mesh.nodes.now mesh.rows.now scratch.old [] 0 mesh.n mesh.t }
    ensures { let e = mesh.entry in verdict result ≡ fault (base_no (mesh_in e.nodes.now e.rows.now e.n e.t)) 0 }
{
    let search = Search {
        rows: mesh.rows,
        scratch,
        nc: mesh.nodes.len() / 4,
        t: mesh.t,
    };
    let clashing = first_clash(search).is_some();
    let grave = severity_of(mesh, scratch);
    refusal_of(grave, clashing)
}

// The lowest number that applies, and where; no marks are given, and none are wanted. Scratch is all zero before.
pub fn work(
    nodes: &[i32],
    rows: &[u32],
    scratch: &mut [u32],
    n: usize,
    t: usize,
) -> Result<(), Refusal>
    requires { scratch.old ≡ replicate (length scratch.old) 0 }
    ensures { verdict result ≡ check_fault (given nodes.now rows.now scratch.old n t) }
{
    judging::judge(nodes, rows, scratch, b"", 0, 0, n, t)?;
    late(Mesh { nodes, rows, n, t }, scratch)
}
