// W6: the correction at a point: the lowest row that holds it, and the mean of the corrections at its corners.
#![tactic(auto)]

ghost use Rattle.std.specs.Prelude.{◌≡◌, ℕ, ◌+◌, ◌*◌, ◌≤◌, ◌<◌, pos, length, replicate};
ghost use Rattle.std.specs.Int.Signed.{le_z};
ghost use Rattle.lists.specs.Search.{lowest};
ghost use Rattle.meaning.specs.Tables.{given, row_at};
ghost use Rattle.meaning.specs.Calls.{ask_out};
ghost use Rattle.laws.specs.Meshes.{Stands, Standing};
ghost use Rattle.weighing.specs.Weighing.{Balanced};
ghost use Rattle.asking.specs.Asking.{side_of, weights_in, holds_in, holds_at, correction_of, told_in};

use meaning::{Correction, Place, Told, Tri};
use refusals::Refusal;
use tables::Mesh;
use weighing::Weights;

// ---- the row that holds the point

// Twice the area that the point makes with the side from node x to node y: below 0 where the point is right of it.
fn side(nodes: &[i32], x: u32, y: u32, point: Place) -> i64
    requires { Stands nodes.now x × Stands nodes.now y }
    ensures { result ≡ side_of nodes.now x y point }
{
    plane::twice_area(tables::corner(nodes, x), tables::corner(nodes, y), point)
}

fn not_right(nodes: &[i32], x: u32, y: u32, point: Place) -> bool
    requires { Stands nodes.now x × Stands nodes.now y }
    ensures { result ≡ le_z (pos 0) (side_of nodes.now x y point) }
{
    side(nodes, x, y, point) >= 0
}

// The point is right of no side.
fn holds_point(nodes: &[i32], w: Tri, point: Place) -> bool
    requires { Standing nodes.now w }
    ensures { result ≡ holds_in nodes.now w point }
{
    not_right(nodes, w.q, w.r, point)
        && not_right(nodes, w.r, w.p, point)
        && not_right(nodes, w.p, w.q, point)
}

fn holds_at(mesh: Mesh, point: Place, i: usize) -> bool
    requires i_lt_t { i < mesh.t }
    requires standing { Standing mesh.nodes.now (row_at mesh.rows.now i) }
    ensures { result ≡ holds_at mesh.entry.nodes.now mesh.entry.rows.now point i }
{
    holds_point(mesh.nodes, mesh.row(i), point)
}

// The lowest row that holds the point.
fn row_holding(mesh: Mesh, point: Place) -> Option<usize>
    requires { (i : ℕ) → i < mesh.t → Standing mesh.nodes.now (row_at mesh.rows.now i) }
    ensures { result ≡ lowest (holds_at mesh.entry.nodes.now mesh.entry.rows.now point) 0 mesh.entry.t }
{
    (0..mesh.t).find(|&i| holds_at(mesh, point, i))
}

// ---- its mean

// The weight of each corner: twice the area that the point makes with the side opposite.
fn weights_of(nodes: &[i32], w: Tri, point: Place) -> Weights
    requires { Standing nodes.now w }
    ensures { result ≡ weights_in nodes.now w point }
{
    let p = side(nodes, w.q, w.r, point);
    let q = side(nodes, w.r, w.p, point);
    let r = side(nodes, w.p, w.q, point);
    Weights { p, q, r }
}

// Of the corrections at the corners. The products fit only where the row holds the point.
fn correction_in(nodes: &[i32], w: Tri, point: Place) -> Correction
    requires standing { Standing nodes.now w }
    requires balanced { Balanced (weights_in nodes.now w point) }
    ensures { result ≡ correction_of nodes.now w point }
{
    let v = weights_of(nodes, w, point);
    let a = tables::correction_at(nodes, w.p as usize);
    let b = tables::correction_at(nodes, w.q as usize);
    let c = tables::correction_at(nodes, w.r as usize);
    weighing::mean(v, a, b, c)
}

// ---- the question

// Scratch is all zero before; what it holds after does not matter.
fn correction_at(
    nodes: &[i32],
    rows: &[u32],
    scratch: &mut [u32],
    n0: usize,
    n: usize,
    t: usize,
    point: Place,
) -> Result<Correction, Refusal>
    requires { scratch.old ≡ replicate (length scratch.old) 0 }
    ensures { told_in result ≡ (ask_out (given nodes.now rows.now scratch.old n t) n0 point).told }
{
    judging::judge(nodes, rows, scratch, b"", 0, n0, n, t)?;
    let mesh = Mesh { nodes, rows, n, t };
    let i = row_holding(mesh, point).ok_or(Refusal::Nowhere)?;
    Ok(correction_in(nodes, mesh.row(i), point))
}

// The same, as it is told.
pub fn work(
    nodes: &[i32],
    rows: &[u32],
    scratch: &mut [u32],
    n0: usize,
    n: usize,
    t: usize,
    point: Place,
) -> Told
    requires { scratch.old ≡ replicate (length scratch.old) 0 }
    ensures { result ≡ (ask_out (given nodes.now rows.now scratch.old n t) n0 point).told }
{
    match correction_at(nodes, rows, scratch, n0, n, t, point) {
        Ok(correction) => Told {
            number: 0,
            correction,
            culprit: 0,
        },
        Err(refusal) => Told {
            number: refusal.number(),
            correction: Correction { dx: 0, dy: 0 },
            culprit: refusal.culprit(),
        },
    }
}
