// The steps of refine, in any manner and however a triangle becomes four: all is judged before a node or a row is written.
#![tactic(auto)]

ghost use Rattle.std.specs.Prelude.{◌≡◌, length, replicate, IfOk};
ghost use Rattle.meaning.specs.Lawful.{fault};
ghost use Rattle.meaning.specs.Tables.{given, outcome};
ghost use Rattle.meaning.specs.Calls.{tinted, refine_by_out};
ghost use Rattle.refusals.specs.Refusals.{verdict};
ghost use Rattle.judging.specs.Judge.{Admitted};
ghost use Rattle.refining.specs.Refine.{weighed, Weighty, late_number, Planned, Carry, both_tables, carried, said_in, left_in};

use meaning::{Manner, Quarters, Tinted};
use refusals::{Counts, Refusal};
use tables::Mesh;

// What refine is to do: the counts after, and 1 when it makes a red cut, else 0.
#[derive(Clone, Copy)]
struct Plan {
    after: Counts,
    red: u32,
}

// ---- 8 and 9, for a mesh whose notes are made: k new nodes

fn weigh(mesh: Mesh, scratch: &[u32], k: usize, quarters: Quarters) -> Result<Plan, Refusal>
    requires { Weighty mesh.nodes.now mesh.rows.now scratch.now mesh.n mesh.t k }
    ensures { let e = mesh.entry in result ≡ weighed quarters e.nodes.now e.rows.now scratch.now e.n e.t k }
{
    if nodes::find_odd(mesh.nodes, mesh.rows, scratch, mesh.t).is_some() {
        return Err(Refusal::Odd);
    }
    let after = Counts {
        n: mesh.n + k,
        t: cut::rows_after(scratch, mesh.t),
    };
    if mesh.nodes.len() / 4 < after.n || mesh.rows.len() / 3 < after.t {
        return Err(Refusal::Full);
    }
    let red = cut::made_red(scratch, mesh.t, quarters);
    Ok(Plan { after, red })
}

// The rows that are split and their notes; then 8 and 9. For a lawful mesh.
fn lay_out(
    nodes: &[i32],
    rows: &[u32],
    scratch: &mut [u32],
    marks: &[u8],
    n: usize,
    t: usize,
    manner: Manner,
    quarters: Quarters,
) -> Result<Plan, Refusal>
    requires { Admitted nodes.now rows.now scratch.old marks.now t n t }
    ensures verdict { verdict result ≡ fault (late_number manner quarters nodes.now rows.now marks.now n t) 0 }
    ensures plan { IfOk result (λ p. Planned manner quarters nodes.now rows.now scratch.new marks.now n t p.after.n p.after.t p.red) }
{
    close::close(rows, scratch, nodes.len() / 4, t, marks, manner);
    let k = number::number(rows, scratch, nodes.len() / 4, t);
    weigh(Mesh { nodes, rows, n, t }, scratch, k as usize, quarters)
}

// ---- the work

// The new nodes get their places and corrections, the rows are cut, and what lies past both counts is zero.
fn carry_out(
    nodes: &mut [i32],
    rows: &mut [u32],
    scratch: &[u32],
    n: usize,
    t: usize,
    after: Counts,
    quarters: Quarters,
)
    requires { Carry quarters nodes.old rows.old scratch.now n t after.n after.t }
    ensures { both_tables nodes.new rows.new ≡ carried quarters nodes.old rows.old scratch.now n t after.n }
{
    nodes::place_nodes(nodes, rows, scratch, n as u32, t);
    cut::cut_rows(
        rows,
        scratch,
        nodes.len() / 4,
        n as u32,
        t,
        after.t,
        quarters,
    );
    tables::clear_nodes_from(nodes, after.n);
    tables::clear_rows_from(rows, after.t);
}

// Scratch is all zero before; what it holds after does not matter.
fn refined(
    nodes: &mut [i32],
    rows: &mut [u32],
    scratch: &mut [u32],
    marks: &[u8],
    n0: usize,
    n: usize,
    t: usize,
    manner: Manner,
    quarters: Quarters,
) -> Result<Plan, Refusal>
    requires { scratch.old ≡ replicate (length scratch.old) 0 }
    ensures { left_in result nodes.new rows.new scratch.old n t ≡ refine_by_out manner quarters (given nodes.old rows.old scratch.old n t) n0 marks.now }
{
    judging::judge(nodes, rows, scratch, marks, t, n0, n, t)?;
    let plan = lay_out(nodes, rows, scratch, marks, n, t, manner, quarters)?;
    carry_out(nodes, rows, scratch, n, t, plan.after, quarters);
    Ok(plan)
}

// What a call says that was given n nodes and t rows. A refusal cuts nothing.
fn said(done: Result<Plan, Refusal>, n: usize, t: usize) -> Tinted
    ensures { result ≡ said_in done n t }
{
    match done {
        Ok(plan) => Tinted {
            answer: refusals::answer(Ok(plan.after), n, t),
            red: plan.red,
        },
        Err(refusal) => Tinted {
            answer: refusals::answer(Err(refusal), n, t),
            red: 0,
        },
    }
}

// The same, as an answer.
pub fn work(
    nodes: &mut [i32],
    rows: &mut [u32],
    scratch: &mut [u32],
    marks: &[u8],
    n0: usize,
    n: usize,
    t: usize,
    manner: Manner,
    quarters: Quarters,
) -> Tinted
    requires { scratch.old ≡ replicate (length scratch.old) 0 }
    ensures { tinted (outcome result.answer nodes.new rows.new scratch.old) result.red ≡ refine_by_out manner quarters (given nodes.old rows.old scratch.old n t) n0 marks.now }
{
    let done = refined(nodes, rows, scratch, marks, n0, n, t, manner, quarters);
    said(done, n, t)
}
