// The calls on a mesh in tables that the caller lends.
#![tactic(auto)]

ghost use Rattle.std.specs.Prelude.{◌≡◌};
ghost use Rattle.meaning.specs.Tables.{given, outcome};
ghost use Rattle.meaning.specs.Split.{way_of, newest, all_three};
ghost use Rattle.meaning.specs.declared.Quarters.TheVariants.{Bisected};
ghost use Rattle.meaning.specs.Calls.{check_out, refine_out, tinted, refine_by_out, red_out, coarsen_out, set_out, heard, ask_out};

use meaning::{Answer, Correction, Manner, Place, Quarters, Tinted, Told};
use refusals::Counts;

// The base check. It writes no table but scratch, which is all zero after.
pub fn check(nodes: &mut [i32], rows: &mut [u32], scratch: &mut [u32], n: usize, t: usize) -> Answer
    ensures { outcome result nodes.new rows.new scratch.new ≡ check_out (given nodes.old rows.old scratch.old n t) }
{
    tables::clear(scratch);
    let judged = checking::work(nodes, rows, scratch, n, t);
    tables::clear(scratch);
    refusals::answer(judged.and(Ok(Counts { n, t })), n, t)
}

// Refine, in any manner, and by any way that a triangle with all three edges split becomes four: the marked triangles are split, and as many
// more as keep the mesh whole. A refusal changes no node, row or mark.
pub fn refine_by(
    nodes: &mut [i32],
    rows: &mut [u32],
    scratch: &mut [u32],
    marks: &[u8],
    n0: usize,
    n: usize,
    t: usize,
    manner: Manner,
    quarters: Quarters,
) -> Tinted
    ensures { tinted (outcome result.answer nodes.new rows.new scratch.new) result.red ≡ refine_by_out manner quarters (given nodes.old rows.old scratch.old n t) n0 marks.now }
{
    tables::clear(scratch);
    let a = refining::work(nodes, rows, scratch, marks, n0, n, t, manner, quarters);
    tables::clear(scratch);
    a
}

// Refine, in any manner, by bisection alone: without the field, which is 0.
fn bisect_by(
    nodes: &mut [i32],
    rows: &mut [u32],
    scratch: &mut [u32],
    marks: &[u8],
    n0: usize,
    n: usize,
    t: usize,
    manner: Manner,
) -> Answer
    ensures { outcome result nodes.new rows.new scratch.new ≡ refine_out (way_of manner Bisected) (given nodes.old rows.old scratch.old n t) n0 marks.now }
{
    let quarters = Quarters::Bisected;
    refine_by(nodes, rows, scratch, marks, n0, n, t, manner, quarters).answer
}

// Stays: this call, quarter and refine_red are those of 01, W1 and W8, which README names.
// Refine by 01: a marked triangle is cut at its refinement edge, and at others if the mesh is to stay whole.
pub fn refine(
    nodes: &mut [i32],
    rows: &mut [u32],
    scratch: &mut [u32],
    marks: &[u8],
    n0: usize,
    n: usize,
    t: usize,
) -> Answer
    ensures { outcome result nodes.new rows.new scratch.new ≡ refine_out newest (given nodes.old rows.old scratch.old n t) n0 marks.now }
{
    bisect_by(nodes, rows, scratch, marks, n0, n, t, Manner::Newest)
}

// Refine by W1: a marked triangle is cut in four, at all three edges.
pub fn quarter(
    nodes: &mut [i32],
    rows: &mut [u32],
    scratch: &mut [u32],
    marks: &[u8],
    n0: usize,
    n: usize,
    t: usize,
) -> Answer
    ensures { outcome result nodes.new rows.new scratch.new ≡ refine_out all_three (given nodes.old rows.old scratch.old n t) n0 marks.now }
{
    bisect_by(nodes, rows, scratch, marks, n0, n, t, Manner::AllThree)
}

// Refine by W8: a marked triangle is cut in four, at all three edges, into triangles shaped like itself; the answer says whether a red cut was
// made. Demand 3 does not cover this call: after a red cut, restore need not give back the base.
pub fn refine_red(
    nodes: &mut [i32],
    rows: &mut [u32],
    scratch: &mut [u32],
    marks: &[u8],
    n0: usize,
    n: usize,
    t: usize,
) -> Tinted
    ensures { tinted (outcome result.answer nodes.new rows.new scratch.new) result.red ≡ red_out (given nodes.old rows.old scratch.old n t) n0 marks.now }
{
    refine_by(
        nodes,
        rows,
        scratch,
        marks,
        n0,
        n,
        t,
        Manner::AllThree,
        Quarters::Red,
    )
}

// Coarsen: the nodes that are marked and good go. A refusal changes no node, row or mark.
pub fn coarsen(
    nodes: &mut [i32],
    rows: &mut [u32],
    scratch: &mut [u32],
    marks: &[u8],
    n0: usize,
    n: usize,
    t: usize,
) -> Answer
    ensures { outcome result nodes.new rows.new scratch.new ≡ coarsen_out (given nodes.old rows.old scratch.old n t) n0 marks.now }
{
    tables::clear(scratch);
    let a = coarsening::work(nodes, rows, scratch, marks, n0, n, t);
    tables::clear(scratch);
    a
}

// W5: node z, which must be an added one, is to carry c. A refusal changes no node and no row.
pub fn set_correction(
    nodes: &mut [i32],
    rows: &mut [u32],
    scratch: &mut [u32],
    n0: usize,
    n: usize,
    t: usize,
    z: usize,
    c: Correction,
) -> Answer
    ensures { outcome result nodes.new rows.new scratch.new ≡ set_out (given nodes.old rows.old scratch.old n t) n0 z c }
{
    tables::clear(scratch);
    let a = setting::work(nodes, rows, scratch, n0, n, t, z, c);
    tables::clear(scratch);
    a
}

// W6: the correction at the point. It writes no table but scratch, which is all zero after.
pub fn correction_at(
    nodes: &[i32],
    rows: &[u32],
    scratch: &mut [u32],
    n0: usize,
    n: usize,
    t: usize,
    point: Place,
) -> Told
    ensures { heard result nodes.now rows.now scratch.new ≡ ask_out (given nodes.now rows.now scratch.old n t) n0 point }
{
    tables::clear(scratch);
    let a = asking::work(nodes, rows, scratch, n0, n, t, point);
    tables::clear(scratch);
    a
}
