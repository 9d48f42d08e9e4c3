// The calls for programs in other languages. A slice passes as a pointer and a length; counts that a call may change pass by reference and
// are the new ones after. Every call leaves behind `culprit` the node or row that is to blame for a refusal as 3 to 7, and 0 with any other
// number.
#![tactic(auto)]

mod reading;

ghost use Rattle.std.specs.Prelude.{◌≡◌};
ghost use Rattle.meaning.specs.Split.{newest, all_three};
ghost use Rattle.meaning.specs.Tables.{given, outcome, answer};
ghost use Rattle.meaning.specs.Calls.{check_out, refine_out, tinted, red_out, coarsen_out, restore_out, set_out, told_as, heard, ask_out};
ghost use Rattle.meaning.specs.Mesh.{place, correction};

use meaning::{Answer, Correction, Place};

// An answer's number; its counts and its culprit are left behind the references.
fn tell(answer: Answer, n: &mut usize, t: &mut usize, culprit: &mut usize) -> u32
    ensures number { result ≡ answer.number }
    ensures nodes { n.new ≡ answer.n }
    ensures rows { t.new ≡ answer.t }
    ensures blamed { culprit.new ≡ answer.culprit }
{
    *n = answer.n;
    *t = answer.t;
    *culprit = answer.culprit;
    answer.number
}

// The base check's number.
#[unsafe(no_mangle)]
pub extern "C" fn spoutbeetle_check(
    nodes: &mut [i32],
    rows: &mut [u32],
    scratch: &mut [u32],
    n: usize,
    t: usize,
    culprit: &mut usize,
) -> u32
    ensures { outcome (answer result n t 0 culprit.new) nodes.new rows.new scratch.new ≡ check_out (given nodes.old rows.old scratch.old n t) }
{
    let checked = mesh::check(nodes, rows, scratch, n, t);
    *culprit = checked.culprit;
    checked.number
}

// Refine's number.
#[unsafe(no_mangle)]
pub extern "C" fn spoutbeetle_refine(
    nodes: &mut [i32],
    rows: &mut [u32],
    scratch: &mut [u32],
    marks: &[u8],
    n0: usize,
    n: &mut usize,
    t: &mut usize,
    culprit: &mut usize,
) -> u32
    ensures { outcome (answer result n.new t.new 0 culprit.new) nodes.new rows.new scratch.new ≡ refine_out newest (given nodes.old rows.old scratch.old n.old t.old) n0 marks.now }
{
    let refined = mesh::refine(nodes, rows, scratch, marks, n0, *n, *t);
    tell(refined, n, t, culprit)
}

// Quarter's number: refine, with all three edges of a marked triangle split.
#[unsafe(no_mangle)]
pub extern "C" fn spoutbeetle_quarter(
    nodes: &mut [i32],
    rows: &mut [u32],
    scratch: &mut [u32],
    marks: &[u8],
    n0: usize,
    n: &mut usize,
    t: &mut usize,
    culprit: &mut usize,
) -> u32
    ensures { outcome (answer result n.new t.new 0 culprit.new) nodes.new rows.new scratch.new ≡ refine_out all_three (given nodes.old rows.old scratch.old n.old t.old) n0 marks.now }
{
    let quartered = mesh::quarter(nodes, rows, scratch, marks, n0, *n, *t);
    tell(quartered, n, t, culprit)
}

// W8: red refinement's number; behind `red` 1 if it made a red cut, else 0.
#[unsafe(no_mangle)]
pub extern "C" fn spoutbeetle_refine_red(
    nodes: &mut [i32],
    rows: &mut [u32],
    scratch: &mut [u32],
    marks: &[u8],
    n0: usize,
    n: &mut usize,
    t: &mut usize,
    red: &mut u32,
    culprit: &mut usize,
) -> u32
    ensures { tinted (outcome (answer result n.new t.new 0 culprit.new) nodes.new rows.new scratch.new) red.new ≡ red_out (given nodes.old rows.old scratch.old n.old t.old) n0 marks.now }
{
    let reddened = mesh::refine_red(nodes, rows, scratch, marks, n0, *n, *t);
    *red = reddened.red;
    tell(reddened.answer, n, t, culprit)
}

// Coarsen's number.
#[unsafe(no_mangle)]
pub extern "C" fn spoutbeetle_coarsen(
    nodes: &mut [i32],
    rows: &mut [u32],
    scratch: &mut [u32],
    marks: &[u8],
    n0: usize,
    n: &mut usize,
    t: &mut usize,
    culprit: &mut usize,
) -> u32
    ensures { outcome (answer result n.new t.new 0 culprit.new) nodes.new rows.new scratch.new ≡ coarsen_out (given nodes.old rows.old scratch.old n.old t.old) n0 marks.now }
{
    let coarsened = mesh::coarsen(nodes, rows, scratch, marks, n0, *n, *t);
    tell(coarsened, n, t, culprit)
}

// Restore's number; the passes it made are left behind `passes`.
#[unsafe(no_mangle)]
pub extern "C" fn spoutbeetle_restore(
    nodes: &mut [i32],
    rows: &mut [u32],
    scratch: &mut [u32],
    n0: usize,
    n: &mut usize,
    t: &mut usize,
    passes: &mut usize,
    culprit: &mut usize,
) -> u32
    ensures { outcome (answer result n.new t.new passes.new culprit.new) nodes.new rows.new scratch.new ≡ restore_out (given nodes.old rows.old scratch.old n.old t.old) n0 }
{
    let restored = job::restore(nodes, rows, scratch, n0, *n, *t);
    *passes = restored.passes;
    tell(restored, n, t, culprit)
}

// Set_correction's number: the node given is to carry dx and dy.
#[unsafe(no_mangle)]
pub extern "C" fn spoutbeetle_set_correction(
    nodes: &mut [i32],
    rows: &mut [u32],
    scratch: &mut [u32],
    n0: usize,
    n: usize,
    t: usize,
    node: usize,
    dx: i32,
    dy: i32,
    culprit: &mut usize,
) -> u32
    ensures { outcome (answer result n t 0 culprit.new) nodes.new rows.new scratch.new ≡ set_out (given nodes.old rows.old scratch.old n t) n0 node (correction dx dy) }
{
    let set = mesh::set_correction(nodes, rows, scratch, n0, n, t, node, Correction { dx, dy });
    *culprit = set.culprit;
    set.number
}

// Correction_at's number: behind dx and dy the correction at the point x, y, or 0 and 0 with a refusal.
#[unsafe(no_mangle)]
pub extern "C" fn spoutbeetle_correction_at(
    nodes: &[i32],
    rows: &[u32],
    scratch: &mut [u32],
    n0: usize,
    n: usize,
    t: usize,
    x: i32,
    y: i32,
    dx: &mut i32,
    dy: &mut i32,
    culprit: &mut usize,
) -> u32
    ensures { heard (told_as result dx.new dy.new culprit.new) nodes.now rows.now scratch.new ≡ ask_out (given nodes.now rows.now scratch.old n t) n0 (place x y) }
{
    let told = mesh::correction_at(nodes, rows, scratch, n0, n, t, Place { x, y });
    let told_dx = told.correction.dx;
    let told_dy = told.correction.dy;
    *dx = told_dx;
    *dy = told_dy;
    *culprit = told.culprit;
    told.number
}
