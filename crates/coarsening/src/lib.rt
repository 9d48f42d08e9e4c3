// The work of coarsen, after all is judged.
#![tactic(auto)]

ghost use Rattle.std.specs.Prelude.{◌≡◌, length, replicate};
ghost use Rattle.meaning.specs.Tables.{given, outcome};
ghost use Rattle.meaning.specs.Calls.{coarsen_out};
ghost use Rattle.refusals.specs.Refusals.{answer_in};

use meaning::Answer;
use refusals::{Counts, Refusal};

// Scratch is all zero before; what it holds after does not matter.
fn coarsen(
    nodes: &mut [i32],
    rows: &mut [u32],
    scratch: &mut [u32],
    marks: &[u8],
    n0: usize,
    n: usize,
    t: usize,
) -> Result<Counts, Refusal>
    requires { scratch.old ≡ replicate (length scratch.old) 0 }
    ensures { outcome (answer_in result n t) nodes.new rows.new scratch.old ≡ coarsen_out (given nodes.old rows.old scratch.old n t) n0 marks.now }
{
    judging::judge(nodes, rows, scratch, marks, n, n0, n, t)?;
    let nc = nodes.len() / 4;
    let after = gather::take_out(nodes, rows, scratch, marks, nc, n0, n, t);
    Ok(after)
}

// The same, as an answer.
pub fn work(
    nodes: &mut [i32],
    rows: &mut [u32],
    scratch: &mut [u32],
    marks: &[u8],
    n0: usize,
    n: usize,
    t: usize,
) -> Answer
    requires { scratch.old ≡ replicate (length scratch.old) 0 }
    ensures { outcome result nodes.new rows.new scratch.old ≡ coarsen_out (given nodes.old rows.old scratch.old n t) n0 marks.now }
{
    let done = coarsen(nodes, rows, scratch, marks, n0, n, t);
    refusals::answer(done, n, t)
}
