// Restore: full passes while a node goes. It rests on what coarsen promises.
#![tactic(auto)]

ghost use Rattle.std.specs.Prelude.{◌≡◌};
ghost use Rattle.meaning.specs.Tables.{given, outcome};
ghost use Rattle.meaning.specs.Calls.{coarsen_out, restore_out};
ghost use Rattle.job.specs.Pass.{pass_out};

use meaning::Answer;
use refusals::Counts;

// A full pass: coarsen with all nodes marked. With more than 1,024 nodes it is refused whatever is marked.
fn full_pass(
    nodes: &mut [i32],
    rows: &mut [u32],
    scratch: &mut [u32],
    n0: usize,
    n: usize,
    t: usize,
) -> Answer
    ensures { outcome result nodes.new rows.new scratch.new ≡ pass_out (given nodes.old rows.old scratch.old n t) n0 }
{
    let ones = [1; 1024];
    let marked = n.min(1024);
    mesh::coarsen(nodes, rows, scratch, &ones[..marked], n0, n, t)
}

// Restore makes passes while a good node exists. The last look, which finds none, is not counted.
pub fn restore(
    nodes: &mut [i32],
    rows: &mut [u32],
    scratch: &mut [u32],
    n0: usize,
    n: usize,
    t: usize,
) -> Answer
    ensures { outcome result nodes.new rows.new scratch.new ≡ restore_out (given nodes.old rows.old scratch.old n t) n0 }
{
    let mut counts = Counts { n, t };
    let mut passes = 0;
    loop {
        let pass = full_pass(nodes, rows, scratch, n0, counts.n, counts.t);
        if pass.number != 0 {
            return Answer { n, t, ..pass };
        }
        if pass.n == counts.n {
            return Answer { passes, ..pass };
        }
        counts = Counts {
            n: pass.n,
            t: pass.t,
        };
        passes += 1;
    }
}
