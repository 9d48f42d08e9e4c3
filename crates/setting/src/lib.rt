// W5: the correction of one node is set, after all is judged.
#![tactic(auto)]

ghost use Rattle.std.specs.Prelude.{◌≡◌, ◌*◌, ◌≤◌, ◌<◌, pos, length, replicate};
ghost use Rattle.meaning.specs.Tables.{given, outcome, filled, flat_nodes};
ghost use Rattle.meaning.specs.Calls.{set_out};
ghost use Rattle.refusals.specs.Refusals.{verdict, answer_in};
ghost use Rattle.setting.specs.Setting.{late_fault, first_in, settled, nodes_set};

use meaning::{Answer, Correction, Node};
use refusals::{Counts, Refusal};

// 13: node z is a base node; 15: it is not below n.
fn late_fault(n0: usize, n: usize, z: usize) -> Result<(), Refusal>
    ensures { verdict result ≡ late_fault n0 n z }
{
    if z < n0 {
        Err(Refusal::BaseNode)
    } else if z >= n {
        Err(Refusal::NoNode)
    } else {
        Ok(())
    }
}

// 1 to 3 of the tables come before a value out of range, 4 to 7 after.
fn comes_first(judged: Result<(), Refusal>) -> bool
    ensures { result ≡ first_in (verdict judged) }
{
    matches!(
        judged,
        Err(Refusal::Sizes | Refusal::Marks | Refusal::OutOfRange(_))
    )
}

// What stands in the way, after what was judged of the tables. A value out of range names the node given.
fn fault_of(
    judged: Result<(), Refusal>,
    n0: usize,
    n: usize,
    z: usize,
    c: Correction,
) -> Result<(), Refusal>
    ensures { verdict result ≡ settled (verdict judged) n0 n z c }
{
    if comes_first(judged) {
        return judged;
    }
    if plane::beyond(c) {
        return Err(Refusal::OutOfRange(z));
    }
    judged?;
    late_fault(n0, n, z)
}

// Node z stays where it is and carries c; the first n nodes are as they were else, and the rest of the table is zero.
fn set_node(nodes: &mut [i32], n: usize, z: usize, c: Correction)
    requires { (4 * n ≤ length nodes.old) × (z < n) }
    ensures { nodes.new ≡ filled (pos 0) (length nodes.old) (flat_nodes (nodes_set nodes.old n z c)) }
{
    let node = Node {
        place: tables::place_at(nodes, z),
        correction: c,
    };
    tables::put_node(nodes, z, node);
    tables::clear_nodes_from(nodes, n);
}

// Scratch is all zero before; what it holds after does not matter.
fn set(
    nodes: &mut [i32],
    rows: &mut [u32],
    scratch: &mut [u32],
    n0: usize,
    n: usize,
    t: usize,
    z: usize,
    c: Correction,
) -> Result<Counts, Refusal>
    requires { scratch.old ≡ replicate (length scratch.old) 0 }
    ensures { outcome (answer_in result n t) nodes.new rows.new scratch.old ≡ set_out (given nodes.old rows.old scratch.old n t) n0 z c }
{
    let judged = judging::judge(nodes, rows, scratch, b"", 0, n0, n, t);
    fault_of(judged, n0, n, z, c)?;
    set_node(nodes, n, z, c);
    tables::clear_rows_from(rows, t);
    Ok(Counts { n, t })
}

// The same, as an answer.
pub fn work(
    nodes: &mut [i32],
    rows: &mut [u32],
    scratch: &mut [u32],
    n0: usize,
    n: usize,
    t: usize,
    z: usize,
    c: Correction,
) -> Answer
    requires { scratch.old ≡ replicate (length scratch.old) 0 }
    ensures { outcome result nodes.new rows.new scratch.old ≡ set_out (given nodes.old rows.old scratch.old n t) n0 z c }
{
    let done = set(nodes, rows, scratch, n0, n, t, z, c);
    refusals::answer(done, n, t)
}
