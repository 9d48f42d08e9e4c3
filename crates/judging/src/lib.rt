// What every call judges first, before a node or a row is written: 1, then 2, then 3 to 7.
#![tactic(auto)]

ghost use Rattle.std.specs.Prelude.{◌≡◌, length, replicate, IfOk};
ghost use Rattle.meaning.specs.Tables.{given};
ghost use Rattle.meaning.specs.Calls.{marks_fit};
ghost use Rattle.refusals.specs.Refusals.{verdict};
ghost use Rattle.judging.specs.Sizes.{fitting};
ghost use Rattle.judging.specs.Judge.{early, Admitted};

use refusals::Refusal;
use tables::Mesh;

// Not 1, for tables and scratch of these lengths.
fn sizes_fit(nl: usize, tl: usize, sl: usize, n0: usize, n: usize, t: usize) -> bool
    ensures { result ≡ fitting nl tl sl n0 n t }
{
    nl % 4 == 0
        && tl % 3 == 0
        && nl / 4 <= 1024
        && tl / 3 <= 2048
        && n0 <= n
        && n <= nl / 4
        && t <= tl / 3
        && nl / 4 + tl / 3 <= sl / 4
}

// Not 2: k bytes, one for each row (refine) or each node (coarsen), and none above 1.
fn marks_fit(marks: &[u8], k: usize) -> bool
    ensures { result ≡ marks_fit k marks.now }
{
    marks.len() == k && marks.iter().all(|&m| m <= 1)
}

// The lowest of 1 to 7 that applies, and where. k marks are wanted. Scratch is all zero before.
pub fn judge(
    nodes: &[i32],
    rows: &[u32],
    scratch: &mut [u32],
    marks: &[u8],
    k: usize,
    n0: usize,
    n: usize,
    t: usize,
) -> Result<(), Refusal>
    requires { scratch.old ≡ replicate (length scratch.old) 0 }
    ensures verdict { verdict result ≡ early (given nodes.now rows.now scratch.old n t) n0 k marks.now }
    ensures admitted { IfOk result (λ _. Admitted nodes.now rows.now scratch.new marks.now k n t) }
{
    if !sizes_fit(nodes.len(), rows.len(), scratch.len(), n0, n, t) {
        return Err(Refusal::Sizes);
    }
    if !marks_fit(marks, k) {
        return Err(Refusal::Marks);
    }
    let mesh = Mesh { nodes, rows, n, t };
    lawful::lowest_fault(mesh, scratch)
}
