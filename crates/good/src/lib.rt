// Good nodes: G1 to G5 of document 01, for all nodes of a lawful mesh as given.
//
// Notes, with nc the room of nodes: at nc + z twice the number of the pair b, c of node z (0 where it does not meet G1 to G4, or is a
// base node), and 1 more where it is good. Below nc and from 2 nc on stand the rows round each node, later the nodes of one remainder.
#![tactic(auto)]

mod rival;
mod sign;

ghost use Rattle.std.specs.Prelude.{◌≡◌, ℕ, ◌+◌, ◌*◌, ◌≤◌, ◌<◌, length, get_or, take, replicate};
ghost use Rattle.meaning.specs.Lawful.{Lawful};
ghost use Rattle.laws.specs.Meshes.{mesh_at};
ghost use Rattle.neighbours.specs.Sized.{Sized, index_at};
ghost use Rattle.neighbours.specs.Ready.{Ready};
ghost use Rattle.good.specs.Rival.{judged};

// For a lawful mesh all of whose rows are in the index: each node's number and whether it is good, at nc and on.
pub fn judge(
    nodes: &[i32],
    rows: &[u32],
    scratch: &mut [u32],
    nc: usize,
    n0: usize,
    n: usize,
    t: usize,
)
    requires lawful { Lawful (mesh_at nodes.now rows.now n t) }
    requires sized { Sized nc (length rows.now) (length scratch.old) }
    requires n_in_bounds { (4 * n ≤ length nodes.now) × (3 * t ≤ length rows.now) }
    requires n_le_nc { (n ≤ nc) × (nc ≤ 32_768) }
    requires scratch_value { take (index_at nc (length rows.now)) scratch.old ≡ replicate (index_at nc (length rows.now)) 0 }
    requires ready { Ready scratch.old nc rows.now t }
    ensures { (z : ℕ) → z < n → get_or scratch.new (nc + z) 0 ≡ judged n0 (mesh_at nodes.now rows.now n t) z }
{
    round::note_rows(rows, scratch, nc, n, t);
    sign::signs(nodes, rows, scratch, nc, n0, n, t);
    rival::tag_lone(scratch, nc, n, t);
}
