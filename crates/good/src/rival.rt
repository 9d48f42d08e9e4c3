// G5: nodes with the same number, looked for among those with the same remainder by t. Only scratch is asked.
//
// Notes, with nc the room of nodes; a node is noted one too large, and 0 says none:
//   nc + z     twice the number of node z, later 1 more where no other node has it
//   2 nc + k   the lowest node whose number leaves the remainder k by t
//   z          the next node with the same remainder
ghost use Rattle.std.specs.Prelude.{◌≡◌, ℕ, ◌+◌, ◌*◌, ◌%◌, ◌≤◌, ◌<◌, length, is_some};
ghost use Rattle.lists.specs.Search.{lowest};
ghost use Rattle.lists.specs.Loops.{down, noted};
ghost use Rattle.good.specs.Rival.{numbers_at, rivals, Linked, tagged, Tags, blanked, link_node};

// The number of node z, 0 for none.
// Stays: it is as scratch holds it, and a walk asks of two of them only whether they are equal.
fn number_at(scratch: &[u32], nc: usize, z: usize) -> u32
    requires { nc + z < length scratch.now }
    ensures number { result ≡ numbers_at scratch.now nc z }
    ensures small { result ≤ 2_147_483_647 }
{
    tables::note_at(scratch, nc + z) / 2
}

// ---- nodes are linked by their remainders

fn blank_rows(scratch: &mut [u32], o: usize, t: usize)
    requires { o + t ≤ length scratch.old }
    ensures { scratch.new ≡ blanked o t scratch.old }
{
    scratch[o..o + t].fill(0);
}

fn bucket(v: u32, t: usize) -> usize
    requires { 0 < t }
    ensures is { result ≡ v % t }
    ensures below { result < t }
{
    v as usize % t
}

fn link_node(scratch: &mut [u32], nc: usize, t: usize, z: usize)
    requires t_in_bounds { 2 * nc + t ≤ length scratch.old }
    requires t_nonzero { 0 < t }
    requires z_lt_nc { z < nc }
    requires nc_bound { nc ≤ 65_536 }
    ensures { scratch.new ≡ link_node nc t z scratch.old }
{
    let v = number_at(scratch, nc, z);
    if v != 0 {
        round::link(scratch, 2 * nc + bucket(v, t), z, z);
    }
}

fn link_nodes(scratch: &mut [u32], nc: usize, n: usize, t: usize)
    requires t_in_bounds { 2 * nc + t ≤ length scratch.old }
    requires t_nonzero { 0 < n → 0 < t }
    requires n_le_nc { n ≤ nc }
    requires nc_bound { nc ≤ 65_536 }
    ensures { scratch.new ≡ down (link_node nc t) n scratch.old }
{
    for z in (0..n).rev() {
        link_node(scratch, nc, t, z);
    }
}

// ---- a walk along the nodes with one remainder

fn rival(scratch: &[u32], nc: usize, z: usize, y: usize) -> bool
    requires z_in_bounds { nc + z < length scratch.now }
    requires y_in_bounds { nc + y < length scratch.now }
    ensures { result ≡ rivals (numbers_at scratch.now nc) z y }
{
    number_at(scratch, nc, y) == number_at(scratch, nc, z) && y != z
}

// Whether another node below n has the number of z.
fn find_rival(scratch: &[u32], nc: usize, n: usize, t: usize, z: usize) -> bool
    requires linked { Linked scratch.now nc n t }
    requires z_lt_n { z < n }
    requires fact { numbers_at scratch.now nc z ≡ 0 → ⊥ }
    requires t_nonzero { 0 < t }
    ensures { result ≡ is_some (lowest (rivals (numbers_at scratch.now nc) z) 0 n) }
{
    let b = bucket(number_at(scratch, nc, z), t);
    let mut next = round::item(tables::note_at(scratch, 2 * nc + b));
    while let Some(y) = next {
        if rival(scratch, nc, z, y) {
            return true;
        }
        next = round::item(tables::note_at(scratch, y));
    }
    false
}

// ---- all nodes

// Twice the number of z, and 1 more where it has one and no other node has it.
fn tag(scratch: &[u32], nc: usize, n: usize, t: usize, z: usize) -> u32
    requires linked { Linked scratch.now nc n t }
    requires z_lt_n { z < n }
    requires t_nonzero { 0 < t }
    ensures { result ≡ tagged (numbers_at scratch.now nc) n z }
{
    let v = number_at(scratch, nc, z);
    if v == 0 {
        0
    } else if find_rival(scratch, nc, n, t, z) {
        2 * v
    } else {
        2 * v + 1
    }
}

fn tags(scratch: &mut [u32], nc: usize, n: usize, t: usize)
    requires linked { Linked scratch.old nc n t }
    requires t_nonzero { 0 < n → 0 < t }
    ensures { scratch.new ≡ noted nc (tagged (numbers_at scratch.old nc) n) n scratch.old }
{
    for z in 0..n {
        let v = tag(scratch, nc, n, t, z);
        tables::put_note(scratch, nc + z, v);
    }
}

pub fn tag_lone(scratch: &mut [u32], nc: usize, n: usize, t: usize)
    requires n_le_nc { (n ≤ nc) × (nc ≤ 65_536) × (2 * nc + t ≤ length scratch.old) }
    requires t_nonzero { 0 < n → 0 < t }
    ensures { Tags scratch.old scratch.new nc n }
{
    blank_rows(scratch, 2 * nc, t);
    link_nodes(scratch, nc, n, t);
    tags(scratch, nc, n, t);
}
