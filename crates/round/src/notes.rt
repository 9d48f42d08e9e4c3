// What is noted of the rows, row by row.
ghost use Rattle.std.specs.Prelude.{◌≡◌, ℕ, ◌+◌, ◌*◌, ◌≤◌, ◌<◌, length, set};
ghost use Rattle.lists.specs.Search.{iter};
ghost use Rattle.lists.specs.Loops.{down};
ghost use Rattle.laws.specs.Meshes.{Fair};
ghost use Rattle.round.specs.Round.{older_step, link_step};

use crate::link;

fn put_at(scratch: &mut [u32], o: usize, k: u32, v: u32)
    requires { o + k < length scratch.old }
    ensures { scratch.new ≡ set scratch.old (o + k) v }
{
    tables::put_note(scratch, o + k as usize, v);
}

fn mark_older(rows: &[u32], scratch: &mut [u32], nc: usize, n: usize, t: usize, i: usize)
    requires fair { Fair rows.now n t }
    requires i_lt_t { i < t }
    requires n_in_bounds { nc + n ≤ length scratch.old }
    ensures { scratch.new ≡ older_step rows.now nc i scratch.old }
{
    let w = tables::row_at(rows, i);
    put_at(scratch, nc, w.q, 1);
    put_at(scratch, nc, w.r, 1);
}

pub fn mark_olders(rows: &[u32], scratch: &mut [u32], nc: usize, n: usize, t: usize)
    requires fair { Fair rows.now n t }
    requires n_in_bounds { nc + n ≤ length scratch.old }
    ensures { scratch.new ≡ iter (older_step rows.now nc) 0 t scratch.old }
{
    for i in 0..t {
        mark_older(rows, scratch, nc, n, t, i);
    }
}

fn link_row(rows: &[u32], scratch: &mut [u32], nc: usize, n: usize, t: usize, i: usize)
    requires fair { Fair rows.now n t }
    requires i_lt_t { i < t }
    requires n_le_nc { n ≤ nc }
    requires t_in_bounds { 2 * nc + t ≤ length scratch.old }
    ensures { scratch.new ≡ link_step rows.now nc i scratch.old }
{
    let w = tables::row_at(rows, i);
    link(scratch, w.p as usize, 2 * nc + i, i);
}

pub fn link_rows(rows: &[u32], scratch: &mut [u32], nc: usize, n: usize, t: usize)
    requires fair { Fair rows.now n t }
    requires n_le_nc { n ≤ nc }
    requires t_in_bounds { 2 * nc + t ≤ length scratch.old }
    ensures { scratch.new ≡ down (link_step rows.now nc) t scratch.old }
{
    for i in (0..t).rev() {
        link_row(rows, scratch, nc, n, t, i);
    }
}
