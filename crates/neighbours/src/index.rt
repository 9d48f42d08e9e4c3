// The index of the neighbour search, in scratch from `index_at` on. Slot k is number k of the triangle table: it names a node, and it is
// in row k / 3. A slot's number is k + 1, and 0 is none. With o for `index_at` and nc for the room of nodes:
//   o + v           the number of the highest slot that names node v
//   o + nc + v      how many slots name it
//   o + 2 nc + k    the number of the next higher slot that names the node of slot k, and for the highest of the lowest; 0 where slot k
//                   is not in
ghost use Rattle.std.specs.Prelude.{◌≡◌, ◌+◌, ◌-◌, ◌*◌, ◌≤◌, ◌<◌, length, take, get_or};
ghost use Rattle.lists.specs.Search.{lowest};
ghost use Rattle.tables.specs.Arrow.{arrow_at};
ghost use Rattle.neighbours.specs.Sized.{Sized, index_at, slots_of};
ghost use Rattle.neighbours.specs.Slots.{before, put_after, join_slot};
ghost use Rattle.neighbours.specs.Ready.{Ready, named_at};
ghost use Rattle.neighbours.specs.Walk.{rarer, EndOf};
ghost use Rattle.neighbours.specs.Join.{InRange, Exact, is_free};

use crate::Search;

// Where it begins.
fn index_at(rows: &[u32], nc: usize) -> usize
    requires { nc ≤ 65_536 }
    ensures { result ≡ index_at nc (length rows.now) }
{
    2 * nc + rows.len() / 3
}

// ---- a search

impl Search<'_> {
    // Of two nodes the one that fewer slots name.
    pub(crate) fn rarer(self, x: u32, y: u32) -> u32
        requires x_lt_nc { x < self.nc }
        requires y_lt_nc { y < self.nc }
        ensures { result ≡ rarer self.entry.scratch.now self.entry.nc self.entry.rows.now x y }
    {
        let many = index_at(self.rows, self.nc) + self.nc;
        if self.scratch[many + x as usize] <= self.scratch[many + y as usize] {
            return x;
        }
        y
    }

    // Along the slots that name v, one end of x→y: as many turns as there are, at most. They rise, so that the first hit is the lowest row.
    pub(crate) fn walk(self, x: u32, y: u32, v: u32) -> Option<usize>
        requires v_lt_nc { v < self.nc }
        requires end_of { EndOf x y v }
        ensures { result ≡ lowest (arrow_at self.entry.rows.now x y) 0 self.entry.t }
    {
        let o = index_at(self.rows, self.nc);
        let mut m = tables::note_at(self.scratch, o + v as usize);
        let many = tables::note_at(self.scratch, o + self.nc + v as usize);
        for _turn in 0..many {
            let k = after(self.scratch, o + 2 * self.nc, m);
            if k >= 3 * self.t {
                return None;
            }
            if tables::edge_at(self.rows, x, y, k / 3) {
                return Some(k / 3);
            }
            m = k as u32 + 1;
        }
        None
    }
}

// The slot of number m.
fn slot(m: u32) -> usize
    requires { m ≡ 0 → ⊥ }
    ensures { result ≡ m - 1 }
{
    m as usize - 1
}

// The slot that comes next after the one of number m. The next ones stand at z and on.
fn after(scratch: &[u32], z: usize, m: u32) -> usize
    requires fact { m ≡ 0 → ⊥ }
    requires m_in_bounds { z + (m - 1) < length scratch.now }
    requires fact_2 { get_or scratch.now (z + (m - 1)) 0 ≡ 0 → ⊥ }
    ensures { result ≡ get_or scratch.now (z + (m - 1)) 0 - 1 }
{
    slot(tables::note_at(scratch, z + slot(m)))
}

// ---- rows join

// The slot after which slot k comes, where m is the number of the highest: that one, or k itself.
fn before(m: u32, k: usize) -> usize
    requires { m ≤ k }
    ensures is { result ≡ before m k }
    ensures within { result ≤ k }
{
    if m == 0 {
        return k;
    }
    slot(m)
}

// Slot k comes after slot a, and before the one that came after that. The next ones stand at z and on.
fn put_after(scratch: &mut [u32], z: usize, a: usize, k: usize)
    requires { (a ≤ k) × (k < 262_144) × (z + k < length scratch.old) }
    ensures { scratch.new ≡ put_after z a k scratch.old }
{
    let next = tables::note_at(scratch, z + a);
    tables::put_note(scratch, z + k, next);
    tables::put_note(scratch, z + a, k as u32 + 1);
}

// Slot k, which names v, becomes the highest that does. The index begins at o.
fn put_slot(scratch: &mut [u32], o: usize, nc: usize, k: usize, v: u32)
    requires v_lt_nc { (v < nc) × (k < 262_144) × (o + 2 * nc + k < length scratch.old) }
    requires v_bound { get_or scratch.old (o + v) 0 ≤ k }
    requires v_bound_2 { get_or scratch.old (o + nc + v) 0 ≤ k }
    ensures { scratch.new ≡ join_slot nc o k v scratch.old }
{
    let highest = before(tables::note_at(scratch, o + v as usize), k);
    let many = tables::note_at(scratch, o + nc + v as usize);
    put_after(scratch, o + 2 * nc, highest, k);
    tables::put_note(scratch, o + v as usize, k as u32 + 1);
    tables::put_note(scratch, o + nc + v as usize, many + 1);
}

// Slot k joins the index, which holds the slots below it and no others.
fn join_slot(rows: &[u32], scratch: &mut [u32], nc: usize, k: usize)
    requires exact_2 { Exact scratch.old nc rows.now k }
    requires k_bound { k < slots_of (length rows.now) }
    requires k_bound_2 { named_at rows.now k < nc }
    ensures notes { take (index_at nc (length rows.now)) scratch.new ≡ take (index_at nc (length rows.now)) scratch.old }
    ensures exact { Exact scratch.new nc rows.now (k + 1) }
{
    let o = index_at(rows, nc);
    put_slot(scratch, o, nc, k, rows[k]);
}

// The slots from `from` up to n join the index, which holds those below and no others.
pub fn join_slots(rows: &[u32], scratch: &mut [u32], nc: usize, from: usize, n: usize)
    requires exact_2 { Exact scratch.old nc rows.now from }
    requires from_le_n { from ≤ n }
    requires n_bound { n ≤ slots_of (length rows.now) }
    requires in_range { InRange nc rows.now n }
    ensures notes { take (index_at nc (length rows.now)) scratch.new ≡ take (index_at nc (length rows.now)) scratch.old }
    ensures exact { Exact scratch.new nc rows.now n }
{
    for k in from..n {
        join_slot(rows, scratch, nc, k);
    }
}

// No slot is in the index after.
pub fn clear_index(rows: &[u32], scratch: &mut [u32], nc: usize)
    requires { Sized nc (length rows.now) (length scratch.old) }
    ensures notes { take (index_at nc (length rows.now)) scratch.new ≡ take (index_at nc (length rows.now)) scratch.old }
    ensures exact { Exact scratch.new nc rows.now 0 }
{
    let o = index_at(rows, nc);
    tables::clear(&mut scratch[o..]);
}

// Slot k is not in the index.
pub fn is_free(rows: &[u32], scratch: &[u32], nc: usize, k: usize) -> bool
    requires sized { Sized nc (length rows.now) (length scratch.now) }
    requires k_bound { k < slots_of (length rows.now) }
    ensures { result ≡ is_free scratch.now nc rows.now k }
{
    tables::note_at(scratch, index_at(rows, nc) + 2 * nc + k) == 0
}
