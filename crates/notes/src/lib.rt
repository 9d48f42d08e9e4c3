// The notes of refine: one number of scratch a row says which of its edges are split, which of these are first met there, and how many
// new nodes lower rows have. From these the number of the new node on any edge is read.
#![tactic(auto)]

ghost use Rattle.std.specs.Prelude.{◌≡◌, ◌+◌, ◌*◌, ◌≤◌, ◌<◌, length};
ghost use Rattle.neighbours.specs.Ready.{Ready};
ghost use Rattle.notes.specs.Notes.{Tight, Short, packed, unpacked, note_at, own_m, own_u, own_v, on_arrow, own_on, split_on, across, mid_for, mids_at};

use meaning::{Mids, Tri};
use neighbours::Search;

// 1 where q-r, p-q, r-p is split, and 1 where it is split and first met in this row; before: how many new nodes are first met in lower
// rows.
// Stays: numbers of 0 and 1 and no bools, since `packed` and `own_v` add them up.
#[derive(Clone, Copy, Default)]
pub struct Note {
    pub m: u32,
    pub u: u32,
    pub v: u32,
    pub fm: u32,
    pub fu: u32,
    pub fv: u32,
    pub before: u32,
}

impl Note {
    pub fn pack(self) -> u32
        requires { Tight self }
        ensures { result ≡ packed self }
    {
        let split = self.m + 2 * self.u + 4 * self.v;
        let first = self.fm + 2 * self.fu + 4 * self.fv;
        split + 8 * first + 64 * self.before
    }

    // ---- the numbers of the nodes that the row numbers itself, from n on

    pub fn own_m(self, n: u32) -> u32
        requires n_bound { n ≤ 65_536 }
        requires short { Short self }
        ensures { result ≡ own_m n self }
    {
        n + self.before
    }

    pub fn own_u(self, n: u32) -> u32
        requires n_bound { n ≤ 65_536 }
        requires short { Short self }
        ensures { result ≡ own_u n self }
    {
        self.own_m(n) + self.fm
    }

    pub fn own_v(self, n: u32) -> u32
        requires n_bound { n ≤ 65_536 }
        requires short { Short self }
        ensures { result ≡ own_v n self }
    {
        self.own_u(n) + self.fu
    }

    // The node that row w with this note numbered on its own arrow x→y.
    fn own_on(self, n: u32, w: Tri, x: u32, y: u32) -> u32
        requires n_bound { n ≤ 65_536 }
        requires short { Short self }
        ensures { result ≡ own_on n w self x y }
    {
        on_arrow(w, x, y, self.own_m(n), self.own_u(n), self.own_v(n))
    }

    // 1 where this note of row w says that its arrow x→y is split.
    pub fn split_on(self, w: Tri, x: u32, y: u32) -> u32
        ensures { result ≡ split_on w self x y }
    {
        on_arrow(w, x, y, self.m, self.u, self.v)
    }
}

// Of three numbers, for q-r, p-q and r-p of row w, the one for its arrow x→y.
fn on_arrow(w: Tri, x: u32, y: u32, a: u32, b: u32, c: u32) -> u32
    ensures { result ≡ on_arrow w x y a b c }
{
    if w.q == x && w.r == y {
        a
    } else if w.p == x && w.q == y {
        b
    } else {
        c
    }
}

fn unpack(c: u32) -> Note
    ensures is { result ≡ unpacked c }
    ensures short { Short result }
{
    Note {
        m: c % 2,
        u: c / 2 % 2,
        v: c / 4 % 2,
        fm: c / 8 % 2,
        fu: c / 16 % 2,
        fv: c / 32 % 2,
        before: c / 64,
    }
}

// The note of row i.
pub fn note_at(scratch: &[u32], i: usize) -> Note
    requires { i < length scratch.now }
    ensures is { result ≡ note_at scratch.now i }
    ensures short { Short result }
{
    unpack(tables::note_at(scratch, i))
}

// ---- the numbers of all new nodes of a row, which comes after those of the search

// The node on the edge x-y that a lower row numbered; 0 if there is no such row.
fn across(search: Search, n: u32, x: u32, y: u32) -> u32
    requires n_bound { n ≤ 65_536 }
    requires t_in_bounds { 3 * search.t + 3 ≤ length search.rows.now }
    ensures { result ≡ across n search.entry.rows.now search.entry.scratch.now search.entry.t x y }
{
    let Some(j) = search.find_edge(y, x) else {
        return 0;
    };
    let w = tables::row_at(search.rows, j);
    let c = note_at(search.scratch, j);
    c.own_on(n, w, y, x)
}

fn mid_for(search: Search, n: u32, on: u32, first: u32, own: u32, x: u32, y: u32) -> u32
    requires n_bound { n ≤ 65_536 }
    requires t_in_bounds { 3 * search.t + 3 ≤ length search.rows.now }
    ensures { result ≡ mid_for n search.entry.rows.now search.entry.scratch.now search.entry.t on first own x y }
{
    if on == 0 {
        0
    } else if first == 1 {
        own
    } else {
        across(search, n, x, y)
    }
}

// The numbers of the new nodes of the row after those of the search.
pub fn mids_of(search: Search, n: u32) -> Mids
    requires n_bound { n ≤ 65_536 }
    requires t_in_bounds { 3 * search.t + 3 ≤ length search.rows.now }
    ensures { result ≡ mids_at n search.entry.rows.now search.entry.scratch.now search.entry.t }
{
    let w = tables::row_at(search.rows, search.t);
    let c = note_at(search.scratch, search.t);
    let m = mid_for(search, n, c.m, c.fm, c.own_m(n), w.q, w.r);
    let u = mid_for(search, n, c.u, c.fu, c.own_u(n), w.p, w.q);
    let v = mid_for(search, n, c.v, c.fv, c.own_v(n), w.r, w.p);
    Mids { m, u, v }
}
