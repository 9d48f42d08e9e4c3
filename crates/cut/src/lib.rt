// Cutting: the rows of one triangle, and all rows of a table in place, from the last to the first. A row's midpoint that a lower row
// numbered is looked up among the rows below, which are still whole.
#![tactic(auto)]

ghost use Rattle.std.specs.Prelude.{◌≡◌, ◌+◌, ◌-◌, ◌*◌, ◌≤◌, ◌<◌, length};
ghost use Rattle.lists.specs.Search.{items, iter, lowest};
ghost use Rattle.lists.specs.ItemsLaw.{sum_to};
ghost use Rattle.meaning.specs.Tables.{row_at};
ghost use Rattle.neighbours.specs.Ready.{Ready};
ghost use Rattle.notes.specs.Notes.{Short};
ghost use Rattle.cut.specs.Cutting.{cut_by, children, placed, cut_at, added_at, put_cut, cut_all, splits_of, splits, wholly_at, red_at};

use meaning::{Mids, Quarters, Tri};
use neighbours::Search;
use notes::Note;

// The rows that one triangle yields, and their number.
// Stays: twelve numbers and a count, document 01's form of a table's rows; the memory is fixed.
#[derive(Clone, Copy)]
struct Children {
    pub rows: [u32; 12],
    pub count: usize,
}

// (p, q, r) with midpoints m of q-r, u of p-q, v of r-p: how a triangle is cut is said here alone. First the row that keeps the father's
// place, then the rows that are appended.
fn cut_of(w: Tri, k: Mids, quarters: Quarters) -> Children
    ensures { result ≡ children (cut_by quarters w k) }
{
    let (rows, count) = match (k.m, k.u, k.v, quarters) {
        (0, _, _, _) => ([w.p, w.q, w.r, 0, 0, 0, 0, 0, 0, 0, 0, 0], 1),
        (m, 0, 0, _) => ([m, w.p, w.q, m, w.r, w.p, 0, 0, 0, 0, 0, 0], 2),
        (m, 0, v, _) => ([m, w.p, w.q, v, m, w.r, v, w.p, m, 0, 0, 0], 3),
        (m, u, 0, _) => ([u, m, w.p, m, w.r, w.p, u, w.q, m, 0, 0, 0], 3),
        (m, u, v, Quarters::Bisected) => ([u, m, w.p, v, m, w.r, u, w.q, m, v, w.p, m], 4),
        (m, u, v, Quarters::Red) => ([w.p, u, v, u, w.q, m, v, m, w.r, m, v, u], 4),
    };
    Children { rows, count }
}

// Row k of a cut.
fn child_at(numbers: &[u32; 12], k: usize) -> Tri
    requires { k < 4 }
    ensures { result ≡ row_at numbers.now k }
{
    Tri {
        p: numbers[3 * k],
        q: numbers[3 * k + 1],
        r: numbers[3 * k + 2],
    }
}

// Row 0 of a cut on row i, the others from row `at` on.
fn place(rows: &mut [u32], i: usize, at: usize, c: Children)
    requires le_count { (1 ≤ c.count) × (c.count ≤ 4) }
    requires i_in_bounds { 3 * i + 3 ≤ length rows.old }
    requires count_in_bounds { 3 * (at + c.count - 1) ≤ length rows.old }
    ensures { rows.new ≡ placed c.rows c.count rows.old i at }
{
    tables::put_row(rows, i, child_at(&c.rows, 0));
    for k in 1..c.count {
        tables::put_row(rows, at + k - 1, child_at(&c.rows, k));
    }
}

// The cut of the row after those of the search.
fn cut_at(search: Search, n: u32, quarters: Quarters) -> Children
    requires n_bound { n ≤ 65_536 }
    requires t_in_bounds { 3 * search.t + 3 ≤ length search.rows.now }
    ensures { result ≡ children (cut_at quarters n search.entry.rows.now search.entry.scratch.now search.entry.t) }
{
    let w = tables::row_at(search.rows, search.t);
    let k = notes::mids_of(search, n);
    cut_of(w, k, quarters)
}

// Row i is cut; the rows that it adds end before row `end`. Returns where they begin.
fn cut_row(
    rows: &mut [u32],
    scratch: &[u32],
    nc: usize,
    n: u32,
    i: usize,
    end: usize,
    quarters: Quarters,
) -> usize
    requires n_bound { n ≤ 65_536 }
    requires ready { Ready scratch.now nc rows.old i }
    requires i_bound { i + added_at quarters n rows.old scratch.now i < end }
    requires end_in_bounds { 3 * end ≤ length rows.old }
    ensures begin { result ≡ end - added_at quarters n rows.old scratch.now i }
    ensures table { rows.new ≡ put_cut (cut_at quarters n rows.old scratch.now i) i result rows.old }
{
    let search = Search {
        rows,
        scratch,
        nc,
        t: i,
    };
    let c = cut_at(search, n, quarters);
    let at = end + 1 - c.count;
    place(rows, i, at, c);
    at
}

// All t rows are cut, the last first; t1 is the count of rows after.
pub fn cut_rows(
    rows: &mut [u32],
    scratch: &[u32],
    nc: usize,
    n: u32,
    t: usize,
    t1: usize,
    quarters: Quarters,
)
    requires n_bound { n ≤ 65_536 }
    requires ready { Ready scratch.now nc rows.old t }
    requires t1_value { t1 ≡ t + sum_to (added_at quarters n rows.old scratch.now) t }
    requires t1_in_bounds { 3 * t1 ≤ length rows.old }
    ensures { items (row_at rows.new) 0 t1 ≡ cut_all (items (cut_at quarters n rows.old scratch.now) 0 t) }
{
    let mut end = t1;
    for i in (0..t).rev() {
        end = cut_row(rows, scratch, nc, n, i, end, quarters);
    }
}

// ---- the count of rows after

// How many rows the cut of a triangle adds: one for each of its edges that is split.
fn added(c: Note) -> usize
    requires { Short c }
    ensures { result ≡ splits_of c }
{
    (c.m + c.u + c.v) as usize
}

fn added_at(scratch: &[u32], i: usize) -> usize
    requires { i < length scratch.now }
    ensures { result ≡ splits scratch.now i }
{
    added(notes::note_at(scratch, i))
}

// The count of rows after all t are cut.
pub fn rows_after(scratch: &[u32], t: usize) -> usize
    requires t_in_bounds { t ≤ length scratch.now }
    requires t_bound { t ≤ 262_144 }
    ensures { result ≡ t + sum_to (splits scratch.now) t }
{
    let mut r = t;
    for i in 0..t {
        r += added_at(scratch, i);
    }
    r
}

// ---- red cuts

// All three edges of row i are split.
fn wholly_at(scratch: &[u32], i: usize) -> bool
    requires { i < length scratch.now }
    ensures { result ≡ wholly_at scratch.now i }
{
    added_at(scratch, i) == 3
}

// The lowest row with all three edges split.
fn find_wholly(scratch: &[u32], t: usize) -> Option<usize>
    requires { t ≤ length scratch.now }
    ensures { result ≡ lowest (wholly_at scratch.now) 0 t }
{
    (0..t).find(|&i| wholly_at(scratch, i))
}

// W8: 1 when a red cut is made, else 0.
pub fn made_red(scratch: &[u32], t: usize, quarters: Quarters) -> u32
    requires { t ≤ length scratch.now }
    ensures { result ≡ red_at quarters scratch.now t }
{
    match quarters {
        Quarters::Bisected => 0,
        Quarters::Red => u32::from(find_wholly(scratch, t).is_some()),
    }
}
