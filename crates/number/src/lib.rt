// Which edges of each row are split, which of these are first met there, and how many new nodes lower rows have: the note of each row,
// made row by row upward. Before, each edge that is split has its bit in one of its rows, and bit 0 says that a row is split; after, in
// both.
#![tactic(auto)]

ghost use Rattle.std.specs.Prelude.{◌≡◌, ◌+◌, ◌*◌, ◌≤◌, ◌<◌, length};
ghost use Rattle.lists.specs.Search.{iter};
ghost use Rattle.neighbours.specs.Ready.{Ready};
ghost use Rattle.notes.specs.Notes.{Tight};
ghost use Rattle.number.specs.Numbered.{either, met_by, met_on, note_of, numbers, number_row};

use neighbours::Search;
use notes::Note;

// Of an edge of a row: 1 where it is split, and 1 where it is split and no lower row holds it.
// Stays: numbers of 0 and 1, as in a note.
#[derive(Clone, Copy)]
struct Met {
    on: u32,
    first: u32,
}

// 1 where one of the two rows of an edge says that it is split.
// Stays: no own | other, since `either` of specs/Numbered.antt is of any number.
fn either(own: u32, other: u32) -> u32
    ensures { result ≡ either own other }
{
    if own == 1 { 1 } else { other }
}

// An edge of row i that row j holds too.
fn met_by(on: u32, j: usize, i: usize) -> Met
    ensures { result ≡ met_by on j i }
{
    let first = if j < i { 0 } else { on };
    Met { on, first }
}

// The edge x→y of row i, where own is 1 if row i itself says that it is split: else the row across says it.
fn met_on(search: Search, i: usize, own: u32, x: u32, y: u32) -> Met
    requires t_in_bounds { 3 * search.t ≤ length search.rows.now }
    requires t_in_bounds_2 { search.t ≤ length search.scratch.now }
    ensures { result ≡ met_on search.entry.rows.now search.entry.t search.entry.scratch.now i own x y }
{
    let Some(j) = search.find_edge(y, x) else {
        return Met {
            on: own,
            first: own,
        };
    };
    let w = tables::row_at(search.rows, j);
    let c = notes::note_at(search.scratch, j);
    met_by(either(own, c.split_on(w, y, x)), j, i)
}

// The note of row i, where lower rows have k new nodes.
fn note_of(search: Search, i: usize, k: u32) -> Note
    requires i_lt_t { i < search.t }
    requires t_in_bounds { 3 * search.t ≤ length search.rows.now }
    requires t_in_bounds_2 { search.t ≤ length search.scratch.now }
    ensures { result ≡ note_of search.entry.rows.now search.entry.t search.entry.scratch.now i k }
{
    let c = notes::note_at(search.scratch, i);
    if c.m == 0 {
        return Note {
            before: k,
            ..Note::default()
        };
    }
    let w = tables::row_at(search.rows, i);
    let m = met_on(search, i, c.m, w.q, w.r);
    let u = met_on(search, i, c.u, w.p, w.q);
    let v = met_on(search, i, c.v, w.r, w.p);
    Note {
        m: m.on,
        u: u.on,
        v: v.on,
        fm: m.first,
        fu: u.first,
        fv: v.first,
        before: k,
    }
}

fn with_new(k: u32, c: Note) -> u32
    requires k_bound { k ≤ 300_000 }
    requires tight { Tight c }
    ensures { result ≡ k + c.fm + c.fu + c.fv }
{
    k + c.fm + c.fu + c.fv
}

// Puts the note of row i, and returns how many new nodes the rows up to it have.
fn number_row(rows: &[u32], scratch: &mut [u32], nc: usize, t: usize, i: usize, k: u32) -> u32
    requires i_lt_t { i < t }
    requires t_in_bounds { 3 * t ≤ length rows.now }
    requires t_in_bounds_2 { t ≤ length scratch.old }
    requires ready { Ready scratch.old nc rows.now t }
    requires k_bound { k ≤ 3 * i }
    ensures { numbers scratch.new result ≡ number_row rows.now t i (numbers scratch.old k) }
{
    let search = Search {
        rows,
        scratch,
        nc,
        t,
    };
    let c = note_of(search, i, k);
    tables::put_note(scratch, i, c.pack());
    with_new(k, c)
}

// The notes are those that close leaves. Returns how many new nodes there are.
pub fn number(rows: &[u32], scratch: &mut [u32], nc: usize, t: usize) -> u32
    requires t_in_bounds { 3 * t ≤ length rows.now }
    requires t_in_bounds_2 { t ≤ length scratch.old }
    requires ready { Ready scratch.old nc rows.now t }
    ensures { numbers scratch.new result ≡ iter (number_row rows.now t) 0 t (numbers scratch.old 0) }
{
    let mut k = 0;
    for i in 0..t {
        k = number_row(rows, scratch, nc, t, i, k);
    }
    k
}
