// Which rows are split, as 1 in their notes: from each row with a starting edge on, the row across the refinement edge, as far as rows are
// not split. So each split row costs one search, each marked row one look at its note, and each side that starts one search more.
#![tactic(auto)]

ghost use Rattle.std.specs.Prelude.{◌≡◌, ◌*◌, ◌≤◌, ◌<◌, length};
ghost use Rattle.lists.specs.Search.{iter};
ghost use Rattle.neighbours.specs.Ready.{Ready};
ghost use Rattle.close.specs.Drawn.{across_row, draws, draw_across, draw_sides, draw_from, draw_marked, start_note, note_start, closed_notes};

use meaning::{Manner, Tri};
use neighbours::Search;

// The row across the refinement edge of row i.
fn across(search: Search, i: usize) -> Option<usize>
    requires i_lt_t { i < search.t }
    requires t_in_bounds { 3 * search.t ≤ length search.rows.now }
    ensures { result ≡ across_row search.entry.rows.now search.entry.t i }
{
    let w = tables::row_at(search.rows, i);
    search.find_edge(w.r, w.q)
}

// Row i is split, and so is the row across its refinement edge, and so on, up to one that was split before.
// Stays: here and below the tables one by one, and no search: scratch is written between two searches.
fn draw(rows: &[u32], scratch: &mut [u32], nc: usize, t: usize, i: usize)
    requires i_lt_t { i < t }
    requires t_in_bounds { 3 * t ≤ length rows.now }
    requires t_in_bounds_2 { t ≤ length scratch.old }
    requires ready { Ready scratch.old nc rows.now t }
    ensures { scratch.new ≡ draws rows.now t i scratch.old }
{
    let mut j = i;
    while scratch[j] == 0 {
        tables::put_note(scratch, j, 1);
        let search = Search {
            rows,
            scratch,
            nc,
            t,
        };
        let Some(k) = across(search, j) else {
            return;
        };
        j = k;
    }
}

// The row across the edge x→y, with what it draws along.
fn draw_across(rows: &[u32], scratch: &mut [u32], nc: usize, t: usize, x: u32, y: u32)
    requires t_in_bounds { 3 * t ≤ length rows.now }
    requires t_in_bounds_2 { t ≤ length scratch.old }
    requires ready { Ready scratch.old nc rows.now t }
    ensures { scratch.new ≡ draw_across rows.now t x y scratch.old }
{
    let search = Search {
        rows,
        scratch,
        nc,
        t,
    };
    if let Some(j) = search.find_edge(y, x) {
        draw(rows, scratch, nc, t, j);
    }
}

// The rows across the sides of w.
fn draw_sides(rows: &[u32], scratch: &mut [u32], nc: usize, t: usize, w: Tri)
    requires t_in_bounds { 3 * t ≤ length rows.now }
    requires t_in_bounds_2 { t ≤ length scratch.old }
    requires ready { Ready scratch.old nc rows.now t }
    ensures { scratch.new ≡ draw_sides rows.now t w scratch.old }
{
    draw_across(rows, scratch, nc, t, w.p, w.q);
    draw_across(rows, scratch, nc, t, w.r, w.p);
}

// Row i, which is marked; and in W1's manner the rows across its sides.
fn draw_from(rows: &[u32], scratch: &mut [u32], nc: usize, t: usize, i: usize, manner: Manner)
    requires i_lt_t { i < t }
    requires t_in_bounds { 3 * t ≤ length rows.now }
    requires t_in_bounds_2 { t ≤ length scratch.old }
    requires ready { Ready scratch.old nc rows.now t }
    ensures { scratch.new ≡ draw_from manner rows.now t i scratch.old }
{
    draw(rows, scratch, nc, t, i);
    if let Manner::AllThree = manner {
        draw_sides(rows, scratch, nc, t, tables::row_at(rows, i));
    }
}

fn draw_marked(
    rows: &[u32],
    scratch: &mut [u32],
    nc: usize,
    t: usize,
    marks: &[u8],
    i: usize,
    manner: Manner,
)
    requires i_lt_t { i < t }
    requires t_in_bounds { 3 * t ≤ length rows.now }
    requires t_in_bounds_2 { t ≤ length scratch.old }
    requires t_in_bounds_3 { t ≤ length marks.now }
    requires ready { Ready scratch.old nc rows.now t }
    ensures { scratch.new ≡ draw_marked manner rows.now t marks.now i scratch.old }
{
    if marks[i] == 1 {
        draw_from(rows, scratch, nc, t, i, manner);
    }
}

// The note of a row is 1 where the row is split.
fn draw_all(rows: &[u32], scratch: &mut [u32], nc: usize, t: usize, marks: &[u8], manner: Manner)
    requires t_in_bounds { 3 * t ≤ length rows.now }
    requires t_in_bounds_2 { t ≤ length scratch.old }
    requires t_in_bounds_3 { t ≤ length marks.now }
    requires ready { Ready scratch.old nc rows.now t }
    ensures { scratch.new ≡ iter (draw_marked manner rows.now t marks.now) 0 t scratch.old }
{
    for i in 0..t {
        draw_marked(rows, scratch, nc, t, marks, i, manner);
    }
}

// ---- which edges of a marked row start the split set

// Bits 0, 1 and 2 for q-r, p-q and r-p.
fn start_note(manner: Manner) -> u32
    ensures { result ≡ start_note manner }
{
    match manner {
        Manner::Newest => 1,
        Manner::AllThree => 7,
    }
}

fn note_start(scratch: &mut [u32], marks: &[u8], i: usize, manner: Manner)
    requires i_in_bounds { i < length scratch.old }
    requires i_in_bounds_2 { i < length marks.now }
    ensures { scratch.new ≡ note_start manner marks.now i scratch.old }
{
    if marks[i] == 1 {
        tables::put_note(scratch, i, start_note(manner));
    }
}

fn note_starts(scratch: &mut [u32], t: usize, marks: &[u8], manner: Manner)
    requires t_in_bounds { t ≤ length scratch.old }
    requires t_in_bounds_2 { t ≤ length marks.now }
    ensures { scratch.new ≡ iter (note_start manner marks.now) 0 t scratch.old }
{
    for i in 0..t {
        note_start(scratch, marks, i, manner);
    }
}

// The first t notes are zero at first. After it bit 0 of the note of a row says that the row is split; bits 1 and 2 that its sides p-q and
// r-p start the split set.
pub fn close(rows: &[u32], scratch: &mut [u32], nc: usize, t: usize, marks: &[u8], manner: Manner)
    requires t_in_bounds { 3 * t ≤ length rows.now }
    requires t_in_bounds_2 { t ≤ length scratch.old }
    requires t_in_bounds_3 { t ≤ length marks.now }
    requires ready { Ready scratch.old nc rows.now t }
    ensures { scratch.new ≡ closed_notes manner rows.now t marks.now scratch.old }
{
    draw_all(rows, scratch, nc, t, marks, manner);
    note_starts(scratch, t, marks, manner);
}
