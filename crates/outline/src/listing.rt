// The border arrows of the first t rows, put into the notes of scratch: row by row, p→q, q→r and r→p of each. The index of these rows
// stands in scratch, and stays.
ghost use Rattle.std.specs.Prelude.{◌≡◌, ◌∷◌, [], ◌+◌, ◌*◌, ◌≤◌, length};
ghost use Rattle.meaning.specs.Mesh.{arrow, arrows};
ghost use Rattle.meaning.specs.Tables.{row_at};
ghost use Rattle.neighbours.specs.Sized.{Sized, index_at};
ghost use Rattle.neighbours.specs.Ready.{Ready};
ghost use Rattle.outline.specs.Listed.{is_border, border_of, set_arrow, Grown, Ended};

use neighbours::Search;

// No row holds y→x.
#[tactic(auto, unfolding(crate::specs::Listed::is_border))]
fn is_border(search: Search, x: u32, y: u32) -> bool
    ensures { result ≡ is_border search.entry.rows.now search.entry.t (arrow x y) }
{
    search.find_edge(y, x).is_none()
}

// x→y is arrow b.
#[tactic(auto, unfolding(crate::specs::Listed::set_arrow))]
fn put_arrow(scratch: &mut [u32], b: usize, x: u32, y: u32)
    requires { 2 * b + 2 ≤ length scratch.old }
    ensures { scratch.new ≡ set_arrow scratch.old b x y }
{
    scratch[2 * b] = x;
    scratch[2 * b + 1] = y;
}

// Stays: scratch is written between two searches, so that the tables travel singly.
// x→y joins the first b arrows if it is a border one. How many there are then.
fn list_arrow(
    rows: &[u32],
    scratch: &mut [u32],
    nc: usize,
    t: usize,
    b: usize,
    x: u32,
    y: u32,
) -> usize
    requires ready { Ready scratch.old nc rows.now t }
    requires b_bound { 2 * b + 2 ≤ index_at nc (length rows.now) }
    ensures { Grown scratch.old scratch.new nc rows.now t b result 1 (border_of rows.now t (arrow x y ∷ [])) }
{
    let search = Search {
        rows,
        scratch,
        nc,
        t,
    };
    if is_border(search, x, y) {
        put_arrow(scratch, b, x, y);
        b + 1
    } else {
        b
    }
}

// The border arrows of row i join them.
fn list_row(rows: &[u32], scratch: &mut [u32], nc: usize, t: usize, b: usize, i: usize) -> usize
    requires i_in_bounds { 3 * i + 3 ≤ length rows.now }
    requires ready { Ready scratch.old nc rows.now t }
    requires b_bound { 2 * b + 6 ≤ index_at nc (length rows.now) }
    ensures { Grown scratch.old scratch.new nc rows.now t b result 3 (border_of rows.now t (arrows (row_at rows.now i))) }
{
    let w = tables::row_at(rows, i);
    let one = list_arrow(rows, scratch, nc, t, b, w.p, w.q);
    let two = list_arrow(rows, scratch, nc, t, one, w.q, w.r);
    list_arrow(rows, scratch, nc, t, two, w.r, w.p)
}

// How many border arrows there are, all of them listed; or nothing, where they are too many for the notes.
pub fn list_border(rows: &[u32], scratch: &mut [u32], nc: usize, t: usize) -> Option<usize>
    requires sized { Sized nc (length rows.now) (length scratch.old) }
    requires t_in_bounds { 3 * t ≤ length rows.now }
    requires ready { Ready scratch.old nc rows.now t }
    ensures { Ended scratch.new nc rows.now t result }
{
    let limit = 2 * nc + rows.len() / 3;
    let mut b = 0;
    for i in 0..t {
        if 2 * b + 6 > limit {
            return None;
        }
        b = list_row(rows, scratch, nc, t, b, i);
    }
    Some(b)
}
