// The neighbour search. Scratch, as every call uses it: the numbers below `index_at` are notes of the running call; from there on stands
// the index of the search, which only this crate reads and writes.
#![tactic(auto)]

ghost use Rattle.std.specs.Prelude.{◌≡◌, ◌+◌, ◌*◌, ◌≤◌, length, take};
ghost use Rattle.lists.specs.Search.{lowest};
ghost use Rattle.meaning.specs.Tables.{row_at};
ghost use Rattle.tables.specs.Arrow.{arrow_at};
ghost use Rattle.neighbours.specs.Sized.{Sized, index_at, Corners};
ghost use Rattle.neighbours.specs.Ready.{Ready};

mod index; // index.rt: the index

// The first t rows of a table, and the index of these rows, which stands in scratch. nc is the room of nodes.
#[derive(Clone, Copy)]
pub struct Search<'a> {
    pub rows: &'a [u32],
    pub scratch: &'a [u32],
    pub nc: usize,
    pub t: usize,
    ghost sized: { Sized nc (length rows.now) (length scratch.now) },
    ghost in_table: { 3 * t ≤ length rows.now },
    ghost ready: { ∥ Ready scratch.now nc rows.now t ∥₁ },
}

impl Search<'_> {
    // The lowest row that holds x→y.
    pub fn find_edge(self, x: u32, y: u32) -> Option<usize>
        ensures { result ≡ lowest (arrow_at self.entry.rows.now x y) 0 self.entry.t }
    {
        if (x as usize >= self.nc) || (y as usize >= self.nc) {
            return None;
        }
        let v = self.rarer(x, y);
        self.walk(x, y, v)
    }
}

// Row i joins the index, which holds the rows below it. No note changes. Where rows that were cut off are still in, it is made anew.
pub fn add_row(rows: &[u32], scratch: &mut [u32], nc: usize, i: usize)
    requires i_in_bounds { 3 * i + 3 ≤ length rows.now }
    requires corners { Corners nc (row_at rows.now i) }
    requires ready_2 { Ready scratch.old nc rows.now i }
    ensures notes { take (index_at nc (length rows.now)) scratch.new ≡ take (index_at nc (length rows.now)) scratch.old }
    ensures ready { Ready scratch.new nc rows.now (i + 1) }
{
    if index::is_free(rows, scratch, nc, 3 * i) {
        index::join_slots(rows, scratch, nc, 3 * i, 3 * i + 3);
        return;
    }
    index::clear_index(rows, scratch, nc);
    index::join_slots(rows, scratch, nc, 0, 3 * i + 3);
}
