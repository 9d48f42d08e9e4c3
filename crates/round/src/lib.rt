// The rows round each node of a lawful mesh as given: they are noted, and by the notes document 01's G1 and G2 and the pair b, c.
//
// Notes, with nc the room of nodes; a row is noted one too large, and 0 says none:
//   z          the lowest row of which node z is the newest vertex
//   nc + z     1 where a row holds node z otherwise
//   2 nc + i   the next row with the newest vertex of row i
#![tactic(auto)]

mod notes;
mod pair;

ghost use Rattle.std.specs.Prelude.{◌≡◌, true, ℕ, ◌+◌, ◌*◌, ◌≤◌, ◌<◌, length, take, replicate};
ghost use Rattle.lists.specs.ChainLaw.{linked};
ghost use Rattle.lists.specs.Loops.{code};
ghost use Rattle.meaning.specs.Good.{span, G1, G2};
ghost use Rattle.laws.specs.Meshes.{rows_alone, Fair};
ghost use Rattle.neighbours.specs.Sized.{Sized, index_at};
ghost use Rattle.neighbours.specs.Ready.{Ready};
ghost use Rattle.round.specs.Round.{Around, next_of, numbers, round_by, two_or_four, Within};
ghost use Rattle.round.specs.Pair.{edge_of};

// The rows of which a node is the newest vertex, lowest first.
#[derive(Clone, Copy)]
pub struct Round {
    pub first: Option<usize>,
    pub second: Option<usize>,
    pub third: Option<usize>,
    pub fourth: Option<usize>,
    pub fifth: Option<usize>,
}

// The first t rows of a table, with the rows round each node noted in scratch.
#[derive(Clone, Copy)]
pub struct Noted<'a> {
    pub rows: &'a [u32],
    pub scratch: &'a [u32],
    pub nc: usize,
    pub t: usize,
}

// The pair b, c of a node, the lower first.
#[derive(Clone, Copy)]
pub struct Ends {
    pub lo: u32,
    pub hi: u32,
}

// The item that a note says.
// Stays: notes are numbers with 0 for none, for scratch is a `&mut [u32]` that the caller lends.
pub fn item(k: u32) -> Option<usize>
    ensures { code result ≡ k }
{
    (k as usize).checked_sub(1)
}

// Item i comes before those linked at g; its next is noted at y.
pub fn link(scratch: &mut [u32], g: usize, y: usize, i: usize)
    requires g_in_bounds { g < length scratch.old }
    requires y_in_bounds { y < length scratch.old }
    requires i_bound { i ≤ 262_144 }
    ensures { scratch.new ≡ linked g y i scratch.old }
{
    let v = tables::note_at(scratch, g);
    tables::put_note(scratch, y, v);
    tables::put_note(scratch, g, i as u32 + 1);
}

// Notes the rows round each node.
pub fn note_rows(rows: &[u32], scratch: &mut [u32], nc: usize, n: usize, t: usize)
    requires fair { Fair rows.now n t }
    requires sized { Sized nc (length rows.now) (length scratch.old) }
    requires n_le_nc { n ≤ nc }
    requires scratch_value { take (index_at nc (length rows.now)) scratch.old ≡ replicate (index_at nc (length rows.now)) 0 }
    requires ready_2 { Ready scratch.old nc rows.now t }
    ensures around { (z : ℕ) → z < n → Around scratch.new nc rows.now t z }
    ensures ready { Ready scratch.new nc rows.now t }
{
    notes::mark_olders(rows, scratch, nc, n, t);
    notes::link_rows(rows, scratch, nc, n, t);
}

// The row after row k.
fn after(noted: Noted, z: usize, k: Option<usize>) -> Option<usize>
    requires around { Around noted.scratch.now noted.nc noted.rows.now noted.t z }
    requires k_le_t { code k ≤ noted.t }
    ensures next { code result ≡ next_of noted.entry.scratch.now noted.entry.nc (code k) }
    ensures below { code result ≤ noted.entry.t }
{
    let i = k?;
    item(tables::note_at(noted.scratch, 2 * noted.nc + i))
}

fn round_of(noted: Noted, z: usize) -> Round
    requires around { Around noted.scratch.now noted.nc noted.rows.now noted.t z }
    requires t_in_bounds { 3 * noted.t ≤ length noted.rows.now }
    ensures numbers { numbers result ≡ round_by noted.entry.scratch.now noted.entry.nc z }
    ensures within { Within noted.entry.rows.now (numbers result) }
{
    let first = item(tables::note_at(noted.scratch, z));
    let second = after(noted, z, first);
    let third = after(noted, z, second);
    let fourth = after(noted, z, third);
    let fifth = after(noted, z, fourth);
    Round {
        first,
        second,
        third,
        fourth,
        fifth,
    }
}

// ---- G1

#[tactic(auto, using(crate::specs::Needs::by_number), unfolding(crate::specs::Round::two_or_four))]
fn two_or_four(k: Round) -> bool
    ensures { result ≡ two_or_four (numbers k) }
{
    k.second.is_some() && k.third.is_none() || k.fourth.is_some() && k.fifth.is_none()
}

pub fn g1(noted: Noted, n: usize, z: u32) -> bool
    requires fair { Fair noted.rows.now n noted.t }
    requires around { Around noted.scratch.now noted.nc noted.rows.now noted.t z }
    ensures { result ≡ G1 (rows_alone noted.entry.rows.now noted.entry.t) z }
{
    let a = tables::note_at(noted.scratch, noted.nc + z as usize);
    a == 0 && two_or_four(round_of(noted, z as usize))
}

// ---- G2 and the pair b, c

pub fn g2(noted: Noted, n: usize, z: u32) -> bool
    requires fair { Fair noted.rows.now n noted.t }
    requires around { Around noted.scratch.now noted.nc noted.rows.now noted.t z }
    requires z_value { G1 (rows_alone noted.rows.now noted.t) z ≡ true }
    ensures { result ≡ G2 (rows_alone noted.entry.rows.now noted.entry.t) z }
{
    let k = round_of(noted, z as usize);
    if k.third.is_none() {
        pair::two_in(noted.rows, k, z)
    } else {
        pair::four_in(noted.rows, k, z)
    }
}

pub fn span_of(noted: Noted, n: usize, z: u32) -> Ends
    requires fair { Fair noted.rows.now n noted.t }
    requires around { Around noted.scratch.now noted.nc noted.rows.now noted.t z }
    requires z_value { G1 (rows_alone noted.rows.now noted.t) z ≡ true }
    requires z_value_2 { G2 (rows_alone noted.rows.now noted.t) z ≡ true }
    ensures pair { edge_of result ≡ span (rows_alone noted.entry.rows.now noted.entry.t) z }
    ensures nodes { (result.lo < n) × (result.hi < n) }
{
    let k = round_of(noted, z as usize);
    let w = pair::row_in(noted.rows, k.first);
    let u = pair::brother_in(noted.rows, k, z);
    Ends {
        lo: w.r.min(u.q),
        hi: w.r.max(u.q),
    }
}
