// Two or four rows round a node, paired off from the lowest on.
ghost use Rattle.std.specs.Prelude.{◌≡◌, ℕ, ◌*◌, ◌≤◌, length};
ghost use Rattle.lists.specs.Loops.{code};
ghost use Rattle.round.specs.Round.{row_in, four_rows, numbers, Within};
ghost use Rattle.round.specs.Pair.{joins, closing, four_test, brother_of, two_in, four_in, brother_in};

use crate::Round;
use meaning::Tri;

// Row k, where there is one.
pub fn row_in(rows: &[u32], k: Option<usize>) -> Tri
    requires { 3 * code k ≤ length rows.now }
    ensures { result ≡ row_in rows.now (code k) }
{
    match k {
        Some(i) => tables::row_at(rows, i),
        None => Tri { p: 0, q: 0, r: 0 },
    }
}

// The first four, where there are so many.
fn four_rows(rows: &[u32], k: Round) -> [Tri; 4]
    requires { Within rows.now (numbers k) }
    ensures { result ≡ four_rows rows.now (numbers k) }
{
    [
        row_in(rows, k.first),
        row_in(rows, k.second),
        row_in(rows, k.third),
        row_in(rows, k.fourth),
    ]
}

// v holds a→z, where w is (z, a, b).
#[tactic(auto, unfolding(crate::specs::Pair::joins))]
fn joins(w: Tri, v: Tri, z: u32) -> bool
    ensures { result ≡ joins w v z }
{
    tables::has_edge(v, w.q, z)
}

// w, v are (z, a, b), (z, c, a): x, y are (z, d, c), (z, b, d).
#[tactic(auto, unfolding(crate::specs::Pair::closing))]
fn closing(w: Tri, v: Tri, x: Tri, y: Tri, z: u32) -> bool
    ensures { result ≡ closing w v x y z }
{
    joins(x, y, z) && x.r == v.q && y.q == w.r
}

// Of four rows, lowest first.
#[tactic(auto, unfolding(crate::specs::Pair::four_test))]
fn four_close(w: Tri, x: Tri, y: Tri, v: Tri, z: u32) -> bool
    ensures { result ≡ four_test w x y v z }
{
    if joins(w, x, z) {
        closing(w, x, y, v, z)
    } else if joins(w, y, z) {
        closing(w, y, x, v, z)
    } else if joins(w, v, z) {
        closing(w, v, x, y, z)
    } else {
        false
    }
}

#[tactic(auto, unfolding(crate::specs::Pair::two_in))]
pub fn two_in(rows: &[u32], k: Round, z: u32) -> bool
    requires { Within rows.now (numbers k) }
    ensures { result ≡ two_in rows.now (numbers k) z }
{
    joins(row_in(rows, k.first), row_in(rows, k.second), z)
}

#[tactic(auto, unfolding(crate::specs::Pair::four_in))]
pub fn four_in(rows: &[u32], k: Round, z: u32) -> bool
    requires { Within rows.now (numbers k) }
    ensures { result ≡ four_in rows.now (numbers k) z }
{
    let [w, x, y, v] = four_rows(rows, k);
    four_close(w, x, y, v, z)
}

// The row that holds a→z, of three.
#[tactic(auto, unfolding(crate::specs::Pair::brother_of))]
fn brother(w: Tri, x: Tri, y: Tri, v: Tri, z: u32) -> Tri
    ensures { result ≡ brother_of w x y v z }
{
    if joins(w, x, z) {
        x
    } else if joins(w, y, z) {
        y
    } else {
        v
    }
}

#[tactic(auto, unfolding(crate::specs::Pair::brother_in))]
pub fn brother_in(rows: &[u32], k: Round, z: u32) -> Tri
    requires { Within rows.now (numbers k) }
    ensures { result ≡ brother_in rows.now (numbers k) z }
{
    let [w, x, y, v] = four_rows(rows, k);
    brother(w, x, y, v, z)
}
