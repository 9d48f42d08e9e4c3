// W7: two rows side by side: a corner of one on a side of the other, an interior point of both.
#![tactic(auto)]

ghost use Rattle.std.specs.Prelude.{◌≡◌, ◌+◌, ◌*◌, ◌≤◌, length};
ghost use Rattle.meaning.specs.Lawful.{InRange};
ghost use Rattle.meaning.specs.Tables.{place_at, row_at};
ghost use Rattle.laws.specs.Meshes.{Stands, Standing};
ghost use Rattle.pairs.specs.Gravity.{gravity};
ghost use Rattle.pairs.specs.Pair.{grave_at};
ghost use Rattle.pairs.specs.Seen.{corner_by, seen_by, Near, NearSide};
ghost use Rattle.pairs.specs.Seen.{is_end, left_of, right_of, not_beyond, is_on, is_clear, is_on_some, some_left, all_clear};
ghost use Rattle.pairs.specs.Seen.{clean, meets, crosses, grave_seen};
ghost use Rattle.pairs.specs.Sound.{Sound};

use meaning::{Place, Tri};

// How grave it is of two rows.
#[derive(Clone, Copy, PartialEq, Eq, PartialOrd, Ord, Debug)]
pub enum Grave {
    // Neither of those below.
    Apart,
    // They share an interior point.
    Lapping,
    // A corner of one is on a side of the other.
    Touching,
}

// ---- a row with its places

// A corner of a row: its node, and where that stands.
#[derive(Clone, Copy)]
struct Corner {
    node: u32,
    place: Place,
}

// A side of a row, from corner a to corner b.
#[derive(Clone, Copy)]
struct Side {
    a: Corner,
    b: Corner,
}

#[derive(Clone, Copy)]
struct Seen {
    p: Corner,
    q: Corner,
    r: Corner,
}

fn corner_of(nodes: &[i32], k: u32) -> Corner
    requires { Stands nodes.now k }
    ensures { result ≡ corner_by (place_at nodes.now) k }
{
    Corner {
        node: k,
        place: tables::corner(nodes, k),
    }
}

#[tactic(auto, unfolding(crate::specs::Seen::seen_by))]
fn see(nodes: &[i32], w: Tri) -> Seen
    requires { Standing nodes.now w }
    ensures { result ≡ seen_by (place_at nodes.now) w }
{
    Seen {
        p: corner_of(nodes, w.p),
        q: corner_of(nodes, w.q),
        r: corner_of(nodes, w.r),
    }
}

impl Side {
    // ---- a side and one corner

    // The corner is an end of the side.
    #[tactic(auto, unfolding(crate::specs::Seen::is_end))]
    fn is_end(self, c: Corner) -> bool
        ensures { result ≡ is_end self.a self.b c }
    {
        c.node == self.a.node || c.node == self.b.node
    }

    // It is strictly left of the side's line.
    #[tactic(auto, unfolding(crate::specs::Seen::left_of))]
    fn left_of(self, c: Corner) -> bool
        requires { NearSide self }
        ensures { result ≡ left_of self.a self.b c }
    {
        plane::twice_area(self.a.place, self.b.place, c.place) > 0
    }

    // It is strictly right of it.
    #[tactic(auto, unfolding(crate::specs::Seen::right_of))]
    fn right_of(self, c: Corner) -> bool
        requires { NearSide self }
        ensures { result ≡ right_of self.a self.b c }
    {
        plane::twice_area(self.a.place, self.b.place, c.place) < 0
    }

    // On the line, it is between the ends or at the place of one.
    #[tactic(auto, unfolding(crate::specs::Seen::not_beyond))]
    fn not_beyond(self, c: Corner) -> bool
        requires { NearSide self × InRange c.place }
        ensures { result ≡ not_beyond self.a self.b c }
    {
        plane::facing(self.a.place, self.b.place, c.place) <= 0
    }

    // It is no end of the side, and is on it.
    #[tactic(auto, unfolding(crate::specs::Seen::is_on, crate::specs::Seen::left_of, crate::specs::Seen::right_of))]
    fn is_on(self, c: Corner) -> bool
        requires { NearSide self × InRange c.place }
        ensures { result ≡ is_on self.a self.b c }
    {
        !self.is_end(c) && !self.left_of(c) && !self.right_of(c) && self.not_beyond(c)
    }

    // It is an end of the side, or strictly right of its line.
    #[tactic(auto, unfolding(crate::specs::Seen::is_clear))]
    fn is_clear(self, c: Corner) -> bool
        requires { NearSide self }
        ensures { result ≡ is_clear self.a self.b c }
    {
        self.is_end(c) || self.right_of(c)
    }

    // ---- a side and a row

    // A corner of the row is on the side.
    #[tactic(auto, unfolding(crate::specs::Seen::is_on_some))]
    fn is_on_some(self, t: Seen) -> bool
        requires { NearSide self × Near t }
        ensures { result ≡ is_on_some self.a self.b t }
    {
        self.is_on(t.p) || self.is_on(t.q) || self.is_on(t.r)
    }

    // A corner of the row is strictly left of the side's line.
    #[tactic(auto, unfolding(crate::specs::Seen::some_left))]
    fn some_left(self, t: Seen) -> bool
        requires { NearSide self }
        ensures { result ≡ some_left self.a self.b t }
    {
        self.left_of(t.p) || self.left_of(t.q) || self.left_of(t.r)
    }

    // The side is clean for the row: all of its corners are clear.
    #[tactic(auto, unfolding(crate::specs::Seen::all_clear))]
    fn all_clear(self, t: Seen) -> bool
        requires { NearSide self }
        ensures { result ≡ all_clear self.a self.b t }
    {
        self.is_clear(t.p) && self.is_clear(t.q) && self.is_clear(t.r)
    }
}

impl Seen {
    // ---- the sides

    fn pq(self) -> Side
        ensures { result ≡ record { a = self.p; b = self.q } }
    {
        Side {
            a: self.p,
            b: self.q,
        }
    }

    fn qr(self) -> Side
        ensures { result ≡ record { a = self.q; b = self.r } }
    {
        Side {
            a: self.q,
            b: self.r,
        }
    }

    fn rp(self) -> Side
        ensures { result ≡ record { a = self.r; b = self.p } }
    {
        Side {
            a: self.r,
            b: self.p,
        }
    }

    // ---- two rows

    // A side of it is clean for u. Most pairs of a mesh's rows have such a side.
    #[tactic(auto, unfolding(crate::specs::Seen::clean))]
    fn clean(self, u: Seen) -> bool
        requires { Near self }
        ensures { result ≡ clean self u }
    {
        self.pq().all_clear(u) || self.qr().all_clear(u) || self.rp().all_clear(u)
    }

    // A corner of u is on a side of it.
    #[tactic(auto, unfolding(crate::specs::Seen::meets))]
    fn meets(self, u: Seen) -> bool
        requires { Near self × Near u }
        ensures { result ≡ meets self u }
    {
        self.pq().is_on_some(u) || self.qr().is_on_some(u) || self.rp().is_on_some(u)
    }

    // Each side of it has a corner of u on its inner side.
    #[tactic(auto, unfolding(crate::specs::Seen::crosses))]
    fn crosses(self, u: Seen) -> bool
        requires { Near self }
        ensures { result ≡ crosses self u }
    {
        self.pq().some_left(u) && self.qr().some_left(u) && self.rp().some_left(u)
    }
}

#[tactic(auto, unfolding(crate::specs::Seen::grave_seen))]
fn grave_seen(t: Seen, u: Seen) -> Grave
    requires { Near t × Near u }
    ensures { gravity result ≡ grave_seen t u }
{
    if t.meets(u) || u.meets(t) {
        Grave::Touching
    } else if t.crosses(u) && u.crosses(t) {
        Grave::Lapping
    } else {
        Grave::Apart
    }
}

// A row has nothing against itself.
pub fn grave_at(nodes: &[i32], rows: &[u32], i: usize, j: usize) -> Grave
    requires i_in_bounds { 3 * i + 3 ≤ length rows.now }
    requires j_in_bounds { 3 * j + 3 ≤ length rows.now }
    requires sound { Sound nodes.now (row_at rows.now i) }
    requires sound_2 { Sound nodes.now (row_at rows.now j) }
    ensures { gravity result ≡ grave_at (place_at nodes.now) rows.now i j }
{
    if i == j {
        return Grave::Apart;
    }
    let t = see(nodes, tables::row_at(rows, i));
    let u = see(nodes, tables::row_at(rows, j));
    if t.clean(u) || u.clean(t) {
        Grave::Apart
    } else {
        grave_seen(t, u)
    }
}
