// W7: the border of a mesh, and whether it is clear: no border arrow meets another but in a node of both, and no row lies just right of the
// middle of one. The first b border arrows stand in scratch: arrow j as two numbers, from at 2 j and to at 2 j + 1.
#![tactic(auto)]

ghost use Rattle.std.specs.Prelude.{true, not, ◌≡◌, ℕ, ◌+◌, ◌*◌, ◌/◌, ◌≤◌, ◌<◌, pos, ◌+ℤ◌, ◌*ℤ◌, length};
ghost use Rattle.std.specs.Int.Signed.{lt_z, le_z};
ghost use Rattle.meaning.specs.Good.{same_z};
ghost use Rattle.meaning.specs.Lawful.{InRange};
ghost use Rattle.meaning.specs.Mesh.{turn};
ghost use Rattle.meaning.specs.Tables.{place_at, row_at};
ghost use Rattle.meaning.specs.Proper.{facing};
ghost use Rattle.lists.specs.Search.{items};
ghost use Rattle.laws.specs.Meshes.{Stands, Standing};
ghost use Rattle.neighbours.specs.Ready.{Ready};
ghost use Rattle.border.specs.Cancel.{border};
ghost use Rattle.border.specs.Clear.{steep, opposite, clear};
ghost use Rattle.border.specs.Under.{key};
ghost use Rattle.outline.specs.Seen.{end_by, edge_in, arrow_in, Near, Close, EndsStand, Listing};
ghost use Rattle.outline.specs.Seen.{all_before, far, is_on, meet, rises_under, look, falling, look_at, fine, not_free, all_free, AtMost};

use meaning::Place;

mod listing; // listing.rt: the border arrows, put into scratch

// ---- an arrow with its places

// An end of an arrow: its node, where that stands, and the key of the place.
#[derive(Clone, Copy)]
struct End {
    node: u32,
    place: Place,
    key: i64,
}

#[derive(Clone, Copy)]
struct Edge {
    from: End,
    to: End,
}

fn key_at(x: i32, y: i32) -> i64
    ensures { result ≡ pos 8_388_608 *ℤ x +ℤ y }
{
    8_388_608 * i64::from(x) + i64::from(y)
}

// Of places in range, different ones have different keys.
fn key_of(a: Place) -> i64
    ensures { result ≡ key steep a }
{
    key_at(a.x, a.y)
}

fn end_of(nodes: &[i32], k: u32) -> End
    requires { Stands nodes.now k }
    ensures { result ≡ end_by (place_at nodes.now) k }
{
    let place = tables::corner(nodes, k);
    End {
        node: k,
        place,
        key: key_of(place),
    }
}

// Arrow j.
fn edge_at(nodes: &[i32], scratch: &[u32], j: usize) -> Edge
    requires j_in_bounds { 2 * j + 2 ≤ length scratch.now }
    requires ends_stand { EndsStand nodes.now (arrow_in scratch.now j) }
    ensures { result ≡ edge_in (place_at nodes.now) scratch.now j }
{
    Edge {
        from: end_of(nodes, scratch[2 * j]),
        to: end_of(nodes, scratch[2 * j + 1]),
    }
}

// ---- places

// The three are on a line.
fn in_line(a: Place, b: Place, c: Place) -> bool
    requires { InRange a × InRange b }
    ensures { result ≡ same_z (turn a b c) (pos 0) }
{
    plane::twice_area(a, b, c) == 0
}

// On the line of a and b, c is between them or at one.
fn not_beyond(a: Place, b: Place, c: Place) -> bool
    requires { InRange a × InRange b × InRange c }
    ensures { result ≡ le_z (facing a b c) (pos 0) }
{
    plane::facing(a, b, c) <= 0
}

// One is below 0 and one above.
fn opposite(x: i64, y: i64) -> bool
    ensures { result ≡ opposite x y }
{
    x < 0 && 0 < y || 0 < x && y < 0
}

// The middle of c and d is strictly left of the line of a and b.
fn left_of(a: Place, b: Place, c: Place, d: Place) -> bool
    requires { InRange a × InRange b × InRange c × InRange d }
    ensures { result ≡ lt_z (pos 0) (turn a b c +ℤ turn a b d) }
{
    plane::twice_area(a, b, c) + plane::twice_area(a, b, d) > 0
}

// ---- two arrows

impl End {
    // Its key is below that of b.
    fn lower(self, b: End) -> bool
        ensures { result ≡ lt_z self.key b.key }
    {
        self.key < b.key
    }
}

impl Edge {
    // The key of a is below that of the middle.
    fn past(self, a: End) -> bool
        requires { Close self × Near a }
        ensures { result ≡ lt_z (a.key +ℤ a.key) (self.from.key +ℤ self.to.key) }
    {
        a.key + a.key < self.from.key + self.to.key
    }

    // It is above.
    fn ahead(self, a: End) -> bool
        requires { Close self × Near a }
        ensures { result ≡ lt_z (self.from.key +ℤ self.to.key) (a.key +ℤ a.key) }
    {
        self.from.key + self.to.key < a.key + a.key
    }

    // Both ends have keys below those of both ends of e.
    #[tactic(auto, unfolding(crate::specs::Seen::all_before))]
    fn all_before(self, e: Edge) -> bool
        ensures { result ≡ all_before self e }
    {
        self.from.lower(e.from)
            && self.from.lower(e.to)
            && self.to.lower(e.from)
            && self.to.lower(e.to)
    }

    // The keys of the two do not overlap: then neither meets the other or runs under its middle. Nearly all pairs of a border's arrows are so.
    #[tactic(auto, unfolding(crate::specs::Seen::far))]
    fn far(self, g: Edge) -> bool
        ensures { result ≡ far self g }
    {
        g.all_before(self) || self.all_before(g)
    }

    // c is no end of it, and is on it.
    #[tactic(auto, unfolding(crate::specs::Seen::is_on))]
    fn is_on(self, c: End) -> bool
        requires { Close self × Near c }
        ensures { result ≡ is_on self c }
    {
        c.node != self.from.node
            && c.node != self.to.node
            && in_line(self.from.place, self.to.place, c.place)
            && not_beyond(self.from.place, self.to.place, c.place)
    }

    // The ends of g are strictly on both sides of its line.
    fn parts(self, g: Edge) -> bool
        requires { Close self }
        ensures { result ≡ opposite (turn self.from.place self.to.place g.from.place) (turn self.from.place self.to.place g.to.place) }
    {
        let x = plane::twice_area(self.from.place, self.to.place, g.from.place);
        let y = plane::twice_area(self.from.place, self.to.place, g.to.place);
        opposite(x, y)
    }

    // g begins on it, though in no end of it, or crosses it.
    #[tactic(auto, unfolding(crate::specs::Seen::meet))]
    fn meet(self, g: Edge) -> bool
        requires { Close self × Close g }
        ensures { result ≡ meet self g }
    {
        self.is_on(g.from) || self.parts(g) && g.parts(self)
    }

    // From a to b it rises under the middle.
    #[tactic(auto, unfolding(crate::specs::Seen::rises_under))]
    fn rises_under(self, a: End, b: End) -> bool
        requires { Close self × Near a × Near b }
        ensures { result ≡ rises_under self a b }
    {
        self.past(a) && self.ahead(b) && left_of(a.place, b.place, self.from.place, self.to.place)
    }

    // None where g meets it. Else one more than what g counts under the middle: 2 where it rises there, 0 where it falls, 1 where it does not run there.
    #[tactic(auto, unfolding(crate::specs::Seen::look))]
    fn look(self, g: Edge) -> Option<usize>
        requires { Close self × Close g }
        ensures { result ≡ look self g }
    {
        if self.far(g) {
            Some(1)
        } else if self.meet(g) {
            None
        } else if self.rises_under(g.from, g.to) {
            Some(2)
        } else if self.rises_under(g.to, g.from) {
            Some(0)
        } else {
            Some(1)
        }
    }

    // 1 if it falls.
    #[tactic(auto, unfolding(crate::specs::Seen::falling))]
    fn falls(self) -> usize
        ensures is { result ≡ falling self }
        ensures small { result ≤ 1 }
    {
        usize::from(self.to.lower(self.from))
    }
}

// ---- all arrows

// What arrow j is to e.
fn look_at(nodes: &[i32], scratch: &[u32], e: Edge, j: usize) -> Option<usize>
    requires close { Close e }
    requires j_in_bounds { 2 * j + 2 ≤ length scratch.now }
    requires ends_stand { EndsStand nodes.now (arrow_in scratch.now j) }
    ensures is { result ≡ look_at (place_at nodes.now) scratch.now e j }
    ensures small { AtMost 2 result }
{
    e.look(edge_at(nodes, scratch, j))
}

// None of the first b arrows, e among them, meets e; and under its middle they count 1 if e falls and 0 if not, so that no row lies just right of it.
fn is_fine(nodes: &[i32], scratch: &[u32], b: usize, e: Edge) -> bool
    requires listing { Listing nodes.now scratch.now b }
    requires close { Close e }
    ensures { result ≡ fine (look_at (place_at nodes.now) scratch.now e) b (falling e) }
{
    let mut sum = 0;
    for j in 0..b {
        let Some(k) = look_at(nodes, scratch, e, j) else {
            return false;
        };
        sum += k;
    }
    sum == b + e.falls()
}

// That is so for arrow i.
fn is_free(nodes: &[i32], scratch: &[u32], b: usize, i: usize) -> bool
    requires listing { Listing nodes.now scratch.now b }
    requires i_lt_b { i < b }
    ensures { not_free (place_at nodes.now) scratch.now b i ≡ not result }
{
    is_fine(nodes, scratch, b, edge_at(nodes, scratch, i))
}

// Every arrow is held against all: b · b looks.
fn all_free(nodes: &[i32], scratch: &[u32], b: usize) -> bool
    requires { Listing nodes.now scratch.now b }
    ensures { result ≡ all_free (place_at nodes.now) scratch.now b }
{
    (0..b).all(|i| is_free(nodes, scratch, b, i))
}

// ---- the border

// Whether the border of the first t rows is clear. It says no as well where it has too many arrows for the notes of scratch, which are all
// that is written: the index of the rows stands there, and stays.
pub fn is_clear(nodes: &[i32], rows: &[u32], scratch: &mut [u32], t: usize) -> bool
    requires ready_2 { Ready scratch.old (length nodes.now / 4) rows.now t }
    requires by_index { (i : ℕ) → i < t → Standing nodes.now (row_at rows.now i) }
    ensures ready { Ready scratch.new (length nodes.now / 4) rows.now t }
    ensures clear { result ≡ true → clear (place_at nodes.now) (border (items (row_at rows.now) 0 t)) ≡ true }
{
    match listing::list_border(rows, scratch, nodes.len() / 4, t) {
        Some(b) => all_free(nodes, scratch, b),
        None => false,
    }
}
