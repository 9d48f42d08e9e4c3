// W7: the rows of a lawful mesh compared two by two, those alone whose boxes can meet: how grave it is.
#![tactic(auto)]

ghost use Rattle.std.specs.Prelude.{◌≡◌, ℕ, ◌+◌, ◌*◌, ◌≤◌, ◌<◌, length, replicate};
ghost use Rattle.meaning.specs.Lawful.{Lawful};
ghost use Rattle.meaning.specs.Tables.{place_at};
ghost use Rattle.laws.specs.Meshes.{mesh_at};
ghost use Rattle.pairs.specs.Gravity.{gravity};
ghost use Rattle.sweep.specs.Severity.{severity};
ghost use Rattle.sweep.specs.Highest.{highest};
ghost use Rattle.sweep.specs.Sweep.{compared, visited, reach, swept_place, swept};
ghost use Rattle.sweep.specs.Lined.{Known, KnownAt, Lined, LinedAt};

use columns::{Boxed, Scale};
use pairs::Grave;

// The tables, with rows in the order of the columns in scratch.
#[derive(Clone, Copy)]
struct Sweep<'a> {
    nodes: &'a [i32],
    rows: &'a [u32],
    scratch: &'a [u32],
    scale: Scale,
}

impl Sweep<'_> {
    // How grave it is of two rows; they are apart where their extents do not meet.
    #[tactic(auto, unfolding(crate::specs::Sweep::compared))]
    fn compare(self, b: Boxed, c: Boxed) -> Grave
        requires { Known self.nodes.now self.rows.now b.row × Known self.nodes.now self.rows.now c.row }
        ensures { let e = self.entry in gravity result ≡ compared (place_at e.nodes.now) e.rows.now b c }
    {
        if c.low <= b.high && b.low <= c.high {
            pairs::grave_at(self.nodes, self.rows, b.row as usize, c.row as usize)
        } else {
            Grave::Apart
        }
    }

    // Of the row at b and the one at place q.
    fn visit(self, b: Boxed, q: usize) -> Grave
        requires known { Known self.nodes.now self.rows.now b.row }
        requires known_at { KnownAt self.nodes.now self.rows.now self.scratch.now self.scale.count q }
        ensures { let e = self.entry in gravity result ≡ visited (place_at e.nodes.now) e.rows.now e.scratch.now e.scale.count b q }
    {
        self.compare(b, columns::box_at(self.scratch, self.scale.count, q))
    }

    // The gravest of the row at b and those at the places from first to last - 1.
    fn worst_behind(self, b: Boxed, first: usize, last: usize) -> Grave
        requires known { Known self.nodes.now self.rows.now b.row }
        requires by_index { (q : ℕ) → q < last → KnownAt self.nodes.now self.rows.now self.scratch.now self.scale.count q }
        ensures { let e = self.entry in gravity result ≡ highest (visited (place_at e.nodes.now) e.rows.now e.scratch.now e.scale.count b) first last }
    {
        let mut worst = Grave::Apart;
        for q in first..last {
            worst = worst.max(self.visit(b, q));
        }
        worst
    }

    // ---- all places

    // Where the last column that row i reaches ends.
    #[tactic(auto, unfolding(crate::specs::Sweep::reach))]
    fn reach_of(self, i: usize) -> usize
        requires known { Known self.nodes.now self.rows.now i }
        requires width_nonzero { 0 < self.scale.width }
        requires count_nonzero { 0 < self.scale.count }
        requires count_in_bounds { self.scale.count ≤ length self.scratch.now }
        ensures { let e = self.entry in result ≡ reach e.scale (place_at e.nodes.now) e.rows.now e.scratch.now i }
    {
        let high = columns::high(self.nodes, self.rows, self.scale.axis, i);
        columns::end_of(self.scratch, self.scale.column(high))
    }

    // The gravest of the row at place p and those behind it.
    #[tactic(auto, unfolding(crate::specs::Sweep::swept_place))]
    fn sweep_place(self, p: usize) -> Grave
        requires { LinedAt self.scale self.nodes.now self.rows.now self.scratch.now p }
        ensures { let e = self.entry in gravity result ≡ swept_place e.scale (place_at e.nodes.now) e.rows.now e.scratch.now p }
    {
        let b = columns::box_at(self.scratch, self.scale.count, p);
        self.worst_behind(b, p + 1, self.reach_of(b.row as usize))
    }

    // The gravest of the first t places.
    fn sweep(self, t: usize) -> Grave
        requires { Lined self.scale self.nodes.now self.rows.now self.scratch.now t }
        ensures { let e = self.entry in gravity result ≡ swept e.scale (place_at e.nodes.now) e.rows.now e.scratch.now t }
    {
        let mut worst = Grave::Apart;
        for p in 0..t {
            worst = worst.max(self.sweep_place(p));
        }
        worst
    }
}

// ---- a lawful mesh

// The gravest of any two rows: touching draws 11, lapping 12. Scratch is all zero before; what it holds after does not matter.
pub fn severity(nodes: &[i32], rows: &[u32], scratch: &mut [u32], n: usize, t: usize) -> Grave
    requires lawful { Lawful (mesh_at nodes.now rows.now n t) }
    requires n_in_bounds { 4 * n ≤ length nodes.now }
    requires t_in_bounds { 3 * t ≤ length rows.now }
    requires t_bound { t ≤ 262_144 }
    requires t_in_bounds_2 { n + 3 * t ≤ length scratch.old }
    requires scratch_value { scratch.old ≡ replicate (length scratch.old) 0 }
    ensures { gravity result ≡ severity (mesh_at nodes.now rows.now n t) }
{
    if t == 0 {
        return Grave::Apart;
    }
    let scale = columns::scale_of(nodes, n);
    columns::order(nodes, rows, scratch, scale, t);
    let lined = Sweep {
        nodes,
        rows,
        scratch,
        scale,
    };
    lined.sweep(t)
}
