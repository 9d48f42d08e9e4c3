// How far the nodes reach along an axis, and the columns that are cut from it.
ghost use Rattle.std.specs.Prelude.{◌≡◌, ◌+◌, ◌-◌, ◌*◌, ◌≤◌, ◌<◌, length};
ghost use Rattle.columns.specs.Coords.{Reaches};

use crate::{Axis, Scale, coords};

// The least and the greatest coordinate.
#[derive(Clone, Copy)]
pub struct Extent {
    pub least: u32,
    pub most: u32,
}

impl Extent {
    // v is taken in.
    fn wider(self, v: u32) -> Extent
        requires { Reaches self × (v ≤ 2_097_152) }
        ensures { Reaches result }
    {
        Extent {
            least: self.least.min(v),
            most: self.most.max(v),
        }
    }

    // How far the nodes reach.
    pub fn range(self) -> u32
        requires { Reaches self }
        ensures is { result ≡ self.most - self.least }
        ensures most { result ≤ 2_097_152 }
    {
        self.most - self.least
    }

    // n columns.
    pub fn cut(self, axis: Axis, n: usize) -> Scale
        requires n_nonzero { 0 < n }
        requires reaches { Reaches self }
        ensures count { result.count ≡ n }
        ensures width { 0 < result.width }
    {
        Scale {
            axis,
            from: self.least,
            width: width_of(self.range(), n),
            count: n,
        }
    }
}

// Of the first n nodes.
pub fn extent_of(nodes: &[i32], n: usize, axis: Axis) -> Extent
    requires n_nonzero { 0 < n }
    requires n_in_bounds { 4 * n ≤ length nodes.now }
    ensures { Reaches result }
{
    let first = coords::along(axis, tables::place_at(nodes, 0));
    let mut e = Extent {
        least: first,
        most: first,
    };
    for k in 1..n {
        e = e.wider(coords::along(axis, tables::place_at(nodes, k)));
    }
    e
}

// How wide a column is, where n of them hold a range.
fn width_of(range: u32, n: usize) -> u32
    requires n_nonzero { 0 < n }
    requires range_bound { range ≤ 2_097_152 }
    ensures { 0 < result }
{
    (range as usize / n) as u32 + 1
}
