// Coordinates along one axis.
ghost use Rattle.std.specs.Prelude.{◌≡◌, ◌≤◌, nat_abs};
ghost use Rattle.meaning.specs.Lawful.{InRange};
ghost use Rattle.meaning.specs.Tables.{place_at};
ghost use Rattle.laws.specs.Meshes.{Stands, Standing};
ghost use Rattle.columns.specs.Axis.{is_y};
ghost use Rattle.columns.specs.Columns.{shifted, along};
ghost use Rattle.columns.specs.Coords.{corners_of};

use crate::Axis;
use meaning::{Place, Tri};

// What the three corners of a row have along an axis.
#[derive(Clone, Copy)]
pub struct Three {
    pub p: u32,
    pub q: u32,
    pub r: u32,
}

// A coordinate in range, as a number that is not below 0. One that is out of range counts as the nearest that is in.
fn shifted(z: i32) -> u32
    ensures is { nat_abs z ≤ 1_048_576 → result ≡ shifted z }
    ensures most { result ≤ 2_097_152 }
{
    (z.clamp(-1_048_576, 1_048_576) + 1_048_576).cast_unsigned()
}

pub fn along(axis: Axis, a: Place) -> u32
    ensures is { InRange a → result ≡ along (is_y axis) a }
    ensures most { result ≤ 2_097_152 }
{
    shifted(match axis {
        Axis::X => a.x,
        Axis::Y => a.y,
    })
}

// Of node k.
fn along_at(nodes: &[i32], axis: Axis, k: u32) -> u32
    requires { Stands nodes.now k }
    ensures { result ≡ along (is_y axis) (place_at nodes.now k) }
{
    along(axis, tables::corner(nodes, k))
}

pub fn corners(nodes: &[i32], axis: Axis, w: Tri) -> Three
    requires { Standing nodes.now w }
    ensures { result ≡ corners_of (is_y axis) (place_at nodes.now) w }
{
    Three {
        p: along_at(nodes, axis, w.p),
        q: along_at(nodes, axis, w.q),
        r: along_at(nodes, axis, w.r),
    }
}
