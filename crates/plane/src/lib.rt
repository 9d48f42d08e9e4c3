// Nodes in the plane: the ranges of a place and of a correction, twice-areas.
#![tactic(auto)]

ghost use Rattle.std.specs.Prelude.{◌≡◌, ◌+ℤ◌, ◌-ℤ◌, ◌*ℤ◌};
ghost use Rattle.meaning.specs.Mesh.{turn};
ghost use Rattle.meaning.specs.Lawful.{InRange, far, outside, too_long, beyond, node_outside};
ghost use Rattle.meaning.specs.Good.{same_z, is_middle};
ghost use Rattle.meaning.specs.Proper.{facing};
ghost use Rattle.plane.specs.Plane.{Short, Wide, Spans, flat_tri};

use meaning::{Correction, Node, Place};

// From one place to another.
#[derive(Clone, Copy)]
struct Span {
    x: i64,
    y: i64,
}

fn less(a: i32, b: i32) -> i64
    ensures { result ≡ a -ℤ b }
{
    i64::from(a) - i64::from(b)
}

impl Span {
    fn from_to(a: Place, b: Place) -> Span
        requires { InRange a }
        ensures { Spans a b result }
    {
        Span {
            x: less(b.x, a.x),
            y: less(b.y, a.y),
        }
    }

    fn cross(self, v: Span) -> i64
        requires { Short self × Wide v }
        ensures { result ≡ self.x *ℤ v.y -ℤ v.x *ℤ self.y }
    {
        self.x * v.y - v.x * self.y
    }

    fn dot(self, v: Span) -> i64
        requires { Short self × Short v }
        ensures { result ≡ self.x *ℤ v.x +ℤ self.y *ℤ v.y }
    {
        self.x * v.x + self.y * v.y
    }
}

// Twice the signed area of the triangle a, b, c. c may stand anywhere.
pub fn twice_area(a: Place, b: Place, c: Place) -> i64
    requires { InRange a × InRange b }
    ensures { result ≡ turn a b c }
{
    Span::from_to(a, b).cross(Span::from_to(a, c))
}

// W7: for c on the line of a and b it is below 0 between them, 0 at either, and above 0 elsewhere.
pub fn facing(a: Place, b: Place, c: Place) -> i64
    requires { InRange a × InRange b × InRange c }
    ensures { result ≡ facing a b c }
{
    Span::from_to(c, a).dot(Span::from_to(c, b))
}

// 6: the twice-area is not above 0.
#[tactic(auto, unfolding(crate::specs::Plane::flat_tri))]
pub fn flat(a: Place, b: Place, c: Place) -> bool
    requires { InRange a × InRange b × InRange c }
    ensures { result ≡ flat_tri a b c }
{
    twice_area(a, b, c) <= 0
}

fn far(x: i32) -> bool
    ensures { result ≡ far x }
{
    !(-1_048_576..=1_048_576).contains(&x)
}

// 3: a coordinate is outside its range.
pub fn outside(a: Place) -> bool
    ensures { result ≡ outside a }
{
    far(a.x) || far(a.y)
}

fn too_long(x: i32) -> bool
    ensures { result ≡ too_long x }
{
    !(-32_768..=32_767).contains(&x)
}

// 3: a part of a correction is outside its range.
pub fn beyond(c: Correction) -> bool
    ensures { result ≡ beyond c }
{
    too_long(c.dx) || too_long(c.dy)
}

// 3: a node is at fault by its place or by its correction.
pub fn node_outside(a: Node) -> bool
    ensures { result ≡ node_outside a }
{
    outside(a.place) || beyond(a.correction)
}

// z is half of b + c, exactly.
fn halves(z: i32, b: i32, c: i32) -> bool
    ensures { result ≡ same_z (z +ℤ z) (b +ℤ c) }
{
    2 * i64::from(z) == i64::from(b) + i64::from(c)
}

// G3: m is the exact midpoint of a and b.
pub fn is_middle(m: Place, a: Place, b: Place) -> bool
    ensures { result ≡ is_middle m a b }
{
    halves(m.x, a.x, b.x) && halves(m.y, a.y, b.y)
}
