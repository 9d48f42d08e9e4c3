// W6: the mean of three corrections by weights, rounded down, in 64 bits.
#![tactic(auto)]

ghost use Rattle.std.specs.Prelude.{◌≡◌, ◌≤◌, pos, nat_abs, ◌*ℤ◌, ◌<ℤ◌};
ghost use Rattle.meaning.specs.Lawful.{InBounds};
ghost use Rattle.meaning.specs.Rounding.{floor};
ghost use Rattle.weighing.specs.Weighing.{sum_of, weighed, mean_of, means, Balanced, Part, Weighable};

use meaning::Correction;

// The weights of the corners p, q and r.
#[derive(Clone, Copy)]
pub struct Weights {
    pub p: i64,
    pub q: i64,
    pub r: i64,
}

impl Weights {
    fn sum(self) -> i64
        requires { Balanced self }
        ensures { result ≡ sum_of self }
    {
        self.p + self.q + self.r
    }

    // The values a, b and c at the corners p, q and r.
    fn weighed(self, a: i32, b: i32, c: i32) -> i64
        requires { Weighable self a b c }
        ensures { result ≡ weighed self a b c }
    {
        times(self.p, a) + times(self.q, b) + times(self.r, c)
    }

    fn mean_of(self, a: i32, b: i32, c: i32) -> i32
        requires { Weighable self a b c }
        ensures { result ≡ mean_of self a b c }
    {
        floor(self.weighed(a, b, c), self.sum()) as i32
    }
}

fn times(v: i64, x: i32) -> i64
    requires { (nat_abs v ≤ 8_796_093_022_208) × Part x }
    ensures { result ≡ v *ℤ x }
{
    v * i64::from(x)
}

// s / d, rounded down.
fn floor(s: i64, d: i64) -> i64
    requires { (pos 0 <ℤ d) × (nat_abs s ≤ 864_691_128_455_135_232) }
    ensures { result ≡ floor s d }
{
    s.div_euclid(d)
}

// Each part by itself.
pub fn mean(v: Weights, a: Correction, b: Correction, c: Correction) -> Correction
    requires { Balanced v × InBounds a × InBounds b × InBounds c }
    ensures { result ≡ means v a b c }
{
    Correction {
        dx: v.mean_of(a.dx, b.dx, c.dx),
        dy: v.mean_of(a.dy, b.dy, c.dy),
    }
}
