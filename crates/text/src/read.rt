// Digits and numbers, read from a line.
ghost use Rattle.std.specs.Prelude.{◌≡◌, ℕ, ◌+◌, ◌*◌, ◌^◌, ◌≤◌, ◌<◌, length};
ghost use Rattle.lists.specs.Lists.{all};
ghost use Rattle.text.specs.Digits as d;
ghost use Rattle.text.specs.Lines.{correction_in, node_in, row_in};

use meaning::{Correction, Node, Place, Tri};

// Whether a byte is a digit.
#[tactic(auto, unfolding(crate::specs::Digits::is_digit))]
fn is_digit(b: u8) -> bool
    ensures { result ≡ d.is_digit b }
{
    matches!(b, b'0'..=b'9' | b'a'..=b'f')
}

// What a digit is worth.
#[tactic(auto, unfolding(crate::specs::Digits::worth))]
fn worth(b: u8) -> u32
    ensures value { result ≡ d.worth b }
    ensures small { result < 16 }
{
    match b {
        b'0'..=b'9' => u32::from(b - b'0'),
        b'a'..=b'f' => u32::from(b - b'a' + 10),
        _ => 0,
    }
}

// Whether all of the text are digits.
pub fn all_digits(text: &[u8]) -> bool
    ensures { result ≡ all d.is_digit text.now }
{
    text.iter().all(|&b| is_digit(b))
}

// The number in the D digits from k on.
pub fn number<const D: usize>(text: &[u8], k: usize) -> u32
    requires few { D ≤ 8 }
    requires in_text { k + D ≤ length text.now }
    ensures value { result ≡ d.number D text.now k }
    ensures small { result < 16 ^ D }
{
    let mut v = 0;
    for i in 0..D {
        v = 16 * v + worth(text[k + i]);
    }
    v
}

// Two's complement: the number that eight digits stand for.
fn signed8(v: u32) -> i32
    ensures { result ≡ d.signed 8 v }
{
    v.cast_signed()
}

// The number that four digits stand for.
fn signed4(v: u32) -> i32
    requires { v < 65_536 }
    ensures { result ≡ d.signed 4 v }
{
    i32::from((v as u16).cast_signed())
}

// A correction: numbers i and i + 1 of four digits.
pub fn correction_in(fields: &[u8], i: usize) -> Correction
    requires { 4 * i + 8 ≤ length fields.now }
    ensures { result ≡ correction_in fields.now i }
{
    Correction {
        dx: signed4(number::<4>(fields, 4 * i)),
        dy: signed4(number::<4>(fields, 4 * (i + 1))),
    }
}

// The fields of frame 01.
pub fn node_in(fields: &[u8]) -> Node
    requires { length fields.now ≡ 24 }
    ensures { result ≡ node_in fields.now }
{
    Node {
        place: Place {
            x: signed8(number::<8>(fields, 0)),
            y: signed8(number::<8>(fields, 8)),
        },
        correction: correction_in(fields, 4),
    }
}

// The fields of frame 02.
pub fn row_in(fields: &[u8]) -> Tri
    requires { length fields.now ≡ 12 }
    ensures { result ≡ row_in fields.now }
{
    Tri {
        p: number::<4>(fields, 0),
        q: number::<4>(fields, 4),
        r: number::<4>(fields, 8),
    }
}
