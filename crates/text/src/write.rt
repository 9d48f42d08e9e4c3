// Numbers, rows and answers, written into a buffer. Each function that takes a place to write at says the next one.
ghost use Rattle.std.specs.Prelude.{◌≡◌, [], ◌∷◌, ◌++◌, ◌+◌, ◌*◌, ◌%◌, ◌≤◌, length};
ghost use Rattle.lists.specs.Lists.{joined};
ghost use Rattle.lists.specs.Search.{items};
ghost use Rattle.meaning.specs.Tables.{node_at, row_at};
ghost use Rattle.text.specs.Digits as d;
ghost use Rattle.text.specs.Lines.{ff_line, red_field, answer_line, node_line, row_line, all_lines};
ghost use Rattle.text.specs.Writing.{wrote, writes};
ghost use Rattle.text.specs.Out.{Room, Further, held};

use meaning::{Correction, Node, Place, Tinted, Tri};

// The last digit of v.
#[tactic(auto, unfolding(crate::specs::Digits::hex_digit))]
fn hex_digit(v: usize) -> u8
    ensures { result ≡ d.hex_digit (v % 16) }
{
    let d = (v % 16) as u8;
    if d < 10 { b'0' + d } else { b'a' + (d - 10) }
}

// Two's complement: the worth of the eight digits that stand for z.
fn unsigned(z: i32) -> u32
    ensures { result ≡ d.unsigned z }
{
    z.cast_unsigned()
}

// A buffer, and the place in it of the next byte.
#[derive(Drop)]
struct Out<'a> {
    buf: &'a mut [u8],
    at: usize,
}

impl<'a> Out<'a> {
    fn byte(&mut self, b: u8)
        requires { Room self.old 1 }
        ensures next { Further self.old self.new 1 }
        ensures text { held self.new ≡ writes (held self.old) (b ∷ []) }
    {
        self.buf[self.at] = b;
        self.at += 1;
    }

    // The last two digits of v.
    fn two(&mut self, v: usize)
        requires { Room self.old 2 }
        ensures next { Further self.old self.new 2 }
        ensures text { held self.new ≡ writes (held self.old) (d.hex 2 v) }
    {
        self.byte(hex_digit(v / 16));
        self.byte(hex_digit(v));
    }

    // The last D digits of v, two at a time.
    fn hex<const D: usize>(&mut self, v: usize)
        requires few { D ≤ 8 }
        requires twos { D % 2 ≡ 0 }
        requires room { Room self.old D }
        ensures next { Further self.old self.new D }
        ensures text { held self.new ≡ writes (held self.old) (d.hex D v) }
    {
        for w in (0..D / 2).rev() {
            self.two(v >> (8 * w));
        }
    }

    // W8's field, two digits, which the answer of `0a` alone has.
    fn red(&mut self, kind: u32, red: u32)
        requires { Room self.old 2 }
        ensures next { Further self.old self.new 2 }
        ensures text { held self.new ≡ writes (held self.old) (red_field kind red) }
    {
        if kind == 10 {
            self.hex::<2>(red as usize);
        }
    }

    // The last fields of an answer: the passes, the culprit, and W8's field where there is one.
    fn last(&mut self, kind: u32, a: Tinted)
        requires { Room self.old 10 }
        ensures next { Further self.old self.new 10 }
        ensures text { held self.new ≡ writes (held self.old) (d.hex 4 a.answer.passes ++ d.hex 4 a.answer.culprit ++ red_field kind a.red) }
    {
        self.hex::<4>(a.answer.passes);
        self.hex::<4>(a.answer.culprit);
        self.red(kind, a.red);
    }

    fn place(&mut self, a: Place)
        requires { Room self.old 16 }
        ensures next { Further self.old self.new 16 }
        ensures text { held self.new ≡ writes (held self.old) (d.hex 8 (d.unsigned a.x) ++ d.hex 8 (d.unsigned a.y)) }
    {
        self.hex::<8>(unsigned(a.x) as usize);
        self.hex::<8>(unsigned(a.y) as usize);
    }

    fn correction(&mut self, c: Correction)
        requires { Room self.old 8 }
        ensures next { Further self.old self.new 8 }
        ensures text { held self.new ≡ writes (held self.old) (d.hex 4 (d.unsigned c.dx) ++ d.hex 4 (d.unsigned c.dy)) }
    {
        self.hex::<4>(unsigned(c.dx) as usize);
        self.hex::<4>(unsigned(c.dy) as usize);
    }

    // A node as frame 01.
    fn node(&mut self, a: Node)
        requires { Room self.old 27 }
        ensures next { Further self.old self.new 27 }
        ensures text { held self.new ≡ writes (held self.old) (node_line a) }
    {
        self.hex::<2>(1);
        self.place(a.place);
        self.correction(a.correction);
        self.byte(b'\n');
    }

    // A triangle as frame 02.
    fn row(&mut self, w: Tri)
        requires { Room self.old 15 }
        ensures next { Further self.old self.new 15 }
        ensures text { held self.new ≡ writes (held self.old) (row_line w) }
    {
        self.hex::<2>(2);
        self.hex::<4>(w.p as usize);
        self.hex::<4>(w.q as usize);
        self.hex::<4>(w.r as usize);
        self.byte(b'\n');
    }

    // The first n nodes. Stays: a trait for what is one line would be longer than this loop and the next.
    fn nodes(&mut self, nodes: &[i32], n: usize)
        requires n_in_bounds { 4 * n ≤ length nodes.now }
        requires room { Room self.old (27 * n) }
        ensures next { Further self.old self.new (27 * n) }
        ensures text { held self.new ≡ writes (held self.old) (joined node_line (items (node_at nodes.now) 0 n)) }
    {
        for i in 0..n {
            self.node(tables::node_at(nodes, i));
        }
    }

    // The first t rows.
    fn rows(&mut self, rows: &[u32], t: usize)
        requires t_in_bounds { 3 * t ≤ length rows.now }
        requires room { Room self.old (15 * t) }
        ensures next { Further self.old self.new (15 * t) }
        ensures text { held self.new ≡ writes (held self.old) (joined row_line (items (row_at rows.now) 0 t)) }
    {
        for i in 0..t {
            self.row(tables::row_at(rows, i));
        }
    }
}

// A fixed text.
pub fn put_text(out: &mut [u8], at: usize, text: &[u8]) -> usize
    requires { at + length text.now ≤ length out.old }
    ensures next { result ≡ at + length text.now }
    ensures text { wrote result out.new ≡ writes (wrote at out.old) text.now }
{
    let end = at + text.len();
    out[at..end].copy_from_slice(text);
    end
}

// `ff`: the answer to what is malformed or too early or too late.
pub fn put_ff(out: &mut [u8]) -> usize
    requires { 3 ≤ length out.old }
    ensures { wrote result out.new ≡ writes (wrote 0 out.old) ff_line }
{
    put_text(out, 0, b"ff\n")
}

// The answer of frames 03 to 06 and 08 to 0a.
pub fn put_answer(out: &mut [u8], kind: u32, a: Tinted) -> usize
    requires { 23 ≤ length out.old }
    ensures { wrote result out.new ≡ writes (wrote 0 out.old) (answer_line kind a) }
{
    let mut line = Out { buf: out, at: 0 };
    line.hex::<2>(kind as usize);
    line.hex::<2>(a.answer.number as usize);
    line.hex::<4>(a.answer.n);
    line.hex::<4>(a.answer.t);
    line.last(kind, a);
    line.byte(b'\n');
    line.at
}

// All nodes, then all rows.
pub fn put_all(out: &mut [u8], nodes: &[i32], rows: &[u32], n: usize, t: usize) -> usize
    requires n_in_bounds { 4 * n ≤ length nodes.now }
    requires t_in_bounds { 3 * t ≤ length rows.now }
    requires t_in_bounds_2 { 27 * n + 15 * t ≤ length out.old }
    ensures { wrote result out.new ≡ writes (wrote 0 out.old) (all_lines nodes.now rows.now n t) }
{
    let mut lines = Out { buf: out, at: 0 };
    lines.nodes(nodes, n);
    lines.rows(rows, t);
    lines.at
}
