// The reader: lines that arrive in pieces, cut anywhere. The caller lends the line buffer and the tables, and carries `Carried` from call
// to call: `begin`, then `take` for each piece, then `end`. A call writes one answer at most, so that a buffer of 32,768 bytes holds it.
#![tactic(auto)]

ghost use Rattle.std.specs.Prelude.{true, ◌++◌, [], ◌≡◌, ◌≤◌, eqb, length};
ghost use Rattle.lists.specs.Lists.{cases};
ghost use Rattle.text.specs.Lines.{ff_line};
ghost use Rattle.text.specs.Writing.{wrote, writes};
ghost use Rattle.protocol.specs.Program.{opening, closing};
ghost use Rattle.pieces.specs.Reader as r;
ghost use Rattle.reader.specs.Values as v;

use protocol::Session;
use text::write;

// What is carried beside the line buffer and the tables: how many bytes of the unfinished line stand in the buffer, whether the end was
// announced, and the session.
#[derive(Clone, Copy)]
pub struct Carried {
    pub used: usize,
    pub ended: bool,
    pub session: Session,
}

impl Carried {
    // Of a reader that has read nothing.
    pub fn new() -> Carried
        ensures { result ≡ v.fresh }
    {
        Carried {
            used: 0,
            ended: false,
            session: Session::new(),
        }
    }
}

// After a byte: what is carried, and how many bytes were written.
#[derive(Clone, Copy)]
pub struct Heard {
    pub carried: Carried,
    pub written: usize,
}

// A call's answer: its number, how many bytes of the piece were taken, how many were written, and what is carried on.
// Stays: the number is what the exported calls return (`r.tells` in their contracts).
#[derive(Clone, Copy)]
pub struct Took {
    pub number: u32,
    pub taken: usize,
    pub written: usize,
    pub carried: Carried,
}

// ---- the line buffer

// One more byte of a line.
fn longer(line: &mut [u8], used: usize, b: u8) -> usize
    requires { length line.old ≡ 255 }
    ensures { r.unfinished result line.new ≡ r.longer (r.unfinished used line.old) b }
{
    if used < 255 {
        line[used] = b;
        used + 1
    } else {
        used
    }
}

// Nothing of a line is kept.
fn wipe(line: &mut [u8], used: usize)
    requires { used ≤ length line.old }
    ensures { r.unfinished 0 line.new ≡ r.wiped (r.unfinished used line.old) }
{
    line[..used].fill(0);
}

// ---- a byte, and the bytes of a piece

// Stays: the buffers and the tables are lent as slices, one by one: the project's rule.

// The end byte has the line answered into `out`; any other joins it.
fn take_byte(
    b: u8,
    carried: Carried,
    line: &mut [u8],
    nodes: &mut [i32],
    rows: &mut [u32],
    scratch: &mut [u32],
    out: &mut [u8],
) -> Heard
    requires line_len { length line.old ≡ 255 }
    requires used_bound { carried.used ≤ 255 }
    ensures out_after { v.heard result line.new nodes.new rows.new scratch.new out.new ≡ r.byte_read (v.carries carried line.old nodes.old rows.old scratch.old) b out.old }
    ensures used_bound_2 { result.carried.used ≤ 255 }
{
    if b == b'\n' {
        let answered = frames::line(
            &line[..carried.used],
            nodes,
            rows,
            scratch,
            carried.session,
            out,
        );
        wipe(line, carried.used);
        Heard {
            carried: Carried {
                used: 0,
                session: answered.session,
                ..carried
            },
            written: answered.written,
        }
    } else {
        Heard {
            carried: Carried {
                used: longer(line, carried.used, b),
                ..carried
            },
            written: 0,
        }
    }
}

// The bytes of a piece, up to the first that has something written.
fn take_bytes(
    piece: &[u8],
    carried: Carried,
    line: &mut [u8],
    nodes: &mut [i32],
    rows: &mut [u32],
    scratch: &mut [u32],
    out: &mut [u8],
) -> Took
    requires piece_len_bound { length piece.now ≤ 512 }
    requires line_len { length line.old ≡ 255 }
    requires used_bound { carried.used ≤ 255 }
    ensures { v.took result line.new nodes.new rows.new scratch.new out.new ≡ r.further (r.unchanged 0 (v.carries carried line.old nodes.old rows.old scratch.old) out.old) piece.now }
{
    let mut heard = Heard {
        carried,
        written: 0,
    };
    for (i, &b) in piece.iter().enumerate() {
        heard = take_byte(b, heard.carried, line, nodes, rows, scratch, out);
        if heard.written != 0 {
            return Took {
                number: 0,
                taken: i + 1,
                written: heard.written,
                carried: heard.carried,
            };
        }
    }
    Took {
        number: 0,
        taken: piece.len(),
        written: 0,
        carried: heard.carried,
    }
}

// ---- the calls

// Whether all that is lent has its size, and no more of the line buffer is used than there is.
#[tactic(auto, unfolding(pieces::specs::Reader::fits))]
fn fits(
    ll: usize,
    nl: usize,
    rl: usize,
    sl: usize,
    ol: usize,
    used: usize,
    session: Session,
) -> bool
    ensures { result ≡ r.fits ll nl rl sl ol used session }
{
    ll == 255 && used <= 255 && frames::whole(nl, rl, sl, ol, session)
}

// A call that changes nothing.
fn unchanged(number: u32, carried: Carried) -> Took
    ensures { result ≡ v.nothing number carried }
{
    Took {
        number,
        taken: 0,
        written: 0,
        carried,
    }
}

// The first line.
fn put_first(out: &mut [u8]) -> usize
    requires { 32 ≤ length out.old }
    ensures { wrote result out.new ≡ writes (wrote 0 out.old) opening }
{
    write::put_text(out, 0, b"mesh lines 1\n")
}

// Begins: the opening line, on tables that are all zero after.
pub fn begin(
    line: &mut [u8],
    nodes: &mut [i32],
    rows: &mut [u32],
    scratch: &mut [u32],
    out: &mut [u8],
) -> Took
    ensures out_after { v.took result line.new nodes.new rows.new scratch.new out.new ≡ r.begin_out line.old nodes.old rows.old scratch.old out.old }
    ensures written_bound { result.written ≤ 32768 }
{
    let carried = Carried::new();
    if !fits(
        line.len(),
        nodes.len(),
        rows.len(),
        scratch.len(),
        out.len(),
        carried.used,
        carried.session,
    ) {
        return unchanged(1, carried);
    }
    line.fill(0);
    nodes.fill(0);
    rows.fill(0);
    scratch.fill(0);
    Took {
        number: 0,
        taken: 0,
        written: put_first(out),
        carried,
    }
}

// Whether a piece of this length is refused as 17.
#[tactic(auto, unfolding(pieces::specs::Reader::untimely))]
fn untimely(ended: bool, length: usize) -> bool
    ensures { result ≡ r.untimely ended length }
{
    ended || 512 < length
}

// A piece, where all that is lent has its size.
fn take_piece(
    piece: &[u8],
    carried: Carried,
    line: &mut [u8],
    nodes: &mut [i32],
    rows: &mut [u32],
    scratch: &mut [u32],
    out: &mut [u8],
) -> Took
    requires line_len { length line.old ≡ 255 }
    requires used_bound { carried.used ≤ 255 }
    ensures { v.took result line.new nodes.new rows.new scratch.new out.new ≡ r.piece_read (v.carries carried line.old nodes.old rows.old scratch.old) piece.now out.old }
{
    if untimely(carried.ended, piece.len()) {
        return unchanged(17, carried);
    }
    take_bytes(piece, carried, line, nodes, rows, scratch, out)
}

// Takes a piece of 0 to 512 bytes, up to the first line that has an answer: what is left of it is to be handed over again. A longer one, or
// any after the end, is refused as 17; what is lent in another size as 1. A refusal changes nothing.
pub fn take(
    piece: &[u8],
    carried: Carried,
    line: &mut [u8],
    nodes: &mut [i32],
    rows: &mut [u32],
    scratch: &mut [u32],
    out: &mut [u8],
) -> Took
    ensures out_after { v.took result line.new nodes.new rows.new scratch.new out.new ≡ r.take_out (v.carries carried line.old nodes.old rows.old scratch.old) piece.now out.old }
    ensures taken_in_bounds { result.taken ≤ length piece.now }
    ensures written_bound { result.written ≤ 32768 }
{
    if !fits(
        line.len(),
        nodes.len(),
        rows.len(),
        scratch.len(),
        out.len(),
        carried.used,
        carried.session,
    ) {
        return unchanged(1, carried);
    }
    take_piece(piece, carried, line, nodes, rows, scratch, out)
}

// The last lines: `ff` if a line waits for its end byte, then the closing line.
fn put_last(used: usize, out: &mut [u8]) -> usize
    requires { 32 ≤ length out.old }
    ensures { wrote result out.new ≡ writes (wrote 0 out.old) (cases (eqb used 0) [] ff_line ++ closing) }
{
    if used == 0 {
        write::put_text(out, 0, b"end\n")
    } else {
        let k = write::put_text(out, 0, b"ff\n");
        write::put_text(out, k, b"end\n")
    }
}

// Announces the end of the input. Announced once more, nothing changes. What is lent in another size is refused as 1.
pub fn end(
    carried: Carried,
    line: &mut [u8],
    nodes: &[i32],
    rows: &[u32],
    scratch: &[u32],
    out: &mut [u8],
) -> Took
    ensures out_after { v.took result line.new nodes.now rows.now scratch.now out.new ≡ r.end_out (v.carries carried line.old nodes.now rows.now scratch.now) out.old }
    ensures written_bound { result.written ≤ 32768 }
{
    if !fits(
        line.len(),
        nodes.len(),
        rows.len(),
        scratch.len(),
        out.len(),
        carried.used,
        carried.session,
    ) {
        return unchanged(1, carried);
    }
    if carried.ended {
        return unchanged(0, carried);
    }
    let written = put_last(carried.used, out);
    wipe(line, carried.used);
    Took {
        number: 0,
        taken: 0,
        written,
        carried: Carried {
            used: 0,
            ended: true,
            ..carried
        },
    }
}
