// The reader, for programs in other languages: lines that arrive in pieces. What is carried from call to call passes by reference: how many
// bytes of the unfinished line there are, whether the end was announced, and the session. Every call leaves behind `written` how many bytes
// it wrote, 32,768 at most.
ghost use Rattle.std.specs.Prelude.{◌≡◌, ◌≤◌};
ghost use Rattle.text.specs.Writing.{wrote};
ghost use Rattle.protocol.specs.Frames.{held, session};
ghost use Rattle.pieces.specs.Reader as r;

use protocol::Session;
use reader::Carried;

// Leaves what is carried on behind the references.
fn leave(
    on: Carried,
    used: &mut usize,
    ended: &mut bool,
    n: &mut usize,
    t: &mut usize,
    n0: &mut usize,
    accepted: &mut bool,
)
    ensures line { used.new ≡ on.used }
    ensures end { ended.new ≡ on.ended }
    ensures known { session n.new t.new n0.new accepted.new ≡ on.session }
{
    *used = on.used;
    *ended = on.ended;
    *n = on.session.n;
    *t = on.session.t;
    *n0 = on.session.n0;
    *accepted = on.session.accepted;
}

// Begin's number. What is carried afterwards is that of a new reader, whatever it was.
#[unsafe(no_mangle)]
pub extern "C" fn spoutbeetle_begin(
    line: &mut [u8],
    nodes: &mut [i32],
    rows: &mut [u32],
    scratch: &mut [u32],
    out: &mut [u8],
    used: &mut usize,
    ended: &mut bool,
    n: &mut usize,
    t: &mut usize,
    n0: &mut usize,
    accepted: &mut bool,
    written: &mut usize,
) -> u32
    ensures accepted_after { r.tells result 0 (wrote written.new out.new) (r.reader (r.unfinished used.new line.new) ended.new (held nodes.new rows.new scratch.new (session n.new t.new n0.new accepted.new))) ≡ r.begin_out line.old nodes.old rows.old scratch.old out.old }
    ensures written_bound { written.new ≤ 32768 }
{
    let begun = reader::begin(line, nodes, rows, scratch, out);
    leave(begun.carried, used, ended, n, t, n0, accepted);
    *written = begun.written;
    begun.number
}

// Take's number; how many bytes of the piece were taken is left behind `taken`.
#[unsafe(no_mangle)]
pub extern "C" fn spoutbeetle_take(
    piece: &[u8],
    line: &mut [u8],
    nodes: &mut [i32],
    rows: &mut [u32],
    scratch: &mut [u32],
    out: &mut [u8],
    used: &mut usize,
    ended: &mut bool,
    n: &mut usize,
    t: &mut usize,
    n0: &mut usize,
    accepted: &mut bool,
    taken: &mut usize,
    written: &mut usize,
) -> u32
    ensures accepted_after { r.tells result taken.new (wrote written.new out.new) (r.reader (r.unfinished used.new line.new) ended.new (held nodes.new rows.new scratch.new (session n.new t.new n0.new accepted.new))) ≡ r.take_out (r.reader (r.unfinished used.old line.old) ended.old (held nodes.old rows.old scratch.old (session n.old t.old n0.old accepted.old))) piece.now out.old }
    ensures written_bound { written.new ≤ 32768 }
{
    let carried = Carried {
        used: *used,
        ended: *ended,
        session: Session {
            n: *n,
            t: *t,
            n0: *n0,
            accepted: *accepted,
        },
    };
    let took = reader::take(piece, carried, line, nodes, rows, scratch, out);
    leave(took.carried, used, ended, n, t, n0, accepted);
    *taken = took.taken;
    *written = took.written;
    took.number
}

// End's number.
#[unsafe(no_mangle)]
pub extern "C" fn spoutbeetle_end(
    line: &mut [u8],
    nodes: &[i32],
    rows: &[u32],
    scratch: &[u32],
    out: &mut [u8],
    used: &mut usize,
    ended: &mut bool,
    n: &mut usize,
    t: &mut usize,
    n0: &mut usize,
    accepted: &mut bool,
    written: &mut usize,
) -> u32
    ensures accepted_after { r.tells result 0 (wrote written.new out.new) (r.reader (r.unfinished used.new line.new) ended.new (held nodes.now rows.now scratch.now (session n.new t.new n0.new accepted.new))) ≡ r.end_out (r.reader (r.unfinished used.old line.old) ended.old (held nodes.now rows.now scratch.now (session n.old t.old n0.old accepted.old))) out.old }
    ensures written_bound { written.new ≤ 32768 }
{
    let carried = Carried {
        used: *used,
        ended: *ended,
        session: Session {
            n: *n,
            t: *t,
            n0: *n0,
            accepted: *accepted,
        },
    };
    let took = reader::end(carried, line, nodes, rows, scratch, out);
    leave(took.carried, used, ended, n, t, n0, accepted);
    *written = took.written;
    took.number
}
