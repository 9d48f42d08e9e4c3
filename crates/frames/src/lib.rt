// The line program of document 01: what one line does to the tables, and what it writes.
#![tactic(auto)]

ghost use Rattle.std.specs.Prelude.{◌≡◌, true, length};
ghost use Rattle.protocol.specs.Frames as f;
ghost use Rattle.protocol.specs.Kinds.{code};
ghost use Rattle.fitting.specs.Lent as l;
ghost use Rattle.frames.specs.Answered.{lent};

use protocol::{Kind, Session};
use text::{read, write};

// After a line: the session, and how many bytes were written.
#[derive(Clone, Copy)]
pub struct Answered {
    pub session: Session,
    pub written: usize,
}

// A frame that is admitted: its kind, and the part of the line after the kind byte.
fn frame(
    kind: Kind,
    fields: &[u8],
    nodes: &mut [i32],
    rows: &mut [u32],
    scratch: &mut [u32],
    session: Session,
    out: &mut [u8],
) -> Answered
    requires whole { l.Whole (length nodes.old) (length rows.old) (length scratch.old) (length out.old) session }
    requires fields_value { f.admits session (code kind) fields.now ≡ true }
    ensures { lent result nodes.new rows.new scratch.new out.new ≡ l.writing out.old (f.frame (f.held nodes.old rows.old scratch.old session) (code kind) fields.now) }
{
    match kind {
        Kind::Node => {
            tables::put_node(nodes, session.n, read::node_in(fields));
            Answered {
                session: Session {
                    n: session.n + 1,
                    ..session
                },
                written: 0,
            }
        }
        Kind::Row => {
            tables::put_row(rows, session.t, read::row_in(fields));
            Answered {
                session: Session {
                    t: session.t + 1,
                    ..session
                },
                written: 0,
            }
        }
        Kind::List => Answered {
            session,
            written: write::put_all(out, nodes, rows, session.n, session.t),
        },
        _ => {
            let said = calls::call(kind, fields, nodes, rows, scratch, session);
            let written = write::put_answer(out, kind.code(), said);
            Answered {
                session: calls::session_after(session, kind.code(), said.answer),
                written,
            }
        }
    }
}

// Whether the tables and the buffer are as long as those of the program, and the counts within its rooms.
#[tactic(auto, unfolding(fitting::specs::Lent::whole))]
pub fn whole(nl: usize, rl: usize, sl: usize, ol: usize, session: Session) -> bool
    ensures { result ≡ l.whole nl rl sl ol session }
{
    nl == 2048 && rl == 3072 && sl == 6144 && 32_768 <= ol && session.n <= 512 && session.t <= 1024
}

// A line, on whole tables.
fn plain_line(
    line: &[u8],
    nodes: &mut [i32],
    rows: &mut [u32],
    scratch: &mut [u32],
    session: Session,
    out: &mut [u8],
) -> Answered
    requires { l.Whole (length nodes.old) (length rows.old) (length scratch.old) (length out.old) session }
    ensures { lent result nodes.new rows.new scratch.new out.new ≡ l.writing out.old (f.line_step (f.held nodes.old rows.old scratch.old session) line.now) }
{
    match admit::admitted(session, line) {
        Some(kind) => frame(kind, &line[2..], nodes, rows, scratch, session, out),
        None => Answered {
            session,
            written: write::put_ff(out),
        },
    }
}

// One line without its end byte: what it does to the tables, and its answer from the buffer's start on. Lent anything but whole tables,
// it does nothing.
pub fn line(
    line: &[u8],
    nodes: &mut [i32],
    rows: &mut [u32],
    scratch: &mut [u32],
    session: Session,
    out: &mut [u8],
) -> Answered
    ensures { lent result nodes.new rows.new scratch.new out.new ≡ l.line_lent (f.held nodes.old rows.old scratch.old session) line.now out.old }
{
    if !whole(nodes.len(), rows.len(), scratch.len(), out.len(), session) {
        return Answered {
            session,
            written: 0,
        };
    }
    plain_line(line, nodes, rows, scratch, session, out)
}
