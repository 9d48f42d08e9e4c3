// Frames 03 to 06, 08 to 0a: the calls. Numbers listed have four digits each.
#![tactic(auto)]

ghost use Rattle.std.specs.Prelude.{◌≡◌, true, ◌+◌, ◌*◌, ◌/◌, ◌≤◌, length};
ghost use Rattle.lists.specs.Search.{iter};
ghost use Rattle.meaning.specs.Tables.{given, outcome};
ghost use Rattle.meaning.specs.Calls.{tinted, check_out, refine_by_out, coarsen_out, set_out};
ghost use Rattle.text.specs.Digits.{field, listed};
ghost use Rattle.text.specs.Lines.{correction_in};
ghost use Rattle.protocol.specs.Frames as f;
ghost use Rattle.protocol.specs.Kinds.{code};
ghost use Rattle.calls.specs.MarksLaw.{mark_one};

use meaning::{Answer, Manner, Quarters, Tinted};
use protocol::{Kind, Session};
use text::read;

fn mark(marks: &mut [u8], fields: &[u8], i: usize)
    requires { 4 * i + 4 ≤ length fields.now }
    ensures { marks.new ≡ mark_one fields.now i marks.old }
{
    let k = read::number::<4>(fields, 4 * i) as usize;
    if k < marks.len() {
        marks[k] = 1;
    }
}

// Marks what is listed.
fn mark_listed(marks: &mut [u8], fields: &[u8])
    ensures { marks.new ≡ iter (mark_one fields.now) 0 (length fields.now / 4) marks.old }
{
    for i in 0..fields.len() / 4 {
        mark(marks, fields, i);
    }
}

// 03: the end of the base, and its check. A refusal drops all rows and keeps the culprit.
fn check_base(
    nodes: &mut [i32],
    rows: &mut [u32],
    scratch: &mut [u32],
    n: usize,
    t: usize,
) -> Answer
    ensures { outcome result nodes.new rows.new scratch.new ≡ f.or_dropped (check_out (given nodes.old rows.old scratch.old n t)) }
{
    let checked = mesh::check(nodes, rows, scratch, n, t);
    if checked.number == 0 {
        return checked;
    }
    nodes.fill(0);
    rows.fill(0);
    Answer {
        n: 0,
        t: 0,
        passes: 0,
        ..checked
    }
}

// 04, 09 and 0a: refine, in the frame's way.
fn refine_listed(
    fields: &[u8],
    nodes: &mut [i32],
    rows: &mut [u32],
    scratch: &mut [u32],
    session: Session,
    manner: Manner,
    quarters: Quarters,
) -> Tinted
    requires { session.t ≤ 1024 }
    ensures { tinted (outcome result.answer nodes.new rows.new scratch.new) result.red ≡ refine_by_out manner quarters (given nodes.old rows.old scratch.old session.n session.t) session.n0 (f.marks_of session.t (listed fields.now)) }
{
    let mut marks = [0u8; 1024];
    mark_listed(&mut marks, fields);
    let t = session.t;
    mesh::refine_by(
        nodes,
        rows,
        scratch,
        &marks[..t],
        session.n0,
        session.n,
        t,
        manner,
        quarters,
    )
}

// 05: coarsen.
fn coarsen_listed(
    fields: &[u8],
    nodes: &mut [i32],
    rows: &mut [u32],
    scratch: &mut [u32],
    session: Session,
) -> Answer
    requires { session.n ≤ 512 }
    ensures { outcome result nodes.new rows.new scratch.new ≡ coarsen_out (given nodes.old rows.old scratch.old session.n session.t) session.n0 (f.marks_of session.n (listed fields.now)) }
{
    let mut marks = [0u8; 512];
    mark_listed(&mut marks, fields);
    let n = session.n;
    mesh::coarsen(nodes, rows, scratch, &marks[..n], session.n0, n, session.t)
}

// 08: set the correction of one node.
fn set_given(
    fields: &[u8],
    nodes: &mut [i32],
    rows: &mut [u32],
    scratch: &mut [u32],
    session: Session,
) -> Answer
    requires { length fields.now ≡ 12 }
    ensures { outcome result nodes.new rows.new scratch.new ≡ set_out (given nodes.old rows.old scratch.old session.n session.t) session.n0 (field 4 fields.now 0) (correction_in fields.now 1) }
{
    let node = read::number::<4>(fields, 0) as usize;
    let c = read::correction_in(fields, 1);
    mesh::set_correction(
        nodes, rows, scratch, session.n0, session.n, session.t, node, c,
    )
}

// The answer of a call that cuts nothing red.
fn plain(answer: Answer) -> Tinted
    ensures answer { result.answer ≡ answer }
    ensures red { result.red ≡ 0 }
{
    Tinted { answer, red: 0 }
}

// 03 to 06, 08 to 0a, admitted.
pub fn call(
    kind: Kind,
    fields: &[u8],
    nodes: &mut [i32],
    rows: &mut [u32],
    scratch: &mut [u32],
    session: Session,
) -> Tinted
    requires n_bound { session.n ≤ 512 }
    requires t_bound { session.t ≤ 1024 }
    requires fields_value { f.admits session (code kind) fields.now ≡ true }
    ensures { tinted (outcome result.answer nodes.new rows.new scratch.new) result.red ≡ f.called (f.held nodes.old rows.old scratch.old session) (code kind) fields.now }
{
    if let Some((manner, quarters)) = admit::refines(kind) {
        return refine_listed(fields, nodes, rows, scratch, session, manner, quarters);
    }
    match kind {
        Kind::Base => plain(check_base(nodes, rows, scratch, session.n, session.t)),
        Kind::Coarsen => plain(coarsen_listed(fields, nodes, rows, scratch, session)),
        Kind::Set => plain(set_given(fields, nodes, rows, scratch, session)),
        _ => plain(job::restore(nodes, rows, scratch, session.n0, session.n, session.t)),
    }
}

// The counts are the answer's; a 03 that says 0 is accepted.
pub fn session_after(session: Session, kind: u32, a: Answer) -> Session
    ensures { result ≡ f.session_after session kind a }
{
    if kind == Kind::Base.code() {
        Session {
            n: a.n,
            t: a.t,
            n0: a.n,
            accepted: a.number == 0,
        }
    } else {
        Session {
            n: a.n,
            t: a.t,
            ..session
        }
    }
}
