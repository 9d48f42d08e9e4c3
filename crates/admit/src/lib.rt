// Which lines are taken, and which refine. A line that is not taken answers `ff` and changes nothing.
#![tactic(auto)]

ghost use Rattle.std.specs.Prelude.{◌≡◌, true, ◌≤◌, length};
ghost use Rattle.text.specs.Digits.{listed};
ghost use Rattle.protocol.specs.Frames as f;
ghost use Rattle.protocol.specs.Kinds.{code};
ghost use Rattle.admit.specs.Admitted.{Admitted};

use meaning::{Manner, Quarters};
use protocol::{Kind, Session};
use text::read;

// In which manner a frame of this kind refines, and how it quarters, if it refines.
#[tactic(auto, unfolding(protocol::specs::Frames::refines_in))]
pub fn refines(kind: Kind) -> Option<(Manner, Quarters)>
    ensures { result ≡ f.refines_in (code kind) }
{
    match kind {
        Kind::Refine => Some((Manner::Newest, Quarters::Bisected)),
        Kind::Quarter => Some((Manner::AllThree, Quarters::Bisected)),
        Kind::Red => Some((Manner::AllThree, Quarters::Red)),
        _ => None,
    }
}

// The same of any number, whether a kind has it or not.
pub fn refines_in(kind: u32) -> Option<(Manner, Quarters)>
    ensures { result ≡ f.refines_in kind }
{
    match Kind::from_code(kind) {
        Some(kind) => refines(kind),
        None => None,
    }
}

// Whether each number listed is below the end.
fn all_below(fields: &[u8], end: usize) -> bool
    ensures { result ≡ f.all_below end (listed fields.now) }
{
    (0..fields.len() / 4).all(|i| (read::number::<4>(fields, 4 * i) as usize) < end)
}

#[tactic(auto, unfolding(protocol::specs::Frames::lists_below))]
fn lists_below(fields: &[u8], end: usize) -> bool
    ensures { result ≡ f.lists_below end fields.now }
{
    fields.len() % 4 == 0 && all_below(fields, end)
}

// Whether a frame of this kind with these fields is taken.
#[tactic(auto, unfolding(protocol::specs::Frames::admits, protocol::specs::Frames::refines_in))]
fn admits(session: Session, kind: Kind, fields: &[u8]) -> bool
    ensures { result ≡ f.admits session (code kind) fields.now }
{
    match kind {
        Kind::Node => !session.accepted && fields.len() == 24 && session.n < 512,
        Kind::Row => !session.accepted && fields.len() == 12 && session.t < 1024,
        Kind::Base => !session.accepted && fields.is_empty(),
        Kind::Refine | Kind::Quarter | Kind::Red => {
            session.accepted && lists_below(fields, session.t)
        }
        Kind::Coarsen => session.accepted && lists_below(fields, session.n),
        Kind::Restore => session.accepted && fields.is_empty(),
        Kind::List => fields.is_empty(),
        Kind::Set => session.accepted && fields.len() == 12,
    }
}

// Digits alone, at least 2 and at most 254.
#[tactic(auto, unfolding(protocol::specs::Frames::well_formed))]
fn well_formed(line: &[u8]) -> bool
    ensures value { result ≡ f.well_formed line.now }
    ensures long { result ≡ true → 2 ≤ length line.now }
{
    (2..=254).contains(&line.len()) && read::all_digits(line)
}

// The kind of a line that is taken, or none of one that is not.
pub fn admitted(session: Session, line: &[u8]) -> Option<Kind>
    ensures { Admitted session line.now result }
{
    if !well_formed(line) {
        return None;
    }
    let kind = Kind::from_code(read::number::<2>(line, 0))?;
    admits(session, kind, &line[2..]).then_some(kind)
}
