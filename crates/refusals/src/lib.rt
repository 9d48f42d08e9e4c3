// Why a call on a mesh is refused, and what the call then says.
#![tactic(auto)]

ghost use Rattle.std.specs.Prelude.{◌≡◌};
ghost use Rattle.refusals.specs.Refusals.{fault_in, answer_in};

use meaning::Answer;

// The refusals of a call on a mesh, with the lowest node or row at fault where one is named.
#[derive(Clone, Copy, Debug, PartialEq, Eq)]
pub enum Refusal {
    Sizes, // a length, a room, a count or scratch
    Marks, // the mark table
    OutOfRange(usize), // a node's place or correction
    Misnamed(usize), // a row names a node that is not there, or one twice
    Repeated(usize), // a row has a directed edge that a lower row has
    Flat(usize), // a row's twice-area is not above 0
    Unused(usize), // a node in no row
    Odd, // an edge to be split has no exact midpoint
    Full, // no room for the new counts
    Clashing, // the labelling is not compatible
    Touching, // W7: a corner of a row on a side of another
    Lapping, // W7: two rows share an interior point
    BaseNode, // W5: a base node's correction
    Nowhere, // W6: no row holds the point
    NoNode, // W5: no such node
}

impl Refusal {
    // Document 01's number.
    pub fn number(self) -> u32
        ensures { result ≡ (fault_in self).number }
    {
        match self {
            Refusal::Sizes => 1,
            Refusal::Marks => 2,
            Refusal::OutOfRange(_) => 3,
            Refusal::Misnamed(_) => 4,
            Refusal::Repeated(_) => 5,
            Refusal::Flat(_) => 6,
            Refusal::Unused(_) => 7,
            Refusal::Odd => 8,
            Refusal::Full => 9,
            Refusal::Clashing => 10,
            Refusal::Touching => 11,
            Refusal::Lapping => 12,
            Refusal::BaseNode => 13,
            Refusal::Nowhere => 14,
            Refusal::NoNode => 15,
        }
    }

    // W2: the lowest node or row at fault, or 0.
    pub fn culprit(self) -> usize
        ensures { result ≡ (fault_in self).at }
    {
        match self {
            Refusal::OutOfRange(at)
            | Refusal::Misnamed(at)
            | Refusal::Repeated(at)
            | Refusal::Flat(at)
            | Refusal::Unused(at) => at,
            _ => 0,
        }
    }
}

// How many nodes and rows there are.
#[derive(Clone, Copy, Debug, PartialEq, Eq)]
pub struct Counts {
    pub n: usize,
    pub t: usize,
}

// What a call says that was given n nodes and t rows: the new counts, or the refusal with those given. Only restore reports passes.
pub fn answer(done: Result<Counts, Refusal>, n: usize, t: usize) -> Answer
    ensures { result ≡ answer_in done n t }
{
    match done {
        Ok(after) => Answer {
            number: 0,
            n: after.n,
            t: after.t,
            passes: 0,
            culprit: 0,
        },
        Err(refusal) => Answer {
            number: refusal.number(),
            n,
            t,
            passes: 0,
            culprit: refusal.culprit(),
        },
    }
}
