// The line program of document 01: what it knows between lines, and the kinds of frames. What each line does is in specs/.
#![tactic(auto)]

ghost use Rattle.std.specs.Prelude.{◌≡◌, false};
ghost use Rattle.protocol.specs.Frames.{session};
ghost use Rattle.protocol.specs.Kinds.{code, Coded};

// What the program knows beside its tables: how many nodes and rows they hold, whether a base is accepted, and its node count.
#[derive(Clone, Copy)]
pub struct Session {
    pub n: usize,
    pub t: usize,
    pub n0: usize,
    pub accepted: bool,
}

impl Session {
    // Nothing is held, and no base is accepted.
    pub fn new() -> Session
        ensures { result ≡ session 0 0 0 false }
    {
        Session {
            n: 0,
            t: 0,
            n0: 0,
            accepted: false,
        }
    }
}

// The kinds of frames, in the order of their codes: 01 to 0a.
#[derive(Clone, Copy, Debug, PartialEq, Eq)]
pub enum Kind {
    Node,
    Row,
    Base,
    Refine,
    Coarsen,
    Restore,
    List,
    Set, // W5
    Quarter, // W1
    Red, // W8
}

impl Kind {
    // The kind that has this code, if any has.
    pub fn from_code(code: u32) -> Option<Kind>
        ensures { Coded code result }
    {
        match code {
            0x01 => Some(Kind::Node),
            0x02 => Some(Kind::Row),
            0x03 => Some(Kind::Base),
            0x04 => Some(Kind::Refine),
            0x05 => Some(Kind::Coarsen),
            0x06 => Some(Kind::Restore),
            0x07 => Some(Kind::List),
            0x08 => Some(Kind::Set),
            0x09 => Some(Kind::Quarter),
            0x0a => Some(Kind::Red),
            _ => None,
        }
    }

    pub fn code(self) -> u32
        ensures { result ≡ code self }
    {
        match self {
            Kind::Node => 0x01,
            Kind::Row => 0x02,
            Kind::Base => 0x03,
            Kind::Refine => 0x04,
            Kind::Coarsen => 0x05,
            Kind::Restore => 0x06,
            Kind::List => 0x07,
            Kind::Set => 0x08,
            Kind::Quarter => 0x09,
            Kind::Red => 0x0a,
        }
    }
}
