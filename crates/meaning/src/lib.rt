// What the device holds and what a call answers: the structs that code and definitions share. Document 01 as definitions is in specs/.
#![tactic(auto)]

// Where a node stands.
#[derive(Clone, Copy)]
pub struct Place {
    pub x: i32,
    pub y: i32,
}

// W5: a node's stretch correction.
#[derive(Clone, Copy)]
pub struct Correction {
    pub dx: i32,
    pub dy: i32,
}

// A node is a place that carries a correction. Whatever asks where a node stands asks for its place alone.
#[derive(Clone, Copy)]
pub struct Node {
    pub place: Place,
    pub correction: Correction,
}

// A triangle is three node numbers: p is its newest vertex, q-r its refinement edge.
//
//           p
//          / \
//       u /   \ v
//        /     \
//       q-------r
//           m
#[derive(Clone, Copy)]
pub struct Tri {
    pub p: u32,
    pub q: u32,
    pub r: u32,
}

// The numbers of the new nodes of one triangle: m on q-r, u on p-q, v on r-p; 0 where the edge is not split.
#[derive(Clone, Copy)]
pub struct Mids {
    pub m: u32,
    pub u: u32,
    pub v: u32,
}

// Which edges of a marked triangle start the split set: by 01 its refinement edge, by W1 all three.
#[derive(Clone, Copy)]
pub enum Manner {
    Newest,
    AllThree,
}

// How a triangle with all three edges split becomes four: bisected, by 01, or red, by W8.
#[derive(Clone, Copy)]
pub enum Quarters {
    Bisected,
    Red,
}

// What a call says: its number, the counts after it, the passes it made, and the culprit: with 3 and 7 the lowest node at fault, with 4, 5
// and 6 the lowest row at fault, with every other number 0.
#[derive(Clone, Copy)]
pub struct Answer {
    pub number: u32,
    pub n: usize,
    pub t: usize,
    pub passes: usize,
    pub culprit: usize,
}

// W8: what a call says that may cut red: an answer, and 1 where it made a red cut, else 0.
#[derive(Clone, Copy)]
pub struct Tinted {
    pub answer: Answer,
    pub red: u32,
}

// W6: what a question about a point is told: a number, the correction there, 0 and 0 with any number but 0, and the culprit, as of any call.
#[derive(Clone, Copy)]
pub struct Told {
    pub number: u32,
    pub correction: Correction,
    pub culprit: usize,
}
