// Hexadecimal text: numbers read from a line, and lines written into a buffer.
#![tactic(auto)]

pub mod read;
pub mod write;
