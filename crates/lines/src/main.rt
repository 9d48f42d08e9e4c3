// The line program of document 01. It only moves bytes from standard input to standard output: `reader` cuts them into lines and
// `frames` answers each; the tables are here.
#![tactic(auto)]

ghost use Rattle.std.specs.Prelude.{◌≤◌, length, IfOk};

use reader::Carried;
use std::io::{self, Read, Write};

// A reader with its line buffer and its tables, and the buffer that it writes into.
#[derive(Drop)]
struct Talk {
    carried: Carried,
    line: [u8; 255],
    nodes: [i32; 2048],
    rows: [u32; 3072],
    scratch: [u32; 6144],
    out: [u8; 32_768],
}

impl Talk {
    fn new() -> Talk {
        Talk {
            carried: Carried::new(),
            line: [0; 255],
            nodes: [0; 2048],
            rows: [0; 3072],
            scratch: [0; 6144],
            out: [0; 32_768],
        }
    }

    // Writes the first n bytes of the buffer, if there are any.
    fn say(&self, n: usize, to: &mut impl Write) -> io::Result<()>
        requires { n ≤ 32768 }
    {
        if n == 0 {
            return Ok(());
        }
        to.write_all(&self.out[..n])?;
        to.flush()
    }

    // The opening line. If it does not go out, the answers are tried all the same.
    fn open(&mut self, to: &mut impl Write) {
        let begun = reader::begin(
            &mut self.line,
            &mut self.nodes,
            &mut self.rows,
            &mut self.scratch,
            &mut self.out,
        );
        self.carried = begun.carried;
        let _ = self.say(begun.written, to);
    }

    // One call of the reader, and its answer: how many bytes of the piece were taken.
    fn take(&mut self, piece: &[u8], to: &mut impl Write) -> io::Result<usize>
        ensures { IfOk result (λ taken. taken ≤ length piece.now) }
    {
        let took = reader::take(
            piece,
            self.carried,
            &mut self.line,
            &mut self.nodes,
            &mut self.rows,
            &mut self.scratch,
            &mut self.out,
        );
        self.carried = took.carried;
        self.say(took.written, to)?;
        Ok(took.taken)
    }

    // A piece, in no more calls than it has bytes. Once an answer does not go out, the rest is passed over.
    fn take_piece(&mut self, piece: &[u8], to: &mut impl Write) -> io::Result<()>
        requires { length piece.now ≤ 512 }
    {
        let mut at = 0;
        for _call in 0..piece.len() {
            if at == piece.len() {
                break;
            }
            at += self.take(&piece[at..], to)?;
        }
        Ok(())
    }

    // All pieces, up to the first that is empty or cannot be read. A proved loop has to end, and nothing says that the input does: the turns
    // count up to a number that no run reaches.
    fn hear(&mut self, from: &mut impl Read, to: &mut impl Write) -> io::Result<()> {
        for _turn in 0..u64::MAX {
            let mut piece = [0u8; 512];
            let n = from.read(&mut piece)?;
            if n == 0 {
                return Ok(());
            }
            self.take_piece(&piece[..n], to)?;
        }
        Ok(())
    }

    // The last lines.
    fn close(&mut self, to: &mut impl Write) {
        let ended = reader::end(
            self.carried,
            &mut self.line,
            &self.nodes,
            &self.rows,
            &self.scratch,
            &mut self.out,
        );
        let _ = self.say(ended.written, to);
    }
}

// What does not go out, or cannot be read, ends the talk, and the last lines are tried all the same.
fn main(rt: HostRuntime) {
    let mut input = rt.stdin();
    let mut output = rt.stdout();
    let mut talk = Talk::new();
    talk.open(&mut output);
    let _ = talk.hear(&mut input, &mut output);
    talk.close(&mut output);
}
