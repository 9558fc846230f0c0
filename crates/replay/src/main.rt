// Reads cases from standard input and writes them, with their answers, to standard output. Each
// byte is copied as it is read; before the end of a line comes the reply to it.
#![tactic(auto)]

mod answer;
mod filters;
mod kept;
mod layouts;
mod lent;
mod line;
mod many;
mod names;
mod records;
mod tables;
mod tariff;
mod told;
mod wkb;

use kept::Kept;
use line::{Line, Reply};
use replay_text::output::Output;
use replay_text::scan::find;
use std::io::{Read, Result, Stdin, Stdout, Write};

// How many bytes are read at once.
const CHUNK: usize = 65536;

// What was answered is written out before a failure of the input is told.
fn main(rt: HostRuntime) -> Result<()> {
    let mut replay = Replay::new(rt.stdout());
    let read = replay.take_input(rt.stdin());
    replay.finish()?;
    read
}

// What is kept from one byte of the input to the next.
#[derive(Drop)]
struct Replay {
    // What lines left for later ones.
    kept: Kept,
    // The line so far.
    line: Line,
    out: Output,
}

impl Replay {
    // Before the first byte.
    fn new(stdout: Stdout) -> Replay {
        Replay {
            kept: Kept::default(),
            line: Line::new(),
            out: Output::new(stdout),
        }
    }

    // Takes the whole input. Nothing says that it ends, and a proved loop has to: so the loop has a number
    // of turns that no run uses up.
    fn take_input(&mut self, mut stdin: Stdin) -> Result<()> {
        let mut chunk = [0; CHUNK];
        for _ in 0..u64::MAX {
            let count = stdin.read(&mut chunk)?;
            if count == 0 {
                break;
            }
            self.take_bytes(&chunk[..count]);
        }
        Ok(())
    }

    // Copies the bytes, and replies to each line that they end.
    fn take_bytes(&mut self, bytes: &[u8]) {
        let mut from = 0;
        while from < bytes.len() {
            let end = find(bytes, from, b'\n');
            self.copy(&bytes[from..end]);
            if end < bytes.len() {
                self.end_line();
            }
            from = end + 1;
        }
    }

    // Copies bytes of a line. A full line stays as it is.
    fn copy(&mut self, bytes: &[u8]) {
        let _ = self.line.write(bytes);
        self.out.put(bytes);
    }

    // Puts the reply to the line, and the line's end.
    fn end_line(&mut self) {
        let reply = Reply::to(&self.line, &mut self.kept);
        self.line.clear();
        self.out.print(reply);
        self.out.put(b"\n");
    }

    // Ends the last line, where it has no end, and writes out what waits.
    fn finish(mut self) -> Result<()> {
        if !self.line.is_empty() {
            self.end_line();
        }
        let Replay {
            kept: _,
            line: _,
            out,
        } = self;
        out.flush()
    }
}
