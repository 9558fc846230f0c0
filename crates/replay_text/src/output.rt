// Standard output by way of a buffer.
use arrayvec::ArrayVec;
use std::fmt;
use std::io::{Error, Result, Stdout, Write};

// How many bytes wait at most.
const SIZE: usize = 65536;

// What is not written out yet, and where it goes.
#[derive(Drop)]
pub struct Output {
    waiting: ArrayVec<u8, SIZE>,
    stdout: Stdout,
    // Of the first write that failed. After it nothing is written.
    failure: Option<Error>,
}

impl Output {
    // Nothing yet.
    pub fn new(stdout: Stdout) -> Output {
        Output {
            waiting: ArrayVec::new(),
            stdout,
            failure: None,
        }
    }

    // Puts bytes. What waits is written out first where they do not fit behind it.
    pub fn put(&mut self, bytes: &[u8]) {
        if bytes.len() > self.waiting.remaining_capacity() {
            self.write_waiting();
        }
        if self.waiting.try_extend_from_slice(bytes).is_err() {
            self.write_out(bytes);
        }
    }

    // Puts a text.
    pub fn print(&mut self, text: impl fmt::Display + Drop) {
        let _ = fmt::Write::write(self, text);
    }

    // Writes out what waits. It fails where this or an earlier write failed.
    pub fn flush(mut self) -> Result<()> {
        self.write_waiting();
        match self.failure {
            Some(failure) => Err(failure),
            None => Ok(()),
        }
    }

    // Writes out what waits.
    fn write_waiting(&mut self) {
        let waiting = self.waiting.take();
        self.write_out(waiting.as_slice());
    }

    // Writes out bytes.
    fn write_out(&mut self, bytes: &[u8]) {
        if self.failure.is_some() {
            return;
        }
        if let Err(failure) = self.stdout.write_all(bytes) {
            self.failure = Some(failure);
        }
    }
}

// A failure is told by `flush` alone.
impl fmt::Write for Output {
    fn write_str(&mut self, s: &str) -> fmt::Result {
        self.put(s.as_bytes());
        Ok(())
    }
}
