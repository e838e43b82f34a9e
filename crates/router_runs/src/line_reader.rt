//! What a reader has at hand.
use std::io::{BufRead, BufReader, Read};

/// A reader that tells what it has at hand.
pub trait LineReader: BufRead {
    /// Whether a whole line is at hand, so that reading it waits for nothing.
    fn has_line(&self) -> bool;
}

impl<R: Read> LineReader for BufReader<R> {
    fn has_line(&self) -> bool {
        self.buffer().contains(&b'\n')
    }
}
