//! An output that refuses.
use std::alloc::Global;
use std::io::{self, ErrorKind, Write};

/// A writer that takes so many bytes, and then refuses; and that can be flushed so often.
#[derive(Drop)]
pub struct NarrowWriter {
    /// What it took.
    pub taken: Vec<u8>,
    left: usize,
    flushes: u64,
}

impl NarrowWriter {
    /// One that took nothing yet.
    pub fn new(alloc: Global, left: usize, flushes: u64) -> NarrowWriter {
        NarrowWriter {
            taken: Vec::new(alloc),
            left,
            flushes,
        }
    }
}

impl Write for NarrowWriter {
    fn write(&mut self, buf: &[u8]) -> io::Result<usize> {
        if self.left == 0 && !buf.is_empty() {
            return Err(io::Error::from(ErrorKind::BrokenPipe));
        }
        let count = self.left.min(buf.len());
        self.taken.extend_from_slice(&buf[..count])?;
        self.left -= count;
        Ok(count)
    }

    fn flush(&mut self) -> io::Result<()> {
        if self.flushes == 0 {
            return Err(io::Error::from(ErrorKind::BrokenPipe));
        }
        self.flushes -= 1;
        Ok(())
    }
}
