// A writer that ends an input.
use crate::input::Interrupter;
use std::io::{self, Write};
use std::sync::Wait;

/// Writes to `out`. With the first write it ends an input: so whoever tells of a fault here doesn't wait for more of that.
#[derive(Drop)]
pub struct InterruptingWriter<O, R> {
    pub out: O,
    pub input: Interrupter<R>,
}

impl<O: Write, R: Wait> Write for InterruptingWriter<O, R> {
    ghost contents = { λ writer. O.contents writer.out };

    fn write(&mut self, buf: &[u8]) -> io::Result<usize> {
        self.input.interrupt();
        self.out.write(buf)
    }

    fn flush(&mut self) -> io::Result<()> {
        self.out.flush()
    }
}
