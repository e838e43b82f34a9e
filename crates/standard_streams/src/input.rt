// An input that a thread of its own reads.
use mailboxes::{Placed, ReorderBuffer};
use std::alloc::{AllocError, Global};
use std::io::{self, Error, ErrorKind, Read};
use std::sync::{Arc, Wait};
use std::thread;
use std::thread::Threads;

// How many bytes are read at once.
const CHUNK_LEN: usize = 8_192;

// How many chunks there are at most that were read and not given.
const WINDOW: usize = 2;

// What one read of the source gave: so many bytes at the front of these, none at the source's end.
#[derive(Drop)]
struct Chunk {
    place: u64,
    bytes: Vec<u8>,
    read: Result<usize, ErrorKind>,
}

impl Placed for Chunk {
    ghost place_of = { λ chunk. chunk.place };

    fn place(&self) -> u64 {
        self.place
    }
}

// The read at this place.
fn chunk_of<S: Read>(alloc: Global, source: &mut S, place: u64) -> Chunk {
    let mut bytes = Vec::new(alloc);
    let read = match bytes.resize(CHUNK_LEN, 0) {
        Ok(()) => match source.read(&mut bytes) {
            Ok(len) => Ok(len),
            Err(error) => Err(error.kind()),
        },
        Err(_) => Err(ErrorKind::OutOfMemory),
    };
    Chunk { place, bytes, read }
}

// Reads the source until its end, or until no chunk is taken any more.
fn read_source<S: Read + Drop, R: Wait>(
    rt: &R,
    alloc: Global,
    chunks: &ReorderBuffer<Chunk>,
    source: S,
) {
    let mut source = source;
    let mut place: u64 = 0;
    for _ in rt.forever() {
        if !chunks.await_room(rt, place) {
            return;
        }
        let chunk = chunk_of(alloc, &mut source, place);
        let is_end = matches!(chunk.read, Ok(0));
        if !chunks.put(rt, chunk) || is_end {
            return;
        }
        place = place.saturating_add(1);
    }
}

/// An input whose source a thread of its own reads.
#[derive(Drop)]
pub struct InterruptibleInput<R> {
    rt: R,
    alloc: Global,
    is_started: bool,
    chunks: Arc<ReorderBuffer<Chunk>, Global>,
    // The place of the chunk that is taken next.
    next: u64,
    // The chunk of which not all is given: its bytes from `given` on, up to `len`.
    bytes: Vec<u8>,
    given: usize,
    len: usize,
}

/// Ends an [`InterruptibleInput`].
#[derive(Drop)]
pub struct Interrupter<R> {
    rt: R,
    chunks: Arc<ReorderBuffer<Chunk>, Global>,
}

impl<R: Copy> InterruptibleInput<R> {
    /// An input without a source, whose reads fail, and what ends it.
    pub fn new(
        rt: R,
        alloc: Global,
    ) -> Result<(InterruptibleInput<R>, Interrupter<R>), AllocError> {
        let chunks = Arc::new(alloc, ReorderBuffer::new(alloc, WINDOW)?)?;
        let interrupter = Interrupter {
            rt,
            chunks: Arc::try_clone(&chunks)?,
        };
        let input = InterruptibleInput {
            rt,
            alloc,
            is_started: false,
            chunks,
            next: 0,
            bytes: Vec::new(alloc),
            given: 0,
            len: 0,
        };
        Ok((input, interrupter))
    }
}

impl<R: Wait> Interrupter<R> {
    /// From now on nothing more is read, and whoever waits for bytes finds the end.
    pub fn interrupt(&self) {
        self.chunks.end(&self.rt);
    }
}

impl<R: Threads + Wait + Copy + Send + Drop + 'static> InterruptibleInput<R> {
    /// Starts the thread that reads this source. Where none can be made, or there is one already, that is an error, and nothing changed.
    pub fn start<S: Read + Send + Drop + 'static>(&mut self, source: S) -> Result<(), AllocError> {
        if self.is_started {
            return Err(AllocError);
        }
        let (rt, alloc) = (self.rt, self.alloc);
        let chunks = Arc::try_clone(&self.chunks)?;
        let _reading = thread::spawn(&self.rt, move || read_source(&rt, alloc, &chunks, source))?;
        self.is_started = true;
        Ok(())
    }
}

impl<R: Wait> InterruptibleInput<R> {
    // Waits for the next chunk. At the source's end there is none.
    fn take_chunk(&mut self) -> io::Result<()> {
        let Some(chunk) = self.chunks.take(&self.rt, self.next) else {
            return Ok(());
        };
        self.next = self.next.saturating_add(1);
        match chunk.read {
            Ok(0) => self.chunks.end(&self.rt),
            Ok(len) => {
                self.bytes = chunk.bytes;
                self.given = 0;
                self.len = len;
            }
            Err(kind) => return Err(Error::from(kind)),
        }
        Ok(())
    }
}

impl<R: Wait> Read for InterruptibleInput<R> {
    fn read(&mut self, buf: &mut [u8]) -> io::Result<usize> {
        if !self.is_started {
            return Err(Error::from(ErrorKind::Unsupported));
        }
        if self.given == self.len {
            self.take_chunk()?;
        }
        let Some(left) = self.bytes.get(self.given..self.len) else {
            return Ok(0);
        };
        let count = left.len().min(buf.len());
        buf[..count].copy_from_slice(&left[..count]);
        self.given += count;
        Ok(count)
    }
}
