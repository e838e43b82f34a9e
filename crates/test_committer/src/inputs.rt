// An input that can be called off: it gives its source's bytes, in order, and what the source refuses; called off, it gives none.
use standard_streams::InterruptibleInput;
use std::alloc::Global;
use std::io::{self, Error, ErrorKind, Read};
use std::sync::atomic::{AtomicU64, Ordering};
use std::sync::{Arc, Wait};
use std::thread;
use std::thread::Threads;

// How many bytes the source has: four chunks and a bit.
const LEN: u64 = 33_001;

// Gives bytes by their places, at most so many a call, and refuses the call with this number.
#[derive(Drop)]
struct Source {
    place: u64,
    most: u64,
    calls: u64,
    refused: u64,
}

// The byte at a place.
fn byte_at(place: u64) -> u8 {
    (place % 251) as u8
}

impl Read for Source {
    fn read(&mut self, buf: &mut [u8]) -> io::Result<usize> {
        self.calls = self.calls.saturating_add(1);
        if self.calls == self.refused {
            return Err(Error::from(ErrorKind::TimedOut));
        }
        let count = (buf.len() as u64)
            .min(self.most)
            .min(LEN.saturating_sub(self.place)) as usize;
        for index in 0..count.min(buf.len()) {
            buf[index] = byte_at(self.place);
            self.place = self.place.saturating_add(1);
        }
        Ok(count.min(buf.len()))
    }
}

// How many bytes a reader gives, each of its place, by so many a call; and how many calls it refused. None where a byte is another.
fn given<S: Read>(input: &mut S, size: usize) -> Option<(u64, u64)> {
    let mut buf = [0u8; 9_000];
    let size = size.min(9_000);
    let (mut place, mut refused): (u64, u64) = (0, 0);
    for _ in 0..u64::MAX {
        match input.read(&mut buf[..size]) {
            Ok(0) => return Some((place, refused)),
            Ok(count) => {
                for byte in &buf[..count.min(size)] {
                    if *byte != byte_at(place) {
                        return None;
                    }
                    place = place.saturating_add(1);
                }
            }
            Err(_) => refused = refused.saturating_add(1),
        }
    }
    None
}

#[test]
fn gives_the_bytes_of_its_source(rt: HostRuntime) {
    let (alloc, rt) = (rt.alloc(), &rt);
    for (most, size, refused) in [
        (8_192u64, 9_000usize, 0u64),
        (1, 3, 0),
        (5_000, 1, 3),
        (20_000, 8_191, 1),
    ] {
        let wanted = (LEN, if refused == 0 { 0 } else { 1 });
        let source = Source {
            place: 0,
            most,
            calls: 0,
            refused,
        };
        let Ok((mut input, _)) = InterruptibleInput::new(*rt, alloc) else {
            panic!(rt; "no input");
        };
        assert!(rt; input.read(&mut [0u8; 1]).is_err(), "it has no source");
        assert!(rt; input.start(source).is_ok(), "a thread");
        let found = given(&mut input, size);
        assert!(rt; found == Some(wanted), "all bytes, in order");
        assert!(rt; given(&mut input, size) == Some((0, 0)), "and then none");
    }
}

// A source that gives nothing before it is let go.
#[derive(Drop)]
struct Held {
    go: Arc<AtomicU64, Global>,
}

impl Read for Held {
    fn read(&mut self, _buf: &mut [u8]) -> io::Result<usize> {
        for _ in 0..u64::MAX {
            if self.go.load(Ordering::SeqCst) != 0 {
                return Ok(0);
            }
            thread::yield_now();
        }
        Ok(0)
    }
}

// What a read gives that waits while the input is called off: its source is let go only then.
fn called_off<R: Threads + Wait + Copy + Send + Drop + 'static>(
    rt: R,
    alloc: Global,
) -> Option<io::Result<usize>> {
    let go = Arc::new(alloc, AtomicU64::new(0)).ok()?;
    let held = Held {
        go: Arc::try_clone(&go).ok()?,
    };
    let (mut input, interrupter) = InterruptibleInput::new(rt, alloc).ok()?;
    input.start(held).ok()?;
    let reader = thread::spawn(&rt, move || input.read(&mut [0u8; 16])).ok()?;
    interrupter.interrupt();
    let read = reader.join(&rt);
    go.store(1, Ordering::SeqCst);
    Some(read)
}

#[test]
fn a_read_that_waits_finds_the_end(rt: HostRuntime) {
    let read = called_off(rt, rt.alloc());
    assert!(&rt; matches!(read, Some(Ok(0))), "it was called off");
}
