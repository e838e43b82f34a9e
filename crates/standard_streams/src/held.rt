// The numbers of the standard streams.
use std::fs::{File, OpenOptions};
use std::io;
use std::rt::Files;

// A read of this file finds its end.
const EMPTY: &str = "/dev/null";

/// Files by which no number of a standard stream is free, for as long as it is kept.
#[derive(Drop)]
pub struct HeldStreams<F> {
    // Each file gets the least number that is free, so three are enough for three streams.
    _files: [F; 3],
}

/// Sees to it that no file that is opened from now on gets the number of a standard stream.
pub fn hold_streams<R: Files<File = File>>(files: &R) -> io::Result<HeldStreams<File>> {
    Ok(HeldStreams {
        _files: [
            File::open(files, EMPTY)?,
            File::open(files, EMPTY)?,
            File::open(files, EMPTY)?,
        ],
    })
}
