//! Where faults are told, and what knows that one couldn't be.
ghost use Rattle.std.specs.Prelude.{◌≡◌, IsTrue, OnErr, OnOk, false};
ghost use Rattle.std.specs.Io.KnownBytes.{Appends};
ghost use Rattle.command_output.specs.Faults.{told_text};

use crate::fault::Fault;
use crate::printing::tell;
use std::io;
use std::io::Write;

/// A writer on which faults are told, and of which contracts know whether a write failed. Of std's `Write` they don't.
pub trait FaultWriter {
    ghost use Rattle.std.specs.Prelude.{ℕ, Bool, List, Option};

    /// What it holds, where that is known.
    ghost contents: { Self → Option (List ℕ) };

    /// Whether a write of it has failed.
    ghost has_failed: { Self → Bool };

    /// Tells a fault: `tznode: `, its text and a line feed.
    fn tell(&mut self, fault: Fault) -> io::Result<()>
        ensures told { OnOk result (Appends (contents self.old) (contents self.new) (told_text fault)) }
        ensures failed { OnErr result (IsTrue (has_failed self.new)) };
}

/// Any writer, on which faults are told. It remembers whether a write failed.
#[derive(Drop)]
pub struct WatchedWriter<W> {
    writer: W,
    failed: bool,
}

impl<W: Write> WatchedWriter<W> {
    /// A writer of which no write has failed yet.
    pub fn new(writer: W) -> WatchedWriter<W>
        ensures contents { ⟦<WatchedWriter<W> as FaultWriter>⟧.contents result ≡ W.contents writer }
        ensures unfailed { ⟦<WatchedWriter<W> as FaultWriter>⟧.has_failed result ≡ false }
    {
        WatchedWriter {
            writer,
            failed: false,
        }
    }
}

impl<W: Write> FaultWriter for WatchedWriter<W> {
    ghost contents = { λ w. W.contents w.writer };

    ghost has_failed = { λ w. w.failed };

    fn tell(&mut self, fault: Fault) -> io::Result<()> {
        let told = tell(&mut self.writer, fault);
        if told.is_err() {
            self.failed = true;
        }
        told
    }
}
