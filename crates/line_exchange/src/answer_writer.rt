// Where answers are printed, and what knows that a write failed.
ghost use Rattle.std.specs.Prelude.{◌≡◌, ◌≤◌, IfOk, IsTrue, OnErr, OnOk, length, take};
ghost use Rattle.std.specs.Io.KnownBytes.{Appends, Keeps};
ghost use Rattle.line_exchange.specs.Begun.{Begins};

use std::io::{self, ErrorKind, Write};

/// A writer of answers. Where a write of it fails, a beginning of the text stands there. Any writer is one, of which contracts don't know
/// whether a write failed; of a [`WatchedOutput`] they do.
pub trait AnswerWriter {
    ghost use Rattle.std.specs.Prelude.{ℕ, List, Option, OnErr, OnOk};
    ghost use Rattle.std.specs.Io.KnownBytes.{Appends, Keeps};
    ghost use Rattle.line_exchange.specs.Begun.{Begins};

    /// What it holds, where that is known.
    ghost contents: { Self → Option (List ℕ) };

    /// A write of it has failed.
    ghost has_failed: { Self → Type 0 };

    /// Writes a text.
    fn put(&mut self, text: &[u8]) -> io::Result<()>
        ensures whole { OnOk result (Appends (contents self.old) (contents self.new) text.now) }
        ensures begun { Begins (contents self.old) (contents self.new) text.now }
        ensures failed { OnErr result (has_failed self.new) };

    /// Hands on what was written.
    fn hand_on(&mut self) -> io::Result<()>
        ensures keeps { Keeps (contents self.old) (contents self.new) }
        ensures failed { OnErr result (has_failed self.new) };
}

// Writes a front of a text, and answers how many bytes it has: none where the write was interrupted.
#[tactic(auto, using(crate::proofs::PrintedLines::appends_nothing, crate::proofs::PrintedLines::keeps_none))]
fn write_front<W: Write>(out: &mut W, text: &[u8]) -> io::Result<usize>
    ensures within { IfOk result (λ n. n ≤ length text.now) }
    ensures taken { IfOk result (λ n. Appends (W.contents out.old) (W.contents out.new) (take n text.now)) }
    ensures kept { OnErr result (Keeps (W.contents out.old) (W.contents out.new)) }
{
    match out.write(text) {
        Ok(0) => Err(io::Error::from(ErrorKind::WriteZero)),
        Ok(count) => Ok(count),
        Err(error) => match error.kind() {
            ErrorKind::Interrupted => Ok(0),
            _ => Err(error),
        },
    }
}

// Writes a text, as `write_all` does.
#[tactic(auto, using(crate::proofs::PrintedLines::begins_so, crate::proofs::PrintedLines::keeps_same))]
fn write_text<W: Write>(out: &mut W, text: &[u8]) -> io::Result<()>
    ensures whole { OnOk result (Appends (W.contents out.old) (W.contents out.new) text.now) }
    ensures begun { Begins (W.contents out.old) (W.contents out.new) text.now }
{
    let mut rest = text;
    for _ in 0..u64::MAX {
        if rest.is_empty() {
            return Ok(());
        }
        let count = write_front(out, rest)?;
        rest = &rest[count..];
    }
    Err(io::Error::from(ErrorKind::TimedOut))
}

/// Prints a text, and hands it on. Where that fails a beginning of it was printed.
#[tactic(auto, using(crate::proofs::PrintedLines::begins_still))]
pub(crate) fn print_text<O: AnswerWriter>(out: &mut O, text: &str) -> io::Result<()>
    ensures printed { OnOk result (Appends (O.contents out.old) (O.contents out.new) text.now) }
    ensures begun { Begins (O.contents out.old) (O.contents out.new) text.now }
    ensures failed { OnErr result (O.has_failed out.new) }
{
    match out.put(text.as_bytes()) {
        Ok(()) => out.hand_on(),
        Err(error) => Err(error),
    }
}

impl<W: Write> AnswerWriter for W {
    ghost use Rattle.std.specs.Prelude.{⊤};

    ghost contents = { λ w. W.contents w };

    ghost has_failed = { λ _. ⊤ };

    fn put(&mut self, text: &[u8]) -> io::Result<()> {
        write_text(self, text)
    }

    fn hand_on(&mut self) -> io::Result<()> {
        self.flush()
    }
}

/// Any writer, as a writer of answers that remembers whether a write failed.
#[derive(Drop)]
pub struct WatchedOutput<W> {
    writer: W,
    failed: bool,
}

impl<W: Write> WatchedOutput<W> {
    /// A writer of which no write has failed yet.
    pub fn new(writer: W) -> WatchedOutput<W>
        ensures contents { ⟦<WatchedOutput<W> as AnswerWriter>⟧.contents result ≡ W.contents writer }
        ensures unfailed { ¬ ⟦<WatchedOutput<W> as AnswerWriter>⟧.has_failed result }
    {
        WatchedOutput {
            writer,
            failed: false,
        }
    }

    // Remembers whether a write failed.
    fn noted(&mut self, written: io::Result<()>) -> io::Result<()>
        ensures writer { self.new.writer ≡ self.old.writer }
        ensures same { result ≡ written }
        ensures failed { OnErr result (IsTrue self.new.failed) }
    {
        if written.is_err() {
            self.failed = true;
        }
        written
    }
}

impl<W: Write> AnswerWriter for WatchedOutput<W> {
    ghost use Rattle.std.specs.Prelude.{IsTrue};

    ghost contents = { λ w. W.contents w.writer };

    ghost has_failed = { λ w. IsTrue w.failed };

    fn put(&mut self, text: &[u8]) -> io::Result<()> {
        let written = write_text(&mut self.writer, text);
        self.noted(written)
    }

    fn hand_on(&mut self) -> io::Result<()> {
        let flushed = self.writer.flush();
        self.noted(flushed)
    }
}
