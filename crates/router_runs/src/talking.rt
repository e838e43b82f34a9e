// Lines in, answers out.
ghost use Rattle.std.specs.Prelude.{◌≢◌, ℕ, List, IfErr, OnOk};
ghost use Rattle.std.specs.Io.KnownBytes.{Appends};
ghost use Rattle.input_lines.specs.Reading.{IsNext};
ghost use Rattle.router_runs.specs.Runs.{AnswersAll, AnswersSome, IsAnswered, IsAnsweredNext, Loads, printed_text};
ghost use Rattle.router_runs.specs.Faults.{IsOutputFault, LeavesOutput};

use crate::line_reader::LineReader;
use crate::source::{TableSource, Unread};
use input_lines::{NextLine, next_line};
use router_lines::{Answer, Shelf, asked_in, dropped_in, file_in};
use router_table::ReadRefused;
use std::alloc::{AllocError, Global};
use std::io::{self, ErrorKind, Write};

/// Why a run ends before its input does.
#[derive(Drop)]
pub enum RunFault {
    /// A line can't be read.
    Input(io::Error),
    /// An answer can't be printed.
    Output(io::Error),
    Memory,
}

impl From<AllocError> for RunFault {
    ghost use Rattle.std.specs.Prelude.{◌≡◌};
    ghost use Rattle.router_runs.specs.declared.talking.RunFault.TheVariants.{Memory};

    ghost from_gives = { λ _ e. e ≡ Memory };

    fn from(_: AllocError) -> RunFault {
        RunFault::Memory
    }
}

// Loads the table of a file.
fn load<F: TableSource>(alloc: Global, shelf: &mut Shelf, files: &mut F, file: &[u8]) -> Answer
    ensures { Loads F.reads shelf.old file.now result shelf.new }
{
    match files.read(alloc, file) {
        Ok(bytes) => shelf.load_bytes(bytes),
        Err(Unread::TooLong) => Answer::NotRead(ReadRefused::TooLong),
        Err(Unread::NoFile) => Answer::NoFile,
    }
}

// Answers a line.
fn answer_line<F: TableSource>(
    alloc: Global,
    shelf: &mut Shelf,
    files: &mut F,
    line: &[u8],
) -> Answer
    ensures { IsAnswered F.reads shelf.old line.now result shelf.new }
{
    match file_in(line) {
        Some(file) => load(alloc, shelf, files, file),
        None => match dropped_in(line) {
            Some(generation) => shelf.forget(generation),
            None => shelf.answer(&asked_in(line)),
        },
    }
}

// Answers the line that stands next.
fn answer_next<F: TableSource>(
    alloc: Global,
    shelf: &mut Shelf,
    files: &mut F,
    next: NextLine,
    line: &[u8],
) -> Answer
    requires { next ≢ NextLine.End }
    ensures { (bytes : List ℕ) → IsNext bytes next line.now
        → IsAnsweredNext F.reads shelf.old bytes result shelf.new }
{
    match next {
        NextLine::Line => answer_line(alloc, shelf, files, line),
        _ => Answer::NotUnderstood,
    }
}

// Prints the line of an answer, at once where no line more is at hand.
fn print<O: Write>(alloc: Global, out: &mut O, answer: &Answer, more: bool) -> Result<(), RunFault>
    ensures printed { OnOk result (Appends (O.contents out.old) (O.contents out.new) (printed_text answer.now)) }
    ensures fault { IfErr result (λ fault. LeavesOutput fault out.old out.new) }
{
    let mut text = answer.text(alloc)?;
    text.push_str("\n")?;
    if let Err(error) = out.write_all(text.as_bytes()) {
        return Err(RunFault::Output(error));
    }
    if more {
        return Ok(());
    }
    match out.flush() {
        Ok(()) => Ok(()),
        Err(error) => Err(RunFault::Output(error)),
    }
}

/// Answers each line, until the input ends.
pub fn answer_lines<R: LineReader, O: Write, F: TableSource>(
    alloc: Global,
    shelf: &mut Shelf,
    files: &mut F,
    reader: &mut R,
    out: &mut O,
) -> Result<(), RunFault>
    ensures ok { OnOk result (AnswersAll F.reads (R.remaining reader.old) shelf.old (O.contents out.old)
        shelf.new (O.contents out.new)) }
    // Unless the output failed, the answers of the first lines were printed, and nothing else.
    ensures fault { IfErr result (λ fault. IsOutputFault fault (AnswersSome F.reads (R.remaining reader.old)
        shelf.old (O.contents out.old) (O.contents out.new))) }
{
    let mut line = Vec::new(alloc);
    for _ in 0..u64::MAX {
        let next = match next_line(reader, &mut line) {
            Ok(next) => next,
            Err(error) => return Err(RunFault::Input(error)),
        };
        if next == NextLine::End {
            return Ok(());
        }
        let answer = answer_next(alloc, shelf, files, next, &line);
        print(alloc, out, &answer, reader.has_line())?;
    }
    Err(RunFault::Input(io::Error::from(ErrorKind::TimedOut)))
}
