// The next line of a reader.
ghost use Rattle.std.specs.Prelude.{◌≡◌, ◌≢◌, ◌≤◌, IfErr, IfOk, IfSome, OnErr, OnOk, length};
ghost use Rattle.std.specs.Io.KnownBytes.{Keeps};
ghost use Rattle.std.specs.IoError.{error_kind};
ghost use Rattle.input_lines.specs.Lines.{first_line, longest_line};
ghost use Rattle.input_lines.specs.Reading.{DropsLine, IsFurther, IsNext, SkipsPart, TakesPart, Unfed};

use std::io::{self, BufRead, ErrorKind};

/// How many bytes a line has at most that is given, without its line feed. A longer one is read, and left.
pub const LONGEST_LINE: usize = 65_536;

/// What stands next in an input.
#[derive(Clone, Copy, Debug, PartialEq, Eq, Drop)]
pub enum NextLine {
    /// A line of at most [`LONGEST_LINE`] bytes.
    Line,
    /// A line that is longer.
    LongerLine,
    /// Nothing: no line is left.
    End,
}

/// What a part of a line ends with.
#[derive(Clone, Copy, Drop)]
pub(crate) enum Part {
    Fed,
    More,
    TooLong,
    AtEnd,
}

/// Reads the next line into `line`, without its line feed; what was in it is gone.
pub fn next_line<R: BufRead>(reader: &mut R, line: &mut Vec<u8>) -> io::Result<NextLine>
    ensures next { IfOk result (λ next. IfSome (R.remaining reader.old) (λ xs. IsNext xs next line.new.items)) }
    ensures rest { OnOk result (DropsLine (R.remaining reader.old) (R.remaining reader.new)) }

    ensures bounded { length line.new.items ≤ longest_line }
    ensures unfed { Unfed line.new.items }

    ensures further { OnErr result (IsFurther (R.remaining reader.old) (R.remaining reader.new)) }
    ensures retried { IfErr result (λ e. error_kind e ≢ ErrorKind.Interrupted) }
{
    line.clear();
    for _ in 0..u64::MAX {
        match append_part(reader, line)? {
            Part::Fed => return Ok(NextLine::Line),
            Part::More => {}
            Part::TooLong => return skip_longer(reader),
            Part::AtEnd => return Ok(last_line(line)),
        }
    }
    Err(gave_up())
}

/// What a line is that nothing stands behind.
fn last_line(line: &[u8]) -> NextLine
    requires bounded { length line.now ≤ longest_line }
    requires unfed { Unfed line.now }
    ensures { IsNext line.now result line.now }
{
    if line.is_empty() {
        NextLine::End
    } else {
        NextLine::Line
    }
}

/// Reads the rest of a longer line.
fn skip_longer<R: BufRead>(reader: &mut R) -> io::Result<NextLine>
    ensures longer { IfOk result (λ next. next ≡ NextLine.LongerLine) }
    ensures rest { OnOk result (DropsLine (R.remaining reader.old) (R.remaining reader.new)) }

    ensures further { OnErr result (IsFurther (R.remaining reader.old) (R.remaining reader.new)) }
    ensures retried { IfErr result (λ e. error_kind e ≢ ErrorKind.Interrupted) }
{
    for _ in 0..u64::MAX {
        if skip_part(reader)? {
            return Ok(NextLine::LongerLine);
        }
    }
    Err(gave_up())
}

/// Puts what a reader shows of a line behind what is there of it.
fn append_part<R: BufRead>(reader: &mut R, line: &mut Vec<u8>) -> io::Result<Part>
    requires bounded { length line.old.items ≤ longest_line }

    ensures ok { IfOk result
        (TakesPart (R.remaining reader.old) (R.remaining reader.new) line.old.items line.new.items) }
    ensures bounded { length line.new.items ≤ longest_line }

    ensures err { OnErr result (Keeps (R.remaining reader.old) (R.remaining reader.new)) }
    ensures unchanged { OnErr result (line.new.items ≡ line.old.items) }
    ensures retried { IfErr result (λ e. error_kind e ≢ ErrorKind.Interrupted) }
{
    let shown = match reader.fill_buf() {
        Ok(shown) => shown,
        Err(e) => return if e.kind() == ErrorKind::Interrupted {
            Ok(Part::More)
        } else {
            Err(e)
        },
    };
    if shown.is_empty() {
        return Ok(Part::AtEnd);
    }
    let part = first_line(shown);
    let fed = part.len() < shown.len();
    if part.len() > LONGEST_LINE - line.len() {
        return Ok(Part::TooLong);
    }
    let used = part.len() + fed as usize;
    line.extend_from_slice(part)?;
    reader.consume(used);
    Ok(if fed { Part::Fed } else { Part::More })
}

/// Leaves what a reader shows of a line. Gives whether nothing of it is left then.
fn skip_part<R: BufRead>(reader: &mut R) -> io::Result<bool>
    ensures ok { IfOk result (SkipsPart (R.remaining reader.old) (R.remaining reader.new)) }
    ensures err { OnErr result (Keeps (R.remaining reader.old) (R.remaining reader.new)) }
    ensures retried { IfErr result (λ e. error_kind e ≢ ErrorKind.Interrupted) }
{
    let shown = match reader.fill_buf() {
        Ok(shown) => shown,
        Err(e) => return if e.kind() == ErrorKind::Interrupted {
            Ok(false)
        } else {
            Err(e)
        },
    };
    if shown.is_empty() {
        return Ok(true);
    }
    let part = first_line(shown);
    let fed = part.len() < shown.len();
    let used = part.len() + fed as usize;
    reader.consume(used);
    Ok(fed)
}

/// What stands before the first line feed, or all where there is none.
fn first_line(shown: &[u8]) -> &[u8]
    ensures { result.now ≡ first_line shown.now }
{
    match shown.iter().position(|byte| *byte == b'\n') {
        Some(at) => &shown[..at],
        None => shown,
    }
}

fn gave_up() -> io::Error
    ensures { error_kind result ≡ ErrorKind.TimedOut }
{
    io::Error::from(ErrorKind::TimedOut)
}
