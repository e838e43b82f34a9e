//! What commands print and tell.
ghost use Rattle.std.specs.Prelude.{◌≡◌, IfErr, OnOk};
ghost use Rattle.command_output.specs.Printing.{PrintsText};

use std::alloc::AllocError;
use std::fmt::Display;
use std::io::Write;
use thiserror::Error;

/// Why what a command has found out isn't printed.
#[derive(Clone, Copy, Debug, PartialEq, Eq, Drop, Error)]
pub enum PrintRefused {
    #[error("out of memory")]
    Memory,
    #[error("output failed")]
    Output,
}

impl From<AllocError> for PrintRefused {
    ghost use Rattle.lab_parts.specs.declared.telling.PrintRefused.TheVariants.{Memory};

    ghost from_gives = { λ _ e. e ≡ Memory };

    fn from(_: AllocError) -> Self {
        PrintRefused::Memory
    }
}

/// Prints a text, and flushes.
pub fn print<O: Write>(out: &mut O, text: &[u8]) -> Result<(), PrintRefused>
    ensures printed { OnOk result (PrintsText O.contents out.old out.new text.now) }
    ensures refused { IfErr result (λ refused. refused ≡ PrintRefused.Output) }
{
    match out.write_all(text) {
        Ok(()) => match out.flush() {
            Ok(()) => Ok(()),
            Err(_) => Err(PrintRefused::Output),
        },
        Err(_) => Err(PrintRefused::Output),
    }
}

/// Tells what went wrong, and answers the exit status.
pub fn told<E: Write, T: Display + Drop>(err: &mut E, status: u8, text: T) -> u8
    ensures { result ≡ status }
{
    let _told = writeln!(err, "tzlab: {text}");
    status
}

/// Tells what is wrong with a file, and answers the exit status 1.
pub fn told_of<E: Write, T: Display + Drop>(err: &mut E, file: &str, text: T) -> u8
    ensures { result ≡ 1 }
{
    let _told = writeln!(err, "tzlab: {file}: {text}");
    1
}

/// Tells what is wrong with a line of a file, counted from 1, and answers the exit status.
pub fn told_at<E: Write, T: Display + Drop>(
    err: &mut E,
    status: u8,
    file: &str,
    line: usize,
    text: T,
) -> u8
    ensures { result ≡ status }
{
    let _told = writeln!(err, "tzlab: {file}:{line}: {text}");
    status
}

/// Tells that memory ran out, and answers the exit status 1.
pub fn told_memory<E: Write>(err: &mut E) -> u8
    ensures { result ≡ 1 }
{
    told(err, 1, "out of memory")
}
