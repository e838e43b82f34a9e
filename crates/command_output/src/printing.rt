//! What is printed on a writer.
ghost use Rattle.std.specs.Prelude.{◌≡◌, IfErr, OnOk};
ghost use Rattle.std.specs.Io.KnownBytes.{Keeps};
ghost use Rattle.command_output.specs.Faults.{told_text};
ghost use Rattle.command_output.specs.Printing.{PrintsLine, PrintsText};

use crate::fault::Fault;
use std::fmt::Display;
use std::io::{self, Write};

/// Prints a line, and flushes.
pub fn print_line<O: Write, L: Display + Drop>(out: &mut O, line: L) -> Result<(), Fault>
    ensures printed { OnOk result (PrintsLine O.contents out.old out.new (L.output line)) }
    ensures fault { IfErr result (λ fault. fault ≡ Fault.Output) }
{
    match writeln!(out, "{line}") {
        Ok(()) => flush(out),
        Err(_) => Err(Fault::Output),
    }
}

/// Prints a text as it is, and flushes.
pub fn print_text<O: Write>(out: &mut O, text: &str) -> Result<(), Fault>
    ensures printed { OnOk result (PrintsText O.contents out.old out.new text.now) }
    ensures fault { IfErr result (λ fault. fault ≡ Fault.Output) }
{
    match out.write_all(text.as_bytes()) {
        Ok(()) => flush(out),
        Err(_) => Err(Fault::Output),
    }
}

fn flush<O: Write>(out: &mut O) -> Result<(), Fault>
    ensures keeps { Keeps (O.contents out.old) (O.contents out.new) }
    ensures fault { IfErr result (λ fault. fault ≡ Fault.Output) }
{
    match out.flush() {
        Ok(()) => Ok(()),
        Err(_) => Err(Fault::Output),
    }
}

/// Tells a fault: `tznode: `, its text and a line feed.
pub fn tell<E: Write>(err: &mut E, fault: Fault) -> io::Result<()>
    ensures { OnOk result (PrintsText E.contents err.old err.new (told_text fault)) }
{
    writeln!(err, "tznode: {}", fault.text())
}
