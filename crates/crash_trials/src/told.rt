//! What is told of a rehearsal's text.
ghost use Rattle.std.specs.Prelude.{◌≡◌, ◌≢◌, IfErr, IfOk, OnOk};
ghost use Rattle.std.specs.String.{string_bytes};
ghost use Rattle.rehearsal_syntax.specs.Grammar.{IsRehearsal};
ghost use Rattle.crash_trials.specs.Told.{IsNotRun, IsToldOf, IsToldOfLines, IsWhyNot, PrintsTold};

use crate::trial::try_every_stop;
use crate::watched::Watched;
use disk_trait::{Disk, MemDisk};
use lab_parts::{PrintRefused, print};
use rehearsal_syntax::{LineRefused, RehearsalLine, read_rehearsal};
use rehearsals::{Rehearsal, RehearseRefused, lives_of, rehearse};
use std::alloc::{AllocError, Global};
use std::cell::RefCell;
use std::io::{IsTerminal, Write};

/// What is asked for of a rehearsal.
#[derive(Clone, Copy, Drop)]
pub enum Asked {
    /// What its lives were answered.
    Report,
    /// What came back after each stop of the last life's device, at most so many.
    Stops(usize),
}

/// Why nothing, or not all, is printed of a rehearsal.
#[derive(Clone, Copy, Drop)]
pub enum NotRehearsed {
    /// The first line that isn't understood.
    Line(LineRefused),
    /// The lives aren't run.
    Lives(RehearseRefused),
    Print(PrintRefused),
}

impl From<AllocError> for NotRehearsed {
    ghost use Rattle.crash_trials.specs.declared.told.NotRehearsed.TheVariants.{Print};
    ghost use Rattle.lab_parts.specs.declared.telling.PrintRefused.TheVariants.{Memory};

    ghost from_gives = { λ _ e. e ≡ Print Memory };

    fn from(_: AllocError) -> Self {
        NotRehearsed::Print(PrintRefused::Memory)
    }
}

/// Runs the lives that a text asks for, and prints what is asked for of them. A terminal behind `err` sees how many stops were tried.
pub fn rehearse_text<O: Write, E: Write + IsTerminal>(
    alloc: Global,
    text: &str,
    asked: Asked,
    out: &mut O,
    err: &mut E,
) -> Result<(), NotRehearsed>
    ensures printed { OnOk result (PrintsTold
        record { memory = ⟦<MemDisk as Disk>⟧; watched = ⟦<Watched as Disk>⟧ } text.now asked
        record { contents = O.contents; before = out.old; after = out.new }) }

    // Which line isn't understood. Only where the output failed may a part be printed.
    ensures refused { IfErr result (λ refused. IsWhyNot text.now refused) }
    ensures untouched { IfErr result (λ refused. refused ≢ NotRehearsed.Print PrintRefused.Output → out.new ≡ out.old) }
{
    let lines = match read_rehearsal(alloc, text)? {
        Ok(lines) => lines,
        Err(refused) => return Err(NotRehearsed::Line(refused)),
    };
    let told = told_of_lines(alloc, lines, asked, err)?;
    print(out, told.as_bytes()).map_err(NotRehearsed::Print)?;
    Ok(())
}

// The text of what is asked for of the lives of these lines: of none it is empty.
fn told_of_lines<E: Write + IsTerminal>(
    alloc: Global,
    lines: Vec<RehearsalLine>,
    asked: Asked,
    err: &mut E,
) -> Result<String, NotRehearsed>
    requires { IsRehearsal lines.items }
    ensures told { IfOk result (λ told. IsToldOfLines
        record { memory = ⟦<MemDisk as Disk>⟧; watched = ⟦<Watched as Disk>⟧ } lines.items asked (string_bytes told)) }
    ensures refused { IfErr result (λ refused. IsNotRun refused) }
{
    match lives_of(alloc, lines)? {
        Some(rehearsal) => {
            Ok(told_of(alloc, rehearsal, asked, err).map_err(NotRehearsed::Lives)?)
        }
        None => Ok(String::new(alloc)),
    }
}

// The text of what is asked for.
fn told_of<E: Write + IsTerminal>(
    alloc: Global,
    mut rehearsal: Rehearsal,
    asked: Asked,
    err: &mut E,
) -> Result<String, RehearseRefused>
    ensures { IfOk result (λ told. IsToldOf
        record { memory = ⟦<MemDisk as Disk>⟧; watched = ⟦<Watched as Disk>⟧ } rehearsal asked (string_bytes told)) }
{
    match asked {
        Asked::Report => rehearse(alloc, &rehearsal),
        Asked::Stops(most) => {
            let is_shown = err.is_terminal();
            let shown = RefCell::new(err);
            let text = try_every_stop(alloc, &mut rehearsal, most, |tried: usize| {
                if let Ok(mut err) = shown.try_borrow_mut() {
                    progress(&mut **err, is_shown, tried);
                }
            });
            if let Ok(mut err) = shown.try_borrow_mut() {
                progress_ends(&mut **err, is_shown);
            }
            text
        }
    }
}

// Tells a terminal now and then how many stops were tried.
fn progress<E: Write>(err: &mut E, is_shown: bool, tried: usize) {
    if is_shown && tried % 32 == 0 {
        let _told = write!(err, "\r{tried} stops tried");
    }
}

// Clears that line.
fn progress_ends<E: Write>(err: &mut E, is_shown: bool) {
    if is_shown {
        let _told = write!(err, "\r\x1b[K");
    }
}
