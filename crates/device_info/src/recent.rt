//! The command `journal`.
ghost use Rattle.std.specs.Prelude.{◌≡◌, ◌≢◌, ◌≤◌, IfErr, IfOk, OnOk};
ghost use Rattle.device_info.specs.Commands.{DoesJournal, IsInfoRefused, PrintsChanges, journal_app};
ghost use Rattle.lab_parts.specs.Grammar.{IsCommandOf};
ghost use Rattle.lab_parts.specs.Words.{rows_in};

use crate::changes::changes_of;
use crate::refused::InfoRefused;
use clap::{ArgMatches, Command};
use disk_trait::Disk;
use lab_parts::{
    PrintRefused, Sources, command, device, given, optional, print, told, told_memory, told_of,
    value,
};
use std::alloc::{AllocError, Global};
use std::io::Write;

/// Its grammar.
pub fn grammar<'a>(alloc: Global) -> Result<Command<'a>, AllocError>
    ensures { IfOk result (λ command. IsCommandOf command journal_app) }
{
    let about = "Prints the changes since the checkpoint of a device, a line each";
    let last = value("last", "N", "Prints no more than the last N changes");
    command(alloc, "journal", about, &[device(), last])
}

/// Prints the changes behind the checkpoint of the device that these matches name, and answers the exit status.
pub fn run<R, O, E>(rt: &R, found: &ArgMatches<'_>, out: &mut O, err: &mut E) -> u8
where
    R: Sources + AllocGlobal,
    O: Write,
    E: Write,
    ensures few { result ≤ 2 }
    // 0 only where they were printed, and 2 only where nothing was.
    ensures printed { result ≡ 0 → DoesJournal
        record { model = R.Device.Disk; opened = R.opened; closed = R.closed; stands = R.stands } (rows_in found.now)
        record { contents = O.contents; before = out.old; after = out.new } }
    ensures untouched { result ≡ 2 → out.new ≡ out.old }
{
    let Some(path) = given(found, "device") else {
        return 2;
    };
    let last = match optional(rt.alloc(), found, "last", u64::MAX) {
        Ok(Some(last)) => last.map(|last| last as usize),
        Ok(None) => return told(err, 2, "--last takes a number"),
        Err(_) => return told_memory(err),
    };
    let mut device = match rt.open_to_read(path) {
        Ok(device) => device,
        Err(refused) => return told_of(err, path, refused),
    };
    let ended = journal_on(rt.alloc(), &mut device, last, out);
    rt.close(device);
    match ended {
        Ok(()) => 0,
        Err(refused) => refused.told(err, path),
    }
}

/// Prints a line for each change behind the checkpoint of a device, or for no more than so many last ones. The device is only read.
pub fn journal_on<D: Disk, O: Write>(
    alloc: Global,
    disk: &mut D,
    last: Option<usize>,
    out: &mut O,
) -> Result<(), InfoRefused>
    ensures printed { OnOk result (PrintsChanges last (D.view disk.old) (D.view disk.new)
        record { contents = O.contents; before = out.old; after = out.new }) }
    ensures refused { IfErr result (λ refused. IsInfoRefused (D.view disk.old) (D.view disk.new) refused) }
    ensures untouched { IfErr result (λ refused. refused ≢ InfoRefused.Print PrintRefused.Output → out.new ≡ out.old) }
{
    let changes = changes_of(alloc, disk)?;
    let text = changes.text(alloc, last)?;
    print(out, text.as_bytes()).map_err(InfoRefused::Print)?;
    Ok(())
}
