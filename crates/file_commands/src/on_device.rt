//! What `format`, `resume`, `migrate` and `copy` do on devices that are open, and print.
ghost use Rattle.std.specs.Prelude.{◌<◌};
ghost use Rattle.requests.specs.Tickets.{sessions};
ghost use Rattle.command_output.specs.Lines.{line, ticket_text};
ghost use Rattle.device_commands.specs.Openings.{IsOpenFault};
ghost use Rattle.file_commands.specs.Endings.{IsFormatEnd, IsOnlyRead, IsReadingEnd, OrOutput};
ghost use Rattle.file_commands.specs.Printed.{PrintsFormatted, PrintsTicket};
ghost use Rattle.file_commands.specs.Runs.{EndsAfter, EndsOn, EndsTransferOn};
ghost use Rattle.file_commands.specs.Uses.{stream, views};

use crate::answers::printed;
use crate::copying::copy_device;
use command_output::{Ended, Fault, Formatted, MigratedLine, TicketLine, print_line};
use disk_trait::Disk;
use std::alloc::Global;
use std::io::Write;

/// Formats a device for so many nodes, and prints that it did.
pub(crate) fn format_on<D: Disk, O: Write>(
    disk: &mut D,
    nodes: u16,
    out: &mut O,
) -> Result<Ended, Fault>
    ensures { EndsOn (λ _ _. Unit {0}) (PrintsFormatted nodes) (OrOutput (IsFormatEnd nodes)) (views (D.view disk.old) (D.view disk.new))
        (stream O.contents out.old out.new) result }
{
    device_commands::format(disk, nodes)?;
    print_line(out, Formatted { nodes })?;
    Ok(Ended::Done)
}

/// Prints the last ticket of a session on a device, which was only read.
pub(crate) fn resume_on<D: Disk, O: Write>(
    alloc: Global,
    disk: D,
    session: u8,
    out: &mut O,
) -> (Result<Ended, Fault>, D)
    requires { session < sessions }
    ensures { EndsOn IsOnlyRead (PrintsTicket session) (OrOutput (IsReadingEnd IsOpenFault)) (views (D.view disk) (D.view result.1))
        (stream O.contents out.old out.new) result.0 }
{
    let (answer, disk) = device_commands::resume(alloc, disk, session);
    (print_ticket(out, session, answer), disk)
}

fn print_ticket<O: Write>(
    out: &mut O,
    session: u8,
    answer: Result<u64, Fault>,
) -> Result<Ended, Fault>
    ensures { EndsAfter answer (λ _. Ended.Done) (λ ticket. line (ticket_text session ticket))
        (stream O.contents out.old out.new) result }
{
    let ticket = answer?;
    print_line(out, TicketLine { session, ticket })?;
    Ok(Ended::Done)
}

/// What a new device is made of.
#[derive(Clone, Copy, Drop)]
pub(crate) enum Transfer {
    /// Of what a device of layout 1 holds.
    Migration,
    /// Of what a device of this layout holds, its tickets too.
    Copy,
}

/// Makes a new device of an old one, which was only read, and prints how much it holds.
pub(crate) fn transfer_on<D: Disk, N: Disk, O: Write>(
    alloc: Global,
    transfer: Transfer,
    old: D,
    new: &mut N,
    out: &mut O,
) -> (Result<Ended, Fault>, D)
    ensures { EndsTransferOn transfer (views (D.view old) (D.view result.1)) (views (N.view new.old) (N.view new.new))
        (stream O.contents out.old out.new) result.0 }
{
    match transfer {
        Transfer::Migration => {
            let mut old = old;
            let ended = migrate_on(alloc, &mut old, new, out);
            (ended, old)
        }
        Transfer::Copy => printed(out, copy_device(alloc, old, new)),
    }
}

fn migrate_on<D: Disk, N: Disk, O: Write>(
    alloc: Global,
    old: &mut D,
    new: &mut N,
    out: &mut O,
) -> Result<Ended, Fault>
    ensures { EndsTransferOn Transfer.Migration (views (D.view old.old) (D.view old.new)) (views (N.view new.old) (N.view new.new))
        (stream O.contents out.old out.new) result }
{
    let moved = device_commands::migrate(alloc, old, new)?;
    print_line(
        out,
        MigratedLine {
            count: moved.count,
            edges: moved.edges,
        },
    )?;
    Ok(Ended::Done)
}
