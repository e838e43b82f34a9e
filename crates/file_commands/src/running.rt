//! Any task that is no service, on devices of any kind.
ghost use Rattle.std.specs.Prelude.{◌≡◌, ◌++◌, ◌∷◌, [], cond};
ghost use Rattle.file_commands.specs.Endings.{access_of, device_of};
ghost use Rattle.file_commands.specs.Events.{Closed, HasDone};
ghost use Rattle.file_commands.specs.Runs.{EndsAt, EndsTask, EndsTaskOn, EndsTransferAt};
ghost use Rattle.file_commands.specs.Tasks.{HasSession, IsOfTables, IsOfTwo, IsService};
ghost use Rattle.file_commands.specs.Uses.{device_use, stream, views};
ghost use Rattle.table_files.specs.Files.{PutBy};

use crate::answers::printed;
use crate::devices::{Access, Devices};
use crate::on_device::{Transfer, format_on, resume_on, transfer_on};
use crate::scheme_tasks::{check_device, route_device};
use crate::tables::tables_on;
use command_line::Task;
use command_output::{Ended, Fault};
use device_commands::{edit, listing};
use disk_trait::Disk;
use std::alloc::Global;
use std::io::Write;
use std::sync::Wait;
use std::thread::Threads;
use table_files::TableFiles;

/// Does what a task asks for that is no service: its devices are opened and closed at this place, the files of `tables` are put at that
/// one, and the answer is printed.
pub fn run_task<R, F, T, O>(
    rt: &R,
    devices: &mut F,
    tables: &mut T,
    task: Task<'_>,
    out: &mut O,
) -> Result<Ended, Fault>
where
    R: AllocGlobal + Threads + Wait + Sync,
    F: Devices,
    T: TableFiles,
    O: Write,
    requires batch { ¬ IsService task }
    requires session { HasSession task }
    ensures ends { EndsTask (device_use F.Device.Disk (HasDone F.opened F.events devices.old devices.new))
        (PutBy T.puts tables.old tables.new) task.entry (stream O.contents out.old out.new) result }

    ensures unput { ¬ IsOfTables task.entry → T.puts tables.new ≡ T.puts tables.old }
{
    let alloc = rt.alloc();
    match task {
        Task::Migrate { old, new } => {
            run_transfer(alloc, devices, Transfer::Migration, old, new, out)
        }
        Task::Copy { old, new } => run_transfer(alloc, devices, Transfer::Copy, old, new, out),
        task => run_opened(rt, devices, tables, task, out),
    }
}

// Does what a task asks for on its device, which is opened and closed.
#[tactic(auto, using(table_files::proofs::PutFiles::none_put))]
fn run_opened<R, F, T, O>(
    rt: &R,
    devices: &mut F,
    tables: &mut T,
    task: Task<'_>,
    out: &mut O,
) -> Result<Ended, Fault>
where
    R: AllocGlobal + Threads + Wait + Sync,
    F: Devices,
    T: TableFiles,
    O: Write,
    requires batch { ¬ IsService task }
    requires alone { ¬ IsOfTwo task }
    requires session { HasSession task }
    ensures ends { EndsAt (device_use F.Device.Disk (HasDone F.opened F.events devices.old devices.new))
        (PutBy T.puts tables.old tables.new) task.entry (stream O.contents out.old out.new) result }

    ensures unput { ¬ IsOfTables task.entry → T.puts tables.new ≡ T.puts tables.old }
{
    let path = path_of(&task);
    let access = access_for(&task);
    let disk = devices.open(path, access)?;
    let (ended, disk) = perform(rt, disk, tables, task, out);
    take_back(devices, path, disk, is_kept(access, &ended));
    ended
}

// The path of a task's device.
fn path_of<'a>(task: &Task<'a>) -> &'a str
    ensures { result.now ≡ device_of task.now }
{
    match task {
        Task::Format { device, .. }
        | Task::Show { device }
        | Task::Edit { device, .. }
        | Task::Resume { device, .. }
        | Task::Route { device, .. }
        | Task::Check { device, .. }
        | Task::Serve { device, .. }
        | Task::Tables { device, .. } => device,
        Task::Migrate { old, .. } | Task::Copy { old, .. } => old,
    }
}

// How a task has its device.
fn access_for(task: &Task<'_>) -> Access
    ensures { result ≡ access_of task.now }
{
    match task {
        Task::Format { is_new, .. } => format_access(*is_new),
        Task::Edit { .. } | Task::Serve { .. } => Access::ToChange,
        _ => Access::ToRead,
    }
}

// How `format` has its device: anew, or where nothing may stand yet.
fn format_access(is_new: bool) -> Access
    ensures { result ≡ cond is_new Access.Fresh Access.Anew }
{
    if is_new { Access::Fresh } else { Access::Anew }
}

// Does what a task asks for on its device, which is open.
fn perform<R, D, T, O>(
    rt: &R,
    disk: D,
    tables: &mut T,
    task: Task<'_>,
    out: &mut O,
) -> (Result<Ended, Fault>, D)
where
    R: AllocGlobal + Threads + Wait + Sync,
    D: Disk,
    T: TableFiles,
    O: Write,
    requires batch { ¬ IsService task }
    requires alone { ¬ IsOfTwo task }
    requires session { HasSession task }
    ensures ends { EndsTaskOn (PutBy T.puts tables.old tables.new) task.entry (views (D.view disk) (D.view result.1))
        (stream O.contents out.old out.new) result.0 }

    ensures unput { ¬ IsOfTables task.entry → T.puts tables.new ≡ T.puts tables.old }
{
    match task {
        Task::Format {
            device: _,
            nodes,
            is_new: _,
        } => {
            let mut disk = disk;
            let ended = format_on(&mut disk, nodes, out);
            (ended, disk)
        }
        Task::Show { device: _ } => printed(out, listing(rt.alloc(), disk)),
        Task::Edit {
            device: _,
            session,
            ticket,
            change,
        } => printed(out, edit(rt, rt.alloc(), disk, session, ticket, change)),
        Task::Resume { device: _, session } => resume_on(rt.alloc(), disk, session, out),
        Task::Route {
            device: _,
            pairs,
            words,
        } => printed(out, route_device(rt.alloc(), disk, &words, &pairs)),
        Task::Check { device: _, words } => printed(out, check_device(rt, disk, &words)),
        Task::Tables {
            device: _,
            folder,
            nodes,
            words,
        } => tables_on(rt, disk, tables, &words, folder, &nodes, out),
        Task::Migrate { .. } | Task::Copy { .. } | Task::Serve { .. } => unreachable!(),
    }
}

// Whether a new device is of use when a command ended so. Where the output alone failed, it holds all.
fn is_of_use(ended: &Result<Ended, Fault>) -> bool {
    matches!(ended, Ok(_) | Err(Fault::Output))
}

// Whether a device that a command had so is kept when it ended so.
fn is_kept(access: Access, ended: &Result<Ended, Fault>) -> bool {
    access != Access::Fresh || is_of_use(ended)
}

// Whether the new device of a transfer stays. That of a migration does, whatever it holds.
fn stays(transfer: Transfer, ended: &Result<Ended, Fault>) -> bool {
    matches!(transfer, Transfer::Migration) || is_of_use(ended)
}

// Takes a device back, with its name where it isn't kept.
fn take_back<F: Devices>(devices: &mut F, path: &str, device: F::Device, is_kept: bool)
    ensures { F.events devices.new ≡ F.events devices.old ++ Closed device ∷ [] }
{
    if is_kept {
        devices.close(device);
    } else {
        devices.discard(path, device);
    }
}

// Makes a new device of an old one. The old one is opened first, and for reading alone.
fn run_transfer<F: Devices, O: Write>(
    alloc: Global,
    devices: &mut F,
    transfer: Transfer,
    old: &str,
    new: &str,
    out: &mut O,
) -> Result<Ended, Fault>
    ensures { EndsTransferAt (device_use F.Device.Disk (HasDone F.opened F.events devices.old devices.new)) transfer
        old.now new.now (stream O.contents out.old out.new) result }
{
    let from = devices.open(old, Access::ToRead)?;
    match devices.open(new, Access::New) {
        Ok(to) => {
            let mut to = to;
            let (ended, from) = transfer_on(alloc, transfer, from, &mut to, out);
            devices.close(from);
            take_back(devices, new, to, stays(transfer, &ended));
            ended
        }
        Err(fault) => {
            devices.close(from);
            Err(fault)
        }
    }
}
