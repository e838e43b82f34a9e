// What is told besides faults: why a file can't be had, and what can't be after any crash.
use command_line::{Task, parse_task};
use device_files::{DeviceFile, FileRefused};
use device_suspects::suspects_of;
use file_commands::Access;
use std::alloc::Global;
use std::fs::File;
use std::io::Write;
use std::rt::Files;

// The path by which a task asks so for a file.
fn path_asked<'a>(task: &Task<'a>, access: Access) -> &'a str {
    match (task, access) {
        (Task::Migrate { new, .. } | Task::Copy { new, .. }, Access::New) => new,
        (Task::Migrate { old, .. } | Task::Copy { old, .. }, _) => old,
        (
            Task::Format { device, .. }
            | Task::Show { device }
            | Task::Edit { device, .. }
            | Task::Resume { device, .. }
            | Task::Route { device, .. }
            | Task::Check { device, .. }
            | Task::Serve { device, .. }
            | Task::Tables { device, .. },
            _,
        ) => device,
    }
}

/// Tells which file can't be had and why, where there is more to say than the fault: `tznode: FILE: CAUSE`.
pub(crate) fn tell_cause<E: Write>(
    alloc: Global,
    words: &[&str],
    refused: Option<(Access, FileRefused)>,
    err: &mut E,
) {
    let Some((access, why)) = refused else {
        return;
    };
    let Ok(task) = parse_task(alloc, words) else {
        return;
    };
    let path = path_asked(&task, access);
    let _told = match why {
        FileRefused::OtherKind | FileRefused::Full => writeln!(err, "tznode: {path}: {why}"),
        FileRefused::ExistsBeside => writeln!(err, "tznode: {path}.new: {}", FileRefused::Exists),
        FileRefused::InUse | FileRefused::Exists | FileRefused::Unusable => Ok(()),
    };
}

/// Tells what can't be after any crash on the device of a live service: a line `tznode: suspect ..` each. A device that can't be read is
/// left to the service.
pub fn tell_suspects<R: Files<File = File> + AllocGlobal, E: Write>(
    rt: &R,
    words: &[&str],
    err: &mut E,
) {
    let Ok(
        Task::Serve {
            device,
            live: Some(_),
            ..
        },
    ) = parse_task(rt.alloc(), words)
    else {
        return;
    };
    let Ok(mut disk) = DeviceFile::open_to_read(rt, device) else {
        return;
    };
    let Ok(suspects) = suspects_of(rt.alloc(), &mut disk) else {
        return;
    };
    for suspect in suspects.all().iter().flatten() {
        let _told = writeln!(err, "tznode: {suspect}");
    }
}
