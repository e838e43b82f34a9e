// Backups that are asked for while a service runs.
ghost use Rattle.std.specs.Prelude.{◌≡◌};
ghost use Rattle.checkpoint.specs.StoreWords.{state_of};
ghost use Rattle.committer.specs.CommitterWords.{posts_of, store_of};
ghost use Rattle.new_devices.specs.Backups.{IsBackupEnd};
ghost use Rattle.committer_thread.specs.Pace.{IsShown};

use crate::committing::stand_of;
use committer::Committer;
use disk_trait::Disk;
use new_devices::{NewDevices, backed_up};
use packet_ways::BoardName;
use service_actors::{Backed, Coordinator};
use std::alloc::Global;
use std::sync::Wait;

// Makes a backup of what the store holds now, and says how the board stands now.
fn backed<J: BoardName, D: Disk, R: Wait + Drop, F: NewDevices>(
    alloc: Global,
    committer: &Committer<D, R>,
    newest: Option<u64>,
    devices: &mut F,
    path: &str,
) -> Backed<J>
    requires opening { (posts_of committer.now).opening ≡ J.opening }
    requires shown { IsShown newest committer.now }
    // What is told of it came of this store, and so many changes are on the device.
    ensures end { IsBackupEnd F.Device.Disk (store_of committer.now) path.now (F.events devices.old) (F.events devices.new) result.end }
    ensures count { result.stand.count ≡ (state_of (store_of committer.now)).count }
{
    let end = backed_up(alloc, committer.store(), devices, path);
    let stand = stand_of::<J, D, R>(committer, newest);
    Backed { stand, end }
}

/// Makes the backup that is asked for, if one is, and tells what came of it.
pub(crate) fn back_up<J: BoardName, D: Disk, R: Wait + Drop, F: NewDevices, S: Wait>(
    rt: &S,
    alloc: Global,
    coordinator: &Coordinator<J>,
    committer: &Committer<D, R>,
    newest: Option<u64>,
    devices: &mut F,
)
    requires opening { (posts_of committer.now).opening ≡ J.opening }
    requires shown { IsShown newest committer.now }
{
    if let Some(path) = coordinator.asked_backup(rt) {
        let backed = backed::<J, D, R, F>(alloc, committer, newest, devices, path.as_str());
        coordinator.tell_backup(rt, backed);
    }
}
