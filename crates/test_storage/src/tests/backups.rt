// Backups: each call of the new device failing, and what a crash leaves of it then.
ghost use Rattle.std.specs.Prelude.{IfOk};
ghost use Rattle.disk_trait.specs.Memory.{mem_view};
ghost use Rattle.new_devices.specs.Events.{IsBlank};

use super::*;

// A place in memory: the n-th call of a device that is made here fails, and the device stays once it is let go.
#[derive(Drop)]
struct FailingDevices {
    alloc: Global,
    call: u64,
    left: Option<MemDisk>,
    done: MakeLog<MemDisk>,
}

// A blank disk, whose n-th call fails.
fn failing(alloc: Global, len: usize, call: u64) -> Result<MemDisk, AllocError>
    ensures { IfOk result (λ disk. IsBlank len (mem_view disk)) }
{
    let mut disk = test_doubles::blank(alloc, len)?;
    disk.fail_at(call);
    Ok(disk)
}

impl NewDevices for FailingDevices {
    ghost use Rattle.new_devices.specs.Events.{events_in};

    type Device = MemDisk;

    ghost events = { λ devices. events_in devices.done };

    fn make(&mut self, path: &str, len: usize) -> Result<MemDisk, BackupRefused> {
        match failing(self.alloc, len, self.call) {
            Ok(disk) if disk.len() == len => {
                self.done.made(path, &disk);
                Ok(disk)
            }
            _ => Err(BackupRefused::Unusable),
        }
    }

    fn let_go(&mut self, device: MemDisk) {
        self.done.let_go(&device);
        self.left = Some(device);
    }
}

// Backs a store up to a device whose n-th call fails, and gives the device.
fn backs_up(rt: &impl Host, store: &Store<MemDisk>, call: u64) -> MemDisk {
    let mut devices = FailingDevices {
        alloc: rt.alloc(),
        call,
        left: None,
        done: MakeLog::new(),
    };
    let answer = backed_up(rt.alloc(), store, &mut devices, "b");
    let device = Err(BackupRefused::Device);
    let want = if call > 10 { Ok(()) } else { device };
    same(rt, answer, want, "a backup");
    let left = devices.left.take();
    got(rt, left.ok_or("no device"))
}

// Sees that this is left of a backup: the whole with its ticket, where it is to be, or else the whole or no device.
fn is_left(rt: &impl Host, disk: MemDisk, is_whole: bool) {
    match test_doubles::opened(rt.alloc(), disk) {
        Ok(store) => {
            same(rt, seen(&store), WITH_EDGE, "the whole");
            let _disk = store.into_disk();
        }
        Err((refused, _disk)) => same(rt, (is_whole, (refused as u8) < 4), (false, true), "none"),
    }
}

// Each of the ten calls of the new device fails in turn, and a crash comes: nothing is left of it, or the whole. The store goes on.
#[test]
fn backups_of_which_a_call_fails(rt: HostRuntime) {
    let rt = &rt;
    let store = opened(rt, with_edge(rt));
    for call in 1..=11 {
        for word in &CRASH_WORDS {
            let left = backs_up(rt, &store, call).crash(*word);
            is_left(rt, left, call > 10);
        }
    }
    let store = commits(rt, store, &[(0, 2, &[Op::Set(0, 1, 9)])]);
    let _disk = ends(rt, store, (2, 1, Some(9)), "the store");
}
