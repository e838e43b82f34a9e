//! A disk in memory that does something before each sync.
ghost use Rattle.std.specs.Prelude.{◌≡◌};

use disk_trait::{DeviceFault, Disk, MemDisk};
use std::alloc::Global;
use std::sync::Arc;
use std::thread;

/// What is done before each sync of a disk.
pub trait BeforeSync {
    /// The sync of this number begins, counted from 1. Gives whether it is to end well.
    fn before_sync(&self, number: u64) -> bool;
}

impl<H: BeforeSync> BeforeSync for Arc<H, Global> {
    fn before_sync(&self, number: u64) -> bool {
        (**self).before_sync(number)
    }
}

/// So many turns of other threads before each sync.
#[derive(Clone, Copy, Drop)]
pub struct Turns(pub usize);

impl BeforeSync for Turns {
    fn before_sync(&self, _number: u64) -> bool {
        for _ in 0..self.0 {
            thread::yield_now();
        }
        true
    }
}

/// A disk in memory that does something before each sync. A sync that isn't to end well fails.
#[derive(Drop)]
pub struct HookedDisk<H> {
    disk: MemDisk,
    hook: H,
    syncs: u64,
}

impl<H> HookedDisk<H> {
    ghost use Rattle.test_doubles.specs.HookedWords.{disk_in};

    /// This disk with this hook.
    pub fn new(disk: MemDisk, hook: H) -> HookedDisk<H>
        ensures { disk_in result ≡ disk }
    {
        HookedDisk {
            disk,
            hook,
            syncs: 0,
        }
    }
}

impl<H: BeforeSync> Disk for HookedDisk<H> {
    ghost use Rattle.test_doubles.specs.HookedWords.{hooked_view, hooked_present};

    ghost view = { hooked_view };

    ghost present = { hooked_present };

    fn len(&self) -> usize {
        self.disk.len()
    }

    fn read(&mut self, at: usize, bytes: &mut [u8]) -> Result<(), DeviceFault> {
        self.disk.read(at, bytes)
    }

    fn write_at(&mut self, at: usize, bytes: &[u8]) -> Result<(), DeviceFault> {
        self.disk.write_at(at, bytes)
    }

    fn sync(&mut self) -> Result<(), DeviceFault> {
        self.syncs = self.syncs.wrapping_add(1);
        if !self.hook.before_sync(self.syncs) {
            self.disk.fail_at(1);
        }
        self.disk.sync()
    }
}
