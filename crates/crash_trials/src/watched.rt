//! A disk in memory whose calls are noted.
ghost use Rattle.std.specs.Prelude.{◌≡◌, ◌≤◌, ◌+◌, ◌++◌, [], ◌∷◌, false, length, IfOk, OnOk, IsTrue};
ghost use Rattle.disk_trait.specs.Disk.{MayLeave, IsSameDevice, IsDeviceCall, IsSettled, Unchanged, overwritten, bytes_at};
ghost use Rattle.crash_trials.specs.declared.stops.Call.{Call};

use crate::stops::Call;
use disk_trait::{CrashDisk, DeviceFault, Disk, Log, MemDisk, Plan};
use std::alloc::{AllocError, Global};

/// A disk in memory that notes its calls. What is noted begins anew where the disk is armed.
#[derive(Drop)]
pub struct Watched {
    disk: MemDisk,
    // All calls, which contracts alone see.
    made: Log<Call>,
    calls: Vec<Call>,
    // Whether a call wasn't noted for want of memory.
    missed: bool,
    ghost noted: { missed ≡ false → calls.items ≡ made.items },
}

impl Watched {
    ghost use Rattle.crash_trials.specs.WatchedWords.{calls_made, disk_in};

    /// This disk, of which no call is noted yet.
    pub fn new(alloc: Global, disk: MemDisk) -> Watched
        ensures disk { disk_in result ≡ disk }
        ensures calls { calls_made result ≡ [] }
    {
        Watched {
            disk,
            made: Log::new(),
            calls: Vec::new(alloc),
            missed: false,
        }
    }

    // One call more.
    fn note(&mut self, call: Call)
        ensures disk { disk_in self.new ≡ disk_in self.old }
        ensures made { calls_made self.new ≡ calls_made self.old ++ call ∷ [] }
    {
        self.made = self.made.with_entry(&call);
        if self.calls.push(call).is_err() {
            self.missed = true;
        }
    }

    /// The calls since the disk was armed last, in their order; not where memory ran out for a note.
    pub fn into_calls(self) -> Result<Vec<Call>, AllocError>
        ensures { IfOk result (λ calls. calls.items ≡ calls_made self) }
    {
        if self.missed {
            return Err(AllocError);
        }
        Ok(self.calls)
    }
}

impl Disk for Watched {
    ghost use Rattle.crash_trials.specs.WatchedWords.{calls_made, watched_view, watched_present};

    ghost view = { watched_view };

    ghost present = { watched_present };

    fn len(&self) -> usize {
        self.disk.len()
    }

    fn read(&mut self, at: usize, bytes: &mut [u8]) -> Result<(), DeviceFault>
        requires { at + length bytes.old ≤ length (watched_view self.old).content }
        ensures call { IsDeviceCall 0 0 (watched_view self.old) (watched_view self.new) result }
        ensures bytes { IsTrue (watched_view self.old).keeps_model →
            OnOk result (bytes.new ≡ bytes_at (watched_view self.old).content at (length bytes.old)) }
        ensures noted { calls_made self.new ≡ calls_made self.old ++ Call.Read ∷ [] }
    {
        self.note(Call::Read);
        self.disk.read(at, bytes)
    }

    fn write_at(&mut self, at: usize, bytes: &[u8]) -> Result<(), DeviceFault>
        requires { at + length bytes.now ≤ length (watched_view self.old).content }
        ensures call { IsDeviceCall at (length bytes.now) (watched_view self.old) (watched_view self.new) result }
        ensures written { IsTrue (watched_view self.old).keeps_model →
            OnOk result ((watched_view self.new).content ≡ overwritten (watched_view self.old).content at bytes.now) }
        ensures noted { calls_made self.new ≡ calls_made self.old ++ Call.Write (length bytes.now) ∷ [] }
    {
        self.note(Call::Write(bytes.len()));
        self.disk.write_at(at, bytes)
    }

    fn sync(&mut self) -> Result<(), DeviceFault>
        ensures call { IsDeviceCall 0 0 (watched_view self.old) (watched_view self.new) result }
        ensures settled { IsTrue (watched_view self.old).keeps_model →
            OnOk result (IsSettled (watched_view self.new)) }
        ensures noted { calls_made self.new ≡ calls_made self.old ++ Call.Sync ∷ [] }
    {
        self.note(Call::Sync);
        self.disk.sync()
    }
}

impl CrashDisk for Watched {
    ghost use Rattle.crash_trials.specs.WatchedWords.{calls_made, watched_view};

    fn crash(self, word: u64) -> Watched
        ensures image { IsTrue (watched_view self).keeps_model →
            MayLeave (watched_view self) (watched_view result).content }
        ensures settled { IsTrue (watched_view self).keeps_model → IsSettled (watched_view result) }
        ensures ran { IsSameDevice (watched_view self) (watched_view result) }
        ensures noted { calls_made result ≡ calls_made self }
    {
        Watched {
            disk: self.disk.crash(word),
            made: self.made,
            calls: self.calls,
            missed: self.missed,
        }
    }

    fn arm(&mut self, plan: Plan)
        ensures same { Unchanged (watched_view self.old) (watched_view self.new) }
        ensures anew { calls_made self.new ≡ [] }
    {
        self.made = Log::new();
        self.calls.clear();
        self.missed = false;
        self.disk.arm(plan);
    }
}
