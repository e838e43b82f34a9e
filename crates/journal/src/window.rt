//! A part of a disk that was read at once.
ghost use Rattle.std.specs.Prelude.{◌≡◌, ◌<◌, ◌≤◌, ◌+◌, ℕ, List, length, take, IsTrue, IfOk, OnOk, OnErr};
ghost use Rattle.disk_trait.specs.Disk.{IsSameDevice, IsDeviceCall, OnlyRead, bytes_at};

use disk_trait::{DeviceFault, Disk};
use std::alloc::{AllocError, Global};

// Reads the first `len` bytes of a buffer.
fn read_part<D: Disk>(
    disk: &mut D,
    at: usize,
    buffer: &mut [u8],
    len: usize,
) -> Result<(), DeviceFault>
    requires within { at + len ≤ length (D.view disk.old).content }
    requires fits { len ≤ length buffer.old }
    ensures size { length buffer.new ≡ length buffer.old }
    ensures call { IsDeviceCall 0 0 (D.view disk.old) (D.view disk.new) result }
    ensures bytes { IsTrue (D.view disk.old).keeps_model
        → OnOk result (take len buffer.new ≡ bytes_at (D.view disk.old).content at len) }
{
    disk.read(at, &mut buffer[..len])
}

// Bytes of a disk: `len` bytes from `from` on.
#[derive(Drop)]
pub(crate) struct Window {
    bytes: Vec<u8>,
    from: usize,
    len: usize,
    ghost fits: { len ≤ length bytes.items },
}

impl Window {
    ghost use Rattle.journal.specs.Windows.{Holds};

    pub(crate) fn new(alloc: Global, size: usize) -> Result<Window, AllocError>
        ensures size { IfOk result (λ w. length w.bytes.items ≡ size) }
        ensures empty { IfOk result (λ w. w.len ≡ 0) }
    {
        Ok(Window {
            bytes: vec![in alloc; 0; size]?,
            from: 0,
            len: 0,
        })
    }

    // Afterwards the n bytes from `at` on stand in the window.
    pub(crate) fn turn<D: Disk>(
        &mut self,
        disk: &mut D,
        at: usize,
        n: usize,
        end: usize,
    ) -> Result<(), DeviceFault>
        requires order { at + n ≤ end }
        requires within { end ≤ length (D.view disk.old).content }
        requires fits { n ≤ length self.old.bytes.items }
        requires holds { IsTrue (D.view disk.old).keeps_model → Holds self.old (D.view disk.old).content }
        ensures size { length self.new.bytes.items ≡ length self.old.bytes.items }
        ensures ran { IsSameDevice (D.view disk.old) (D.view disk.new) }
        ensures no_failure { OnOk result ((D.view disk.new).failures ≡ (D.view disk.old).failures) }
        ensures reads { IsTrue (D.view disk.old).keeps_model → OnlyRead (D.view disk.old) (D.view disk.new) }
        ensures fault { OnErr result ((D.view disk.old).failures < (D.view disk.new).failures) }
        ensures there { OnOk result ((self.new.from ≤ at) × (at + n ≤ self.new.from + self.new.len)) }
        ensures holds { IsTrue (D.view disk.old).keeps_model → OnOk result (Holds self.new (D.view disk.new).content) }
    {
        if self.from <= at && at - self.from + n <= self.len {
            return Ok(());
        }
        let len = self.bytes.len().min(end - at);
        read_part(disk, at, self.bytes.as_mut_slice(), len)?;
        self.from = at;
        self.len = len;
        Ok(())
    }

    pub(crate) fn part(&self, at: usize, n: usize) -> &[u8]
        requires low { self.now.from ≤ at }
        requires high { at + n ≤ self.now.from + self.now.len }
        ensures bytes { (content : List ℕ) → Holds self.now content → result.now ≡ bytes_at content at n }
        ensures len { length result.now ≡ n }
    {
        let first = at - self.from;
        &self.bytes[first..first + n]
    }
}
