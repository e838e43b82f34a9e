//! A disk in memory, which fails and stops where a plan says so, and which can crash.
ghost use Rattle.std.specs.Prelude.{◌≡◌, ◌≤◌, ◌+◌, ◌++◌, ◌↔◌, [], ◌∷◌, ℕ, length, replicate, take, false, OnOk, OnErr, min, OnSome, IfNone, IfSome, IfOk, IsErr, IsSome, IsTrue};
ghost use Rattle.disk_trait.specs.Disk.{MayLeave, IsSameDevice, IsDeviceCall, IsSettled, Unchanged, overwritten, bytes_at};
ghost use Rattle.disk_trait.specs.Image.{image_by, marked, zeros};
ghost use Rattle.disk_trait.specs.Plans.{fails_now, next_plan, bytes_put, plan_after, FailsOnceAt, StopsAt};

use crate::cells::Cells;
use crate::disk::{CrashDisk, DeviceFault, Disk};
use crate::log::Log;
use crate::plan::Plan;
use std::alloc::{AllocError, Global};

/// A disk in memory. It keeps the disk model, and takes memory only where it is made.
///
/// What it records of past calls, and how often it failed, is there for contracts and has no bytes.
#[derive(Drop)]
pub struct MemDisk {
    cells: Cells,
    plan: Plan,
    past: Log<Cells>,
    failures: Log<()>,
}

impl MemDisk {
    ghost use Rattle.disk_trait.specs.Memory.{mem_view, plan_of, unsettled_of, synced_of, HoldsTheSame};

    /// A disk of `len` bytes 0, all settled, with no failure planned. It takes three bytes of memory
    /// for each byte of the disk.
    pub fn new(alloc: Global, len: usize) -> Result<MemDisk, AllocError>
        ensures len { IfOk result (λ disk. length (mem_view disk).content ≡ len) }
        ensures bytes { IfOk result (λ disk. (mem_view disk).content ≡ zeros len) }
        ensures synced { IfOk result (λ disk. synced_of disk ≡ zeros len) }
        ensures settled { IfOk result (λ disk. IsSettled (mem_view disk)) }
        ensures plan { IfOk result (λ disk. plan_of disk ≡ Plan.None) }
        ensures failures { IfOk result (λ disk. (mem_view disk).failures ≡ 0) }
    {
        Ok(MemDisk {
            cells: Cells::new(alloc, len)?,
            plan: Plan::None,
            past: Log::new(),
            failures: Log::new(),
        })
    }

    /// The n-th call from now on fails, counted from 1; if it is a write, it puts nothing.
    pub fn fail_at(&mut self, call: u64)
        ensures same { Unchanged (mem_view self.old) (mem_view self.new) }
        ensures holds { HoldsTheSame self.old self.new }
        ensures plan { plan_of self.new ≡ Plan.Fail call }
        ensures fails { FailsOnceAt call (plan_of self.new) }
    {
        self.arm(Plan::Fail(call));
    }

    /// The n-th call from now on fails, counted from 1, and every later one; if it is a write, it puts
    /// its first bytes, at most so many.
    pub fn stop_at(&mut self, call: u64, bytes: usize)
        ensures same { Unchanged (mem_view self.old) (mem_view self.new) }
        ensures holds { HoldsTheSame self.old self.new }
        ensures plan { plan_of self.new ≡ Plan.Stop call bytes }
        ensures fails { StopsAt call (plan_of self.new) }
    {
        self.arm(Plan::Stop(call, bytes));
    }

    // One call more. Where it fails, the answer is how many bytes it puts at most.
    fn begin(&mut self) -> Option<usize>
        ensures cells { self.new.cells ≡ self.old.cells }
        ensures past { self.new.past.items ≡ self.old.past.items ++ self.old.cells ∷ [] }
        ensures goes { IfNone result (self.new.failures.items ≡ self.old.failures.items) }
        ensures failed { OnSome result (self.new.failures.items ≡ self.old.failures.items ++ tt ∷ []) }
        ensures plan { self.new.plan ≡ next_plan self.old.plan }
        ensures fails { IsSome result ↔ IsTrue (fails_now self.old.plan) }
        ensures puts { IfSome result (λ most. (n : ℕ) → bytes_put self.old.plan n ≡ min most n) }
        ensures whole { IfNone result ((n : ℕ) → bytes_put self.old.plan n ≡ n) }
    {
        self.past = self.past.with_entry(&self.cells);
        let turn = self.plan.turn();
        if turn.is_some() {
            self.failures = self.failures.with_entry(&());
        }
        turn
    }
}

impl Disk for MemDisk {
    ghost use Rattle.disk_trait.specs.Memory.{mem_view, mem_present, plan_of, unsettled_of, synced_of, HoldsTheSame};

    ghost view = { mem_view };

    ghost present = { mem_present };

    fn len(&self) -> usize {
        self.cells.len()
    }

    fn read(&mut self, at: usize, bytes: &mut [u8]) -> Result<(), DeviceFault>
        requires { at + length bytes.old ≤ length (mem_view self.old).content }
        ensures call { IsDeviceCall 0 0 (mem_view self.old) (mem_view self.new) result }
        ensures bytes { IsTrue (mem_view self.old).keeps_model →
            OnOk result (bytes.new ≡ bytes_at (mem_view self.old).content at (length bytes.old)) }
        ensures fails { IsErr result ↔ IsTrue (fails_now (plan_of self.old)) }
        ensures plan { plan_of self.new ≡ next_plan (plan_of self.old) }
        ensures holds { HoldsTheSame self.old self.new }
    {
        match self.begin() {
            Some(_) => Err(DeviceFault),
            None => {
                self.cells.read(at, bytes);
                Ok(())
            }
        }
    }

    fn write_at(&mut self, at: usize, bytes: &[u8]) -> Result<(), DeviceFault>
        requires { at + length bytes.now ≤ length (mem_view self.old).content }
        ensures call { IsDeviceCall at (length bytes.now) (mem_view self.old) (mem_view self.new) result }
        ensures written { IsTrue (mem_view self.old).keeps_model →
            OnOk result ((mem_view self.new).content ≡ overwritten (mem_view self.old).content at bytes.now) }
        ensures fails { IsErr result ↔ IsTrue (fails_now (plan_of self.old)) }
        ensures plan { plan_of self.new ≡ next_plan (plan_of self.old) }
        ensures put { (mem_view self.new).content
            ≡ overwritten (mem_view self.old).content at
            (take (bytes_put (plan_of self.old) (length bytes.now)) bytes.now) }
        ensures unsettled { unsettled_of self.new ≡ marked (unsettled_of self.old) at (length bytes.now) }
        ensures synced { synced_of self.new ≡ synced_of self.old }
    {
        match self.begin() {
            Some(most) => {
                let put = &bytes[..most.min(bytes.len())];
                self.cells.write(at, put, bytes.len());
                Err(DeviceFault)
            }
            None => {
                self.cells.write(at, bytes, bytes.len());
                Ok(())
            }
        }
    }

    fn sync(&mut self) -> Result<(), DeviceFault>
        ensures call { IsDeviceCall 0 0 (mem_view self.old) (mem_view self.new) result }
        ensures settled { IsTrue (mem_view self.old).keeps_model →
            OnOk result (IsSettled (mem_view self.new)) }
        ensures fails { IsErr result ↔ IsTrue (fails_now (plan_of self.old)) }
        ensures plan { plan_of self.new ≡ next_plan (plan_of self.old) }
        ensures all_settled { OnOk result (unsettled_of self.new
            ≡ replicate (length (mem_view self.old).content) false) }
        ensures synced { OnOk result (synced_of self.new ≡ (mem_view self.new).content) }
        ensures not_settled { OnErr result (HoldsTheSame self.old self.new) }
    {
        match self.begin() {
            // No byte is settled.
            Some(_most) => Err(DeviceFault),
            None => {
                self.cells.settle();
                Ok(())
            }
        }
    }
}

impl CrashDisk for MemDisk {
    ghost use Rattle.disk_trait.specs.Memory.{mem_view, plan_of, unsettled_of, synced_of, HoldsTheSame};

    fn crash(self, word: u64) -> MemDisk
        ensures image { IsTrue (mem_view self).keeps_model →
            MayLeave (mem_view self) (mem_view result).content }
        ensures settled { IsTrue (mem_view self).keeps_model → IsSettled (mem_view result) }
        ensures ran { IsSameDevice (mem_view self) (mem_view result) }
        ensures by_word { (mem_view result).content
            ≡ image_by word (unsettled_of self) (mem_view self).content (synced_of self) }
        ensures all_settled { unsettled_of result ≡ replicate (length (mem_view self).content) false }
        ensures synced { synced_of result ≡ (mem_view result).content }
        ensures plan { plan_of result ≡ Plan.None }
        ensures failures { (mem_view result).failures ≡ (mem_view self).failures }
    {
        let mut cells = self.cells;
        let past = self.past.with_entry(&cells);
        cells.crash(word);
        MemDisk {
            cells,
            plan: Plan::None,
            past,
            failures: self.failures,
        }
    }

    fn arm(&mut self, plan: Plan)
        ensures same { Unchanged (mem_view self.old) (mem_view self.new) }
        ensures holds { HoldsTheSame self.old self.new }
        ensures plan { plan_of self.new ≡ plan }
    {
        self.plan = plan;
    }
}
