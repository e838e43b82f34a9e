//! The journal of an area: what is scanned, and what is appended.
ghost use Rattle.std.specs.Prelude.{◌≡◌, ◌≤◌, ◌<◌, ◌+◌, ◌^◌, ◌↔◌, ◌++◌, [], ◌∷◌, ℕ, List, length, map, IsTrue, IfOk, OnOk, OnErr, IsErrOf};
ghost use Rattle.std.specs.Bool.{OnTrue, OnFalse};
ghost use Rattle.disk_trait.specs.Disk.{AtMostCalls, IsSameDevice, LeavesOnly, OnlyRead};
ghost use Rattle.journal.specs.Records.{Spells, AllSpell, SpellsNothing, IsBeforeOrAfter, entries_of, record_of, records};
ghost use Rattle.journal.specs.JournalView.{JournalView, HasRoom, LacksRoom, groups_in};
ghost use Rattle.journal.specs.declared.journal.AppendRefused.TheVariants.{Memory};

use crate::area::Area;
use crate::entry::Entry;
use crate::group::{payload_len, text_of};
use crate::layout::{GATE_SIZE, MOST_ENTRIES, MOST_RECORD, RECORD_HEAD};
use crate::record::next_record;
use crate::window::Window;
use byte_forms::ReadError;
use disk_trait::{Disk, Log, publish};
use std::alloc::{AllocError, AllocFailed, Global};
use std::marker::Model;
use thiserror::Error;

/// Why a group isn't appended.
#[derive(Clone, Copy, Debug, PartialEq, Eq, Drop, Error)]
pub enum AppendRefused {
    /// The record and the next gate don't fit in the area.
    #[error("the journal has no room for the record")]
    NoRoom = 1,
    /// A call of the device failed.
    #[error("a call of the device failed")]
    Device = 2,
    /// Memory ran out, before anything was written.
    #[error("out of memory")]
    Memory = 3,
}

impl From<AllocError> for AppendRefused {
    ghost from_gives = { λ _ e. e ≡ Memory };

    fn from(_: AllocError) -> Self {
        AppendRefused::Memory
    }
}

impl<T: Drop> From<AllocFailed<T>> for AppendRefused {
    ghost from_gives = { λ _ e. e ≡ Memory };

    fn from(_: AllocFailed<T>) -> Self {
        AppendRefused::Memory
    }
}

/// Why an area can't be scanned.
#[derive(Clone, Copy, Debug, PartialEq, Eq, Drop, Error)]
pub enum ScanRefused {
    /// A record with an open gate isn't of the form, or doesn't end inside the area.
    #[error("the journal is damaged")]
    Damaged = 1,
    /// A read failed.
    #[error("a call of the device failed")]
    Device = 2,
    /// Memory ran out.
    #[error("out of memory")]
    Memory = 3,
}

// What is read at once.
const WINDOW: usize = 65_536;

/// The journal of an area: contracts see the area, and the groups whose records it has scanned or appended.
#[derive(Drop)]
pub struct Journal<E: Entry> {
    area: Area,
    // Where the gate of the next record stands in the area.
    end: usize,
    // The groups that were scanned, and the texts that were appended: for contracts alone.
    scanned: Log<Vec<E>>,
    appended: Log<Vec<u8>>,
}

impl<E: Entry> Model for Journal<E> {
    ghost use Rattle.std.specs.Prelude.{◌≡◌, ◌<◌, ◌+◌, ◌^◌, length};
    ghost use Rattle.journal.specs.Records.{records};
    ghost use Rattle.journal.specs.JournalView.{JournalView, groups_in};

    ghost Value = { JournalView E };

    ghost view = { λ j. record { area = j.area; groups = groups_in E.form j.scanned.items j.appended.items } };

    ghost invariant = { λ j. (length (records E.form (groups_in E.form j.scanned.items j.appended.items)) ≡ j.end)
        × (j.end < j.area.room) × (j.area.start + j.area.room < 2 ^ 64) };
}

impl<E: Entry> Journal<E> {
    // The journal of an area that begins with the records of these groups.
    fn of_scanned(area: Area, end: usize, scanned: Log<Vec<E>>) -> Journal<E>
        requires ends { length (records E.form (map (λ group. group.items) scanned.items)) ≡ end }
        requires fits { end < area.room }
        requires small { area.start + area.room < 2 ^ 64 }
        ensures area { result.area ≡ area }
        ensures groups { result.groups ≡ map (λ group. group.items) scanned.items }
    {
        Journal {
            area,
            end,
            scanned,
            appended: Log::new(),
        }
    }

    /// The journal of an area whose first gate is closed: it reads nothing.
    pub fn fresh(area: Area) -> Journal<E>
        requires some { 1 ≤ area.room }
        requires small { area.start + area.room < 2 ^ 64 }
        ensures { result ≡ record { area = area; groups = [] } }
    {
        Journal {
            area,
            end: 0,
            scanned: Log::new(),
            appended: Log::new(),
        }
    }

    /// Where the area lies.
    pub fn area(&self) -> Area
        ensures area { result ≡ self.now.area }
        ensures small { self.now.area.start + self.now.area.room < 2 ^ 64 }
    {
        self.area
    }

    /// How many bytes are left behind the records and the gate that ends them: the longest record that `append` still takes.
    pub fn room_left(&self) -> usize
        ensures { result + length (records E.form self.now.groups) + 1 ≡ self.now.area.room }
    {
        self.area.room - self.end - GATE_SIZE
    }

    /// Whether the record of a group and the next gate fit in what is left of the area. Where they don't,
    /// `append` answers `NoRoom`.
    pub fn has_room(&self, entries: &[E]) -> bool
        requires few { length entries.now ≤ MOST_ENTRIES }
        ensures yes { OnTrue result (HasRoom E.form self.now entries.now) }
        ensures no { OnFalse result (LacksRoom E.form self.now entries.now) }
        ensures most { length (record_of E.form entries.now) ≤ MOST_RECORD }
    {
        RECORD_HEAD + payload_len(entries) < self.area.room - self.end
    }

    /// Puts a group of 1 to 64 entries at the end of the list, as one record.
    ///
    /// At most four calls of the device: one write takes the length, the payload and the gate behind it, which is
    /// closed, and is synced; then the record's own gate is opened, and synced too. What is said of crashes holds where
    /// at entry every image that one may leave spells the groups of this journal.
    ///
    /// Errors, in the order in which they are tested: `NoRoom`, exactly where the record and the next gate don't fit,
    /// and `Memory`, before any write; both leave disk and journal as they were. `Device`, where a call of the device
    /// failed: the area may spell the group or not, so the journal isn't used again, and its caller syncs and scans.
    pub fn append<D: Disk>(
        &mut self,
        alloc: Global,
        disk: &mut D,
        entries: &[E],
    ) -> Result<(), AppendRefused>
        requires within { self.old.area.start + self.old.area.room ≤ length (D.view disk.old).content }
        requires some { 1 ≤ length entries.now }
        requires few { length entries.now ≤ MOST_ENTRIES }
        ensures area { self.new.area ≡ self.old.area }
        ensures grows { OnOk result (self.new.groups ≡ self.old.groups ++ entries.now ∷ []) }
        ensures err { OnErr result (self.new ≡ self.old) }
        ensures ran { IsSameDevice (D.view disk.old) (D.view disk.new) }
        ensures no_failure { OnOk result ((D.view disk.new).failures ≡ (D.view disk.old).failures) }
        ensures no_room { IsErrOf result AppendRefused.NoRoom ↔ LacksRoom E.form self.old entries.now }
        ensures no_room_same { IsErrOf result AppendRefused.NoRoom → disk.new ≡ disk.old }
        ensures device { IsErrOf result AppendRefused.Device → (D.view disk.old).failures < (D.view disk.new).failures }
        ensures memory_same { IsErrOf result AppendRefused.Memory → disk.new ≡ disk.old }
        ensures calls { AtMostCalls 4 (D.view disk.old) (D.view disk.new) }
        ensures any_moment { IsTrue (D.view disk.old).keeps_model
            → AllSpell E.form (D.view disk.old) self.old.area self.old.groups
            → LeavesOnly (D.view disk.old) (D.view disk.new)
            (IsBeforeOrAfter E.form (D.view disk.old) self.old.area self.old.groups entries.now) }
        ensures ok { IsTrue (D.view disk.old).keeps_model
            → AllSpell E.form (D.view disk.old) self.old.area self.old.groups
            → OnOk result (AllSpell E.form (D.view disk.new) self.new.area self.new.groups) }
    {
        if !self.has_room(entries) {
            return Err(AppendRefused::NoRoom);
        }
        let text = text_of(alloc, entries)?;
        let gate = self.area.start + self.end;
        match publish(disk, gate, &text) {
            Err(_) => Err(AppendRefused::Device),
            Ok(()) => {
                self.appended = self.appended.with_entry(&text);
                self.end += text.len();
                Ok(())
            }
        }
    }

    /// The journal of an area, and the entries that its records list, up to the first closed gate. It reads, and
    /// writes nothing.
    ///
    /// Errors, each at the place where the scan meets it: `Damaged`, where the area spells no list, since behind an
    /// open gate the length or the next gate lies outside the area, or the payload isn't of the form; `Device`, where
    /// a read failed; `Memory`.
    pub fn scan<D: Disk>(
        alloc: Global,
        disk: &mut D,
        area: Area,
    ) -> Result<(Journal<E>, Vec<E>), ScanRefused>
        requires some { 1 ≤ area.room }
        requires within { area.start + area.room ≤ length (D.view disk.old).content }
        requires small { area.start + area.room < 2 ^ 64 }
        ensures ran { IsSameDevice (D.view disk.old) (D.view disk.new) }
        ensures no_failure { OnOk result ((D.view disk.new).failures ≡ (D.view disk.old).failures) }
        ensures reads { IsTrue (D.view disk.old).keeps_model → OnlyRead (D.view disk.old) (D.view disk.new) }
        ensures area { IfOk result (λ r. r.0.area ≡ area) }
        ensures entries { IfOk result (λ r. r.1.items ≡ entries_of r.0.groups) }
        ensures ok { IsTrue (D.view disk.old).keeps_model
            → IfOk result (λ r. Spells E.form area r.0.groups (D.view disk.old).content) }
        ensures damaged { IsTrue (D.view disk.old).keeps_model → IsErrOf result ScanRefused.Damaged
            → SpellsNothing E.form area (D.view disk.old).content }
        ensures damaged_served { IsErrOf result ScanRefused.Damaged
            → (D.view disk.new).failures ≡ (D.view disk.old).failures }
        ensures memory_served { IsErrOf result ScanRefused.Memory
            → (D.view disk.new).failures ≡ (D.view disk.old).failures }
        ensures device { IsErrOf result ScanRefused.Device → (D.view disk.old).failures < (D.view disk.new).failures }
    {
        let Ok(mut window) = Window::new(alloc, WINDOW.min(area.room)) else {
            return Err(ScanRefused::Memory);
        };
        let mut scanned = Log::new();
        let mut entries = Vec::new(alloc);
        let mut at = 0;
        for _ in 0..area.room {
            let n = (MOST_RECORD + GATE_SIZE).min(area.room - at);
            match window.turn(disk, area.start + at, n, area.start + area.room) {
                Ok(()) => {}
                Err(_) => return Err(ScanRefused::Device),
            }
            match next_record(alloc, window.part(area.start + at, n)) {
                Err(ReadError::Malformed) => return Err(ScanRefused::Damaged),
                Err(ReadError::Memory) => return Err(ScanRefused::Memory),
                Ok(None) => return Ok((Journal::of_scanned(area, at, scanned), entries)),
                Ok(Some((group, size))) => {
                    let mut group = group;
                    scanned = scanned.with_entry(&group);
                    match entries.append(&mut group) {
                        Ok(()) => {}
                        Err(_) => return Err(ScanRefused::Memory),
                    }
                    at += size;
                }
            }
        }
        // Not reached: each turn goes on by a byte at least, and stays inside the area.
        Err(ScanRefused::Memory)
    }
}
