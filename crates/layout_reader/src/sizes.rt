//! The sizes of a layout, and where things stand on its devices.
ghost use Rattle.std.specs.Prelude.{◌≡◌, ◌≤◌, ◌<◌, ◌+◌, ◌*◌, ◌^◌};

use crate::layout::SLOTS_START;
use journal::Area;

/// What the layouts differ in, as numbers.
#[derive(Clone, Copy, Drop)]
pub struct Sizes {
    /// The second digit of the version. The first is 0.
    pub digit: u8,
    /// The most nodes of a device's network.
    pub most_nodes: u16,
    /// The most edges of a device's network.
    pub most_edges: usize,
    /// How many bytes of tickets stand between a checkpoint's head and its edges.
    pub tickets_len: usize,
    /// The size of a checkpoint's area.
    pub checkpoint_room: usize,
    /// The size of a journal's area. A slot is a checkpoint's area, and a journal's behind it.
    pub journal_room: usize,
}

impl Sizes {
    ghost use Rattle.layout_reader.specs.Sizes.{AreSizes, slot_room, slot_start, device_len, journal_of};

    /// The size of a slot.
    pub fn slot_room(&self) -> usize
        requires { AreSizes self.now }
        ensures is { result ≡ slot_room self.now }
        ensures small { result < 2 ^ 32 }
    {
        self.checkpoint_room + self.journal_room
    }

    /// The number of bytes of a device.
    pub fn device_len(&self) -> usize
        requires { AreSizes self.now }
        ensures { result ≡ device_len self.now }
    {
        SLOTS_START + 2 * self.slot_room()
    }

    /// Where a slot begins, at its gate.
    pub fn slot_start(&self, slot: usize) -> usize
        requires sizes { AreSizes self.now }
        requires slot { slot < 2 }
        ensures is { result ≡ slot_start self.now slot }
        ensures within { result + slot_room self.now ≤ device_len self.now }
    {
        SLOTS_START + self.slot_room() * slot
    }

    /// Where a slot's journal stands.
    pub fn journal_area(&self, slot: usize) -> Area
        requires sizes { AreSizes self.now }
        requires slot { slot < 2 }
        ensures is { result ≡ journal_of self.now slot }
        ensures within { result.start + result.room ≤ device_len self.now }
    {
        Area {
            start: self.slot_start(slot) + self.checkpoint_room,
            room: self.journal_room,
        }
    }
}
