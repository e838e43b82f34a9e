// Items in a window of places.
ghost use Rattle.std.specs.Prelude.{◌≡◌, IfSome};

use std::alloc::{AllocError, Global};

/// An item that has a place.
pub trait Placed {
    ghost use Rattle.std.specs.Prelude.{◌≡◌, ℕ};

    ghost place_of: { Self → ℕ };

    /// Its place.
    fn place(&self) -> u64
        ensures { result ≡ place_of self.now };
}

/// Slots for the places from the next one to be taken on, as many as there are slots.
#[derive(Drop)]
pub(crate) struct Ring<T: Placed + Drop> {
    slots: Vec<Option<T>>,
    taken: u64,
    // How many items are there.
    held: u64,
    pub(crate) ended: bool,
}

impl<T: Placed + Drop> Ring<T> {
    /// So many slots, all of them empty, from place 0 on.
    pub(crate) fn new(alloc: Global, window: usize) -> Result<Ring<T>, AllocError> {
        let mut slots = Vec::with_capacity(alloc, window)?;
        for _ in 0..window {
            slots.push(None)?;
        }
        Ok(Ring {
            slots,
            taken: 0,
            held: 0,
            ended: false,
        })
    }

    /// How many items have been taken.
    pub(crate) fn taken(&self) -> u64 {
        self.taken
    }

    /// Whether a place is in the window, or behind it.
    pub(crate) fn has_room(&self, place: u64) -> bool {
        place.saturating_sub(self.taken) < self.slots.len() as u64
    }

    /// The first place behind the window.
    pub(crate) fn room(&self) -> u64 {
        self.taken.saturating_add(self.slots.len() as u64)
    }

    // A quarter of the window.
    fn quarter(&self) -> u64 {
        self.slots.len() as u64 / 4
    }

    /// Whether a quarter of the window got free with the last item: of each so many places one is such.
    pub(crate) fn is_at_quarter(&self) -> bool {
        let quarter = self.quarter();
        quarter == 0 || self.taken % quarter == 0
    }

    /// Whether the next item is there, and with it a quarter of the window.
    pub(crate) fn has_lot(&self) -> bool {
        self.quarter() <= self.held && self.has_next()
    }

    // The slot of a place, where there is any slot.
    fn slot(&mut self, place: u64) -> Option<&mut Option<T>> {
        let slots = self.slots.len() as u64;
        if slots == 0 {
            return None;
        }
        self.slots.get_mut((place % slots) as usize)
    }

    /// Whether the next item is there.
    pub(crate) fn has_next(&self) -> bool {
        let slots = self.slots.len() as u64;
        if slots == 0 {
            return false;
        }
        match self.slots.get((self.taken % slots) as usize) {
            Some(Some(_)) => true,
            _ => false,
        }
    }

    /// Puts an item into its slot. False, and nothing changed, where its place isn't in the window, or is taken already.
    pub(crate) fn put(&mut self, item: T) -> bool {
        let place = item.place();
        if self.ended || place < self.taken || !self.has_room(place) {
            return false;
        }
        match self.slot(place) {
            Some(slot) if slot.is_none() => {
                *slot = Some(item);
                self.held = self.held.saturating_add(1);
                true
            }
            _ => false,
        }
    }

    /// Takes the next item, where it is there and of this place.
    pub(crate) fn take(&mut self, place: u64) -> Option<T>
        ensures { IfSome result (λ item. T.place_of item ≡ place) }
    {
        if place != self.taken {
            return None;
        }
        let item = self.slot(place)?.take()?;
        self.held = self.held.saturating_sub(1);
        if item.place() != place {
            return None;
        }
        self.taken = self.taken.saturating_add(1);
        Some(item)
    }
}
