// A buffer that brings items into the order of their places.
ghost use Rattle.std.specs.Prelude.{◌≡◌, IfSome};

use crate::ring::{Placed, Ring};
use std::alloc::{AllocError, Global};
use std::sync::atomic::{AtomicU64, Ordering};
use std::sync::{Condvar, Mutex, Wait};

/// Items are put in any order, and taken in the order of their places.
#[derive(Drop)]
pub struct ReorderBuffer<T: Placed + Drop> {
    ring: Mutex<Ring<T>>,
    // All places below this one are in the window, or behind it, and the buffer isn't ended. Who makes places reads it without the lock.
    room: AtomicU64,
    // The next item came.
    news: Condvar,
    // A quarter of the window is there, with the next item.
    lots: Condvar,
    // An item was taken.
    turns: Condvar,
    // A part of the window got free.
    rooms: Condvar,
}

impl<T: Placed + Drop> ReorderBuffer<T> {
    /// An empty buffer with a window of so many places, whose slots are made here.
    pub fn new(alloc: Global, window: usize) -> Result<ReorderBuffer<T>, AllocError> {
        Ok(ReorderBuffer {
            ring: Mutex::new(Ring::new(alloc, window)?),
            room: AtomicU64::new(window as u64),
            news: Condvar::new(),
            lots: Condvar::new(),
            turns: Condvar::new(),
            rooms: Condvar::new(),
        })
    }

    /// Sleeps until a place is in the window: less than the number of items taken and the window together. False once the buffer
    /// is ended. Who sleeps here is woken where a quarter of the window got free, so makers and takers of items don't change at each item.
    pub fn await_room<R: Wait>(&self, rt: &R, place: u64) -> bool {
        if place < self.room.load(Ordering::SeqCst) {
            return true;
        }
        let ring = self.rooms.wait_while(
            rt,
            self.ring.lock(rt),
            |ring| !ring.ended && !ring.has_room(place),
        );
        self.show_room(&ring);
        !ring.ended
    }

    // What lies below the window's end needs no look under the lock.
    fn show_room(&self, ring: &Ring<T>) {
        let room = if ring.ended { 0 } else { ring.room() };
        self.room.store(room, Ordering::SeqCst);
    }

    /// Puts an item into the slot of its place. It takes no memory. False, and nothing changed, where its place isn't in the window,
    /// its slot is full, or the buffer is ended.
    pub fn put<R: Wait>(&self, rt: &R, item: T) -> bool {
        let mut ring = self.ring.lock(rt);
        let (had_next, had_lot) = (ring.has_next(), ring.has_lot());
        let put = ring.put(item);
        let (has_next, has_lot) = (ring.has_next(), ring.has_lot());
        drop(ring);
        if has_next && !had_next {
            self.news.notify_all();
        }
        if has_lot && !had_lot {
            self.lots.notify_all();
        }
        put
    }

    /// Sleeps until the next item is there and a quarter of the window with it, or the buffer is ended. Who takes items in lots isn't woken
    /// for each.
    pub fn await_lot<R: Wait>(&self, rt: &R) {
        let _ring = self.lots.wait_while(
            rt,
            self.ring.lock(rt),
            |ring| !ring.ended && !ring.has_lot(),
        );
    }

    /// Takes the item of a place, and sleeps until it is there. None where the place isn't the next one, or the buffer is ended
    /// without the item.
    pub fn take<R: Wait>(&self, rt: &R, place: u64) -> Option<T>
        ensures { IfSome result (λ item. T.place_of item ≡ place) }
    {
        let mut ring = self.news.wait_while(
            rt,
            self.ring.lock(rt),
            |ring| !ring.ended && ring.taken() == place && !ring.has_next(),
        );
        self.taken(&mut ring, place)
    }

    /// Takes the item of a place, where it is there and the next one.
    pub fn try_take<R: Wait>(&self, rt: &R, place: u64) -> Option<T>
        ensures { IfSome result (λ item. T.place_of item ≡ place) }
    {
        let mut ring = self.ring.lock(rt);
        self.taken(&mut ring, place)
    }

    // Takes the next item, and wakes those that wait for that.
    fn taken(&self, ring: &mut Ring<T>, place: u64) -> Option<T>
        ensures { IfSome result (λ item. T.place_of item ≡ place) }
    {
        let taken = ring.take(place);
        self.turns.notify_all();
        if ring.is_at_quarter() {
            self.show_room(ring);
            self.rooms.notify_all();
        }
        taken
    }

    /// Sleeps until all items before a place have been taken. False where the buffer is ended before.
    pub fn await_turn<R: Wait>(&self, rt: &R, place: u64) -> bool {
        let ring = self.turns.wait_while(
            rt,
            self.ring.lock(rt),
            |ring| !ring.ended && ring.taken() < place,
        );
        place <= ring.taken()
    }

    /// Ends the buffer: nothing more is put, and all that sleep wake. What is there can still be taken.
    pub fn end<R: Wait>(&self, rt: &R) {
        let mut ring = self.ring.lock(rt);
        ring.ended = true;
        self.show_room(&ring);
        self.news.notify_all();
        self.lots.notify_all();
        self.turns.notify_all();
        self.rooms.notify_all();
    }
}
