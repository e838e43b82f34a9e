//! The bytes of a disk in memory, and which of them a crash may change.
ghost use Rattle.std.specs.Prelude.{◌≡◌, ◌≤◌, ◌<◌, ◌+◌, ◌-◌, ◌^◌, ℕ, length, replicate, false, IfOk};
ghost use Rattle.std.proofs.Props.{props};
ghost use Rattle.disk_trait.specs.Disk.{overwritten, bytes_at};
ghost use Rattle.disk_trait.specs.Image.{IsImage, IsSettledOutside, marked, image_by, zeros};

use crate::image::choose;
use crate::ranges::{mark, put, unmark, widened};
use std::alloc::{AllocError, Global};

/// The bytes as a read gives them, the bytes as after the last sync, and which bytes have been
/// covered by a write since: those may be lost or torn by a crash.
#[derive(Drop)]
pub struct Cells {
    bytes: Vec<u8>,
    synced: Vec<u8>,
    unsettled: Vec<bool>,
    // What is unsettled lies in low..high, so that a sync need not look elsewhere.
    low: usize,
    high: usize,
    ghost flags: { length unsettled.items ≡ length bytes.items },
    ghost ordered: { low ≤ high },
    ghost within: { high ≤ length bytes.items },
    ghost outside: { IsSettledOutside low high unsettled.items } by { Prim.hlevel props },
    ghost agrees: { IsImage bytes.items unsettled.items synced.items } by { Prim.hlevel props },
}

// Takes the bytes of a range that holds all that is unsettled for settled.
#[tactic(auto, using(crate::proofs::ImageLemmas::cleared, crate::proofs::ImageLemmas::copied))]
fn settle(bytes: &[u8], synced: &mut [u8], unsettled: &mut [bool], low: usize, high: usize)
    requires ordered { low ≤ high }
    requires within { high ≤ length bytes.now }
    requires flags { length unsettled.old ≡ length bytes.now }
    requires outside { IsSettledOutside low high unsettled.old }
    requires agrees { IsImage bytes.now unsettled.old synced.old }
    ensures synced { synced.new ≡ bytes.now }
    ensures unsettled { unsettled.new ≡ replicate (length unsettled.old) false }
{
    put(synced, low, &bytes[low..high]);
    unmark(unsettled, low, high);
}

impl Cells {
    #[tactic(auto, unfolding(crate::specs::Image::zeros))]
    pub(crate) fn new(alloc: Global, len: usize) -> Result<Cells, AllocError>
        ensures bytes { IfOk result (λ cells. cells.bytes.items ≡ zeros len) }
        ensures synced { IfOk result (λ cells. cells.synced.items ≡ zeros len) }
        ensures settled { IfOk result (λ cells. cells.unsettled.items ≡ replicate len false) }
    {
        Ok(Cells {
            bytes: vec![in alloc; 0; len]?,
            synced: vec![in alloc; 0; len]?,
            unsettled: vec![in alloc; false; len]?,
            low: 0,
            high: 0,
        })
    }

    pub(crate) fn len(&self) -> usize
        ensures { result ≡ length self.now.bytes.items }
    {
        self.bytes.len()
    }

    // Gives the bytes of a place.
    pub(crate) fn read(&self, at: usize, into: &mut [u8])
        requires { at + length into.old ≤ length self.now.bytes.items }
        ensures { into.new ≡ bytes_at self.now.bytes.items at (length into.old) }
    {
        let n = into.len();
        into.copy_from_slice(&self.bytes[at..at + n]);
    }

    // Puts bytes, the first of n places that are written.
    pub(crate) fn write(&mut self, at: usize, bytes: &[u8], n: usize)
        requires some { length bytes.now ≤ n }
        requires fits { at + n ≤ length self.old.bytes.items }
        ensures bytes { self.new.bytes.items ≡ overwritten self.old.bytes.items at bytes.now }
        ensures unsettled { self.new.unsettled.items ≡ marked self.old.unsettled.items at n }
        ensures synced { self.new.synced.items ≡ self.old.synced.items }
    {
        let (low, high) = widened(self.low, self.high, at, n);
        put(&mut self.bytes, at, bytes);
        mark(&mut self.unsettled, at, n);
        self.low = low;
        self.high = high;
    }

    // Every byte is settled as it stands.
    pub(crate) fn settle(&mut self)
        ensures bytes { self.new.bytes.items ≡ self.old.bytes.items }
        ensures unsettled { self.new.unsettled.items ≡ replicate (length self.old.bytes.items) false }
        ensures synced { self.new.synced.items ≡ self.old.bytes.items }
    {
        settle(
            &self.bytes,
            &mut self.synced,
            &mut self.unsettled,
            self.low,
            self.high,
        );
        self.low = 0;
        self.high = 0;
    }

    // The unsettled bytes become what the word chooses, and every byte is settled.
    pub(crate) fn crash(&mut self, word: u64)
        ensures bytes { self.new.bytes.items
            ≡ image_by word self.old.unsettled.items self.old.bytes.items self.old.synced.items }
        ensures unsettled { self.new.unsettled.items ≡ replicate (length self.old.bytes.items) false }
        ensures synced { self.new.synced.items ≡ self.new.bytes.items }
    {
        choose(
            &mut self.bytes,
            &self.synced,
            &self.unsettled,
            self.low,
            self.high,
            word,
        );
        self.settle();
    }
}
