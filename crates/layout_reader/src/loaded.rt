//! What is loaded of a device.

use graph_edits::Graph;
use journal::{Entry, Journal};
use std::snapshot::Snapshot;

/// What stands on a device: the state, and the slot, the checkpoint and the journal that it comes from.
#[derive(Drop)]
pub struct Loaded<E: Entry, T: Copy + Drop> {
    /// The journal of the slot in use.
    pub journal: Journal<E>,
    /// The slot in use, 0 or 1.
    pub slot: usize,
    /// Its epoch.
    pub epoch: u64,
    /// The other slot's gate byte.
    pub other_gate: u8,
    /// The count that the checkpoint in use holds.
    pub base_count: u64,
    /// The network that it holds, for contracts alone.
    pub base: Snapshot<Graph>,
    /// The tickets that it holds, for contracts alone.
    pub base_tickets: Snapshot<T>,
    /// How many changes were accepted, with those of the journal.
    pub count: u64,
    /// The network that they made.
    pub graph: Graph,
    /// The tickets, with those of the journal.
    pub tickets: T,
}
