//! The store.
ghost use Rattle.std.specs.Prelude.{◌≡◌, ◌≤◌, ◌<◌, ◌+◌, ◌↔◌, length, IsTrue, IfOk, IfErr, OnOk, IsSome, Some, false, true};
ghost use Rattle.disk_trait.specs.Disk.{AtMostCalls, IsSameDevice, Unchanged};
ghost use Rattle.graph_edits.specs.Changes.{fold};
ghost use Rattle.journal.specs.Layout.{most_entries};
ghost use Rattle.requests.specs.Tickets.{sessions, last_of, tickets_after};
ghost use Rattle.layout_2.specs.Layout.{worn_limit, device_len, journal_room, journal_start};
ghost use Rattle.layout_2.specs.State.{state_with, changes_of, asked, after, AreInTurn};
ghost use Rattle.checkpoint.specs.Kept.{IsKept, kept_props};

use crate::refusals::CommitRefused;
use disk_trait::{CrashDisk, Disk, Plan};
use graph_edits::{Graph, Prepared};
use journal::{AppendRefused, Journal};
use layout_2::{OpenRefused, WORN_LIMIT, load};
use requests::{Request, SESSIONS};
use std::alloc::{AllocError, Global};
use std::snapshot::Snapshot;

/// A network, a count and the last ticket of each session on a disk, through crashes.
#[derive(Drop)]
pub struct Store<D: Disk> {
    pub(crate) disk: D,
    pub(crate) journal: Journal<Request>,
    pub(crate) slot: usize,
    pub(crate) epoch: u64,
    // The other slot's gate byte, as it stands on the device.
    pub(crate) other_gate: u8,
    // The checkpoint in use, for contracts alone.
    pub(crate) base_count: Snapshot<u64>,
    pub(crate) base: Snapshot<Graph>,
    pub(crate) base_tickets: Snapshot<[u64; SESSIONS]>,
    pub(crate) count: u64,
    pub(crate) graph: Graph,
    pub(crate) tickets: [u64; SESSIONS],
    pub(crate) down: bool,
    ghost fits: { count ≤ worn_limit },
    ghost two_slots: { slot < 2 },
    ghost at: { journal.area.start ≡ journal_start slot },
    ghost room: { journal.area.room ≡ journal_room },
    ghost long: { length (D.view disk).content ≡ device_len },
    ghost kept: { IsTrue (D.view disk).keeps_model → down ≡ false
        → IsKept (D.view disk) slot epoch other_gate
        (state_with base_count.value base.value base_tickets.value) (state_with count graph tickets)
        journal.groups } by { Prim.hlevel kept_props },
}

// What the graph needs to take the changes of requests in order.
fn prepare_all(alloc: Global, graph: &Graph, requests: &[Request]) -> Result<Prepared, AllocError>
    requires accepted { IsSome (fold graph.now (changes_of requests.now)) }
    ensures before { IfOk result (λ prepared. prepared.before ≡ graph.now) }
    ensures after { IfOk result (λ prepared. Some prepared.after ≡ fold graph.now (changes_of requests.now)) }
{
    let mut prepared = graph.preparation();
    for request in requests {
        prepared = prepared.take(alloc, graph, &request.change)?;
    }
    Ok(prepared)
}

// Each request's ticket becomes the last one of its session.
fn raise_all(tickets: &mut [u64; SESSIONS], requests: &[Request])
    requires { AreInTurn tickets.old requests.now }
    ensures { tickets.new ≡ tickets_after tickets.old (asked requests.now) }
{
    for request in requests {
        tickets[request.session as usize] = request.ticket;
    }
}

impl<D: Disk> Store<D> {
    ghost use Rattle.checkpoint.specs.StoreWords.{state_of, nodes_of, disk_of, view_of, is_down, IsWornOut};
    ghost use Rattle.checkpoint.specs.Opening.{IsOpened, IsNotOpened};
    ghost use Rattle.checkpoint.specs.Committing.{HasCommitted, RefusesCommit, CommitsWholly};

    /// The store that a device holds. It syncs, and writes nothing; with a refusal the device comes back.
    pub fn open(alloc: Global, disk: D) -> Result<Store<D>, (OpenRefused, D)>
        ensures opened { IfOk result (λ store. IsOpened (D.view disk) store) }

        ensures refused { IfErr result (λ e. IsNotOpened (D.view disk) (D.view e.1) e.0) }
    {
        let mut disk = disk;
        match load(alloc, &mut disk) {
            Err(refused) => Err((refused, disk)),
            Ok(loaded) => Ok(Store {
                disk,
                journal: loaded.journal,
                slot: loaded.slot,
                epoch: loaded.epoch,
                other_gate: loaded.other_gate,
                base_count: Snapshot::of(&loaded.base_count),
                base: loaded.base,
                base_tickets: loaded.base_tickets,
                count: loaded.count,
                graph: loaded.graph,
                tickets: loaded.tickets,
                down: false,
            }),
        }
    }

    /// How many changes were accepted.
    pub fn count(&self) -> u64
        ensures same { result ≡ (state_of self.now).count }
        ensures fits { result ≤ worn_limit }
    {
        self.count
    }

    /// The network that they made.
    pub fn graph(&self) -> &Graph
        ensures { result.now ≡ (state_of self.now).graph }
    {
        &self.graph
    }

    /// The number of its nodes.
    pub fn nodes(&self) -> u16
        ensures { result ≡ nodes_of self.now }
    {
        self.graph.nodes()
    }

    /// The last ticket that was taken of a session, 0 where there is none.
    pub fn resume(&self, session: u8) -> u64
        requires { session < sessions }
        ensures { result ≡ last_of (state_of self.now).tickets session }
    {
        self.tickets[session as usize]
    }

    /// The last ticket of each session. It takes no memory.
    pub fn starts(&self) -> [u64; SESSIONS]
        ensures { result ≡ (state_of self.now).tickets }
    {
        self.tickets
    }

    /// Whether the device has failed, so that the store takes no more.
    pub fn is_down(&self) -> bool
        ensures { result ≡ is_down self.now }
    {
        self.down
    }

    pub fn into_disk(self) -> D
        ensures { result ≡ disk_of self }
    {
        self.disk
    }

    /// Takes requests: all of them, or none. They count from `Ok` on. At most four calls of the device.
    pub fn commit(&mut self, alloc: Global, requests: &[Request]) -> Result<(), CommitRefused>
        requires some { 1 ≤ length requests.now }
        requires few { length requests.now ≤ most_entries }
        requires accepted { IsSome (fold (state_of self.old).graph (changes_of requests.now)) }
        requires in_turn { AreInTurn (state_of self.old).tickets requests.now }
        ensures ok { OnOk result (HasCommitted self.old self.new requests.now) }

        ensures refused { RefusesCommit self.old self.new requests.now result }

        ensures nodes { nodes_of self.new ≡ nodes_of self.old }
        ensures worn_out { IsWornOut self.new ↔ IsWornOut self.old }
        ensures ran { IsSameDevice (view_of self.old) (view_of self.new) }
        ensures calls { AtMostCalls 4 (view_of self.old) (view_of self.new) }

        ensures any_moment { CommitsWholly self.old self.new requests.now }
    {
        if self.down {
            return Err(CommitRefused::Down);
        }
        if WORN_LIMIT - self.count < requests.len() as u64 {
            return Err(CommitRefused::Worn);
        }
        if !self.journal.has_room(requests) {
            return Err(CommitRefused::NeedsRoll);
        }
        let prepared = prepare_all(alloc, &self.graph, requests)?;
        match self.journal.append(alloc, &mut self.disk, requests) {
            Err(AppendRefused::NoRoom) => Err(CommitRefused::NeedsRoll),
            Err(AppendRefused::Memory) => Err(CommitRefused::Memory),
            Err(AppendRefused::Device) => {
                self.down = true;
                Err(CommitRefused::Device)
            }
            Ok(()) => {
                self.count += requests.len() as u64;
                self.graph.install(prepared);
                raise_all(&mut self.tickets, requests);
                Ok(())
            }
        }
    }
}

impl<D: CrashDisk> Store<D> {
    ghost use Rattle.checkpoint.specs.StoreWords.{state_of, view_of, is_down, IsWhereItWas};

    /// From now on calls of the device fail by this plan, in place of the one before: they are counted
    /// from 1, from here on. All else stays, on the disk too. It takes no memory.
    pub fn arm(&mut self, plan: Plan)
        ensures state { state_of self.new ≡ state_of self.old }
        ensures down { is_down self.new ≡ is_down self.old }
        ensures at { IsWhereItWas self.old self.new }
        ensures same { Unchanged (view_of self.old) (view_of self.new) }
    {
        self.disk.arm(plan);
    }
}
