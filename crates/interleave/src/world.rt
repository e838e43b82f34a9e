//! The world: a desk, and beside it a queue, sessions, postings and packets, without threads.
ghost use Rattle.std.specs.Prelude.{◌≡◌, ◌≤◌, [], length, take, drop, replicate, IfOk, None};
ghost use Rattle.disk_trait.specs.Disk.{Unchanged};
ghost use Rattle.requests.specs.Tickets.{sessions as all_sessions, tickets_after};
ghost use Rattle.layout_2.specs.State.{asked as asked_all, AreInTurn};
ghost use Rattle.checkpoint.specs.Kept.{kept_props};
ghost use Rattle.checkpoint.specs.StoreWords.{state_of};
ghost use Rattle.group_commit.specs.DeskWords.{store_of, held_of, due_of};
ghost use Rattle.group_commit.specs.Turns.{AreBehind, in_turn_prop};
ghost use Rattle.event_model.specs.Machines.{fresh_session};
ghost use Rattle.interleave.specs.Stores.{AreLasts, behind_prop};

use crate::stored::Stored;
use disk_trait::{CrashDisk, Disk, Plan};
use event_laws::{history_law, lists_law, ways_law};
use event_model::Session;
use group_commit::Desk;
use std::alloc::{AllocError, Global};

/// A desk, and what a life stores beside it.
#[derive(Drop)]
pub struct World<D: Disk> {
    pub(crate) desk: Desk<D>,
    pub(crate) stored: Stored,
    ghost started: { stored.done ≤ stored.taken },
    ghost within: { stored.taken ≤ length stored.asked.items },
    // The desk holds what was taken and isn't settled.
    ghost split: { held_of desk ≡ drop stored.done (take stored.taken stored.asked.items) },
    ghost wide: { length stored.starts ≡ all_sessions },
    ghost few: { length stored.sessions.items ≤ all_sessions },
    // The tickets of all requests that were let in rise from the starts, and each session knows its last one.
    ghost in_turn: { AreInTurn stored.starts stored.asked.items } by { in_turn_prop stored.starts stored.asked.items },
    ghost lasts: { AreLasts stored.starts stored.asked.items stored.sessions.items } by { Prim.hlevel kept_props },
    // The store has no ticket that is later than those of the settled requests.
    ghost behind: { AreBehind (state_of (store_of desk)).tickets (tickets_after stored.starts (asked_all (take stored.done stored.asked.items))) } by { behind_prop (state_of (store_of desk)).tickets (tickets_after stored.starts (asked_all (take stored.done stored.asked.items))) },
}

impl<D: Disk + Drop> World<D> {
    ghost use Rattle.interleave.specs.Begun.{HasBegun, IsFresh};

    /// A world at the beginning of a life: nothing was asked, posted or sent yet.
    pub fn new(
        alloc: Global,
        desk: Desk<D>,
        sessions: usize,
        capacity: usize,
    ) -> Result<World<D>, AllocError>
        requires sessions { (1 ≤ sessions) × (sessions ≤ 64) }
        requires capacity { (1 ≤ capacity) × (capacity ≤ 64) }
        requires none_held { held_of desk ≡ [] }
        requires none_due { due_of desk ≡ None }
        ensures { IfOk result (λ world. HasBegun desk capacity sessions world) }
    {
        let sessions = fresh_sessions(alloc, sessions)?;
        Ok(World::with_sessions(alloc, desk, sessions, capacity))
    }

    /// The same with sessions that are there already, each of which has seen and asked for nothing. It takes no memory.
    pub fn with_sessions(
        alloc: Global,
        desk: Desk<D>,
        sessions: Vec<Session>,
        capacity: usize,
    ) -> World<D>
        requires sessions { (1 ≤ length sessions.items) × (length sessions.items ≤ 64) }
        requires fresh { sessions.items ≡ replicate (length sessions.items) fresh_session }
        requires capacity { (1 ≤ capacity) × (capacity ≤ 64) }
        requires none_held { held_of desk ≡ [] }
        requires none_due { due_of desk ≡ None }
        ensures { HasBegun desk capacity (length sessions.items) result }
    {
        // The machine begins as a run with lawful lists, and with no packet off its way.
        history_law::<D>();
        lists_law();
        ways_law();
        World::fresh(alloc, desk, sessions, capacity)
    }

    // The same, without what follows from the machine.
    fn fresh(alloc: Global, desk: Desk<D>, sessions: Vec<Session>, capacity: usize) -> World<D>
        requires few { length sessions.items ≤ 64 }
        requires fresh { sessions.items ≡ replicate (length sessions.items) fresh_session }
        requires none_held { held_of desk ≡ [] }
        requires none_due { due_of desk ≡ None }
        ensures fresh { IsFresh desk capacity (length sessions.items) result }
        ensures wide { length (state_of (store_of desk)).tickets ≡ all_sessions }
    {
        let starts = desk.starts();
        let start = desk.store().count();
        let stored = Stored {
            starts,
            start,
            capacity,
            sessions,
            asked: Vec::new(alloc),
            taken: 0,
            done: 0,
            groups: Vec::new(alloc),
            postings: Vec::new(alloc),
            seen: 0,
            ways: Vec::new(alloc),
        };
        World { desk, stored }
    }
}

/// Sessions that have seen and asked for nothing.
pub fn fresh_sessions(alloc: Global, count: usize) -> Result<Vec<Session>, AllocError>
    ensures { IfOk result (λ sessions. sessions.items ≡ replicate count fresh_session) }
{
    Ok(vec![in alloc; Session {
        seen: 0,
        last: None
    }; count]?)
}

impl<D: Disk> World<D> {
    ghost use Rattle.interleave.specs.WorldWords.{desk_of, stored_of};

    /// What it stored, and the desk. It takes no memory.
    pub fn into_parts(self) -> (Stored, Desk<D>)
        ensures stored { result.0 ≡ stored_of self }
        ensures desk { result.1 ≡ desk_of self }
    {
        (self.stored, self.desk)
    }
}

impl<D: CrashDisk> World<D> {
    ghost use Rattle.interleave.specs.WorldWords.{lists_of, machine_of, stored_of, world_view};

    /// From now on calls of the device fail by this plan, in place of the one before: they are counted from 1, from here on. All else
    /// stays, on the disk too. It takes no memory.
    pub fn arm(&mut self, plan: Plan)
        ensures stored { stored_of self.new ≡ stored_of self.old }
        ensures machine { machine_of self.new ≡ machine_of self.old }
        ensures lists { lists_of self.new ≡ lists_of self.old }
        ensures same { Unchanged (world_view self.old) (world_view self.new) }
    {
        self.desk.arm(plan);
    }
}
