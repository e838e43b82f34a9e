// Runs of events.
ghost use Rattle.std.specs.Prelude.{◌≡◌, ◌≤◌, [], length, IfOk, OnErr, vec_capacity};
ghost use Rattle.disk_trait.specs.Disk.{IsSameDevice};

use crate::room::add;
use crate::world::World;
use disk_trait::Disk;
use event_laws::{acknowledged_law, history_law, lists_law, queue_law, ways_law};
use event_model::{Event, Reply};
use std::alloc::{AllocError, Global};

/// What a run answers: one reply for each event, in their order.
pub type Report = Vec<Reply>;

impl<D: Disk> World<D> {
    ghost use Rattle.interleave.specs.WorldWords.{world_view};
    ghost use Rattle.interleave.specs.Crashes.{WorldHappens};
    ghost use Rattle.interleave.specs.Desks.{WorldStep};
    ghost use Rattle.interleave.specs.Runs.{HasRun};

    // One event.
    fn step(&mut self, alloc: Global, event: &Event) -> Reply
        ensures step { WorldStep event.now self.old result self.new }
        ensures happens { WorldHappens self.old result self.new }
    {
        match event {
            Event::Submit {
                session,
                ticket,
                change,
            } => self.submit(*session, *ticket, change),
            Event::Look { session, at } => self.look(*session, *at),
            Event::Take => self.take(),
            Event::Commit => self.commit(alloc),
            Event::Post => self.post(),
            Event::Rebuild { words } => self.build(alloc, words.as_slice()),
            Event::Launch { from, to, at } => self.launch(alloc, *from, *to, *at),
            Event::Hop { packet, at } => self.hop(*packet, *at),
        }
    }

    /// Runs the events. The replies go into an empty list that has room for them.
    pub fn run_into(&mut self, alloc: Global, events: &[Event], replies: &mut Vec<Reply>)
        requires room { length events.now ≤ vec_capacity replies.old }
        requires none { replies.old.items ≡ [] }
        ensures ran { IsSameDevice (world_view self.old) (world_view self.new) }
        ensures run { HasRun self.old events.now replies.new.items self.new }
    {
        // Each event keeps the history, the lists, the queue, what is acknowledged, and the ways of packets.
        history_law::<D>();
        lists_law();
        queue_law();
        acknowledged_law();
        ways_law();
        for event in events {
            let reply = self.step(alloc, event);
            add(replies, reply);
        }
    }

    /// Runs the events: one reply for each, in their order. Where there isn't room for so many replies, nothing happens.
    ///
    /// There is a world after each event. On a disk that keeps the model, a crash since any of them, or since the run began, leaves all that
    /// a commit had answered Ok for by then, and all that was acknowledged by then (`HasRun`, specs/Runs.antt).
    pub fn run(&mut self, alloc: Global, events: &[Event]) -> Result<Report, AllocError>
        ensures ran { IsSameDevice (world_view self.old) (world_view self.new) }
        ensures run { IfOk result (λ replies. HasRun self.old events.now replies.items self.new) }
        ensures err { OnErr result (self.new ≡ self.old) }
    {
        let mut replies = Vec::with_capacity(alloc, events.len())?;
        self.run_into(alloc, events, &mut replies);
        Ok(replies)
    }
}
