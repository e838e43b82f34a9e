// Events of editors.
ghost use Rattle.event_model.specs.declared.event.Event.TheVariants as events;

use crate::world::World;
use disk_trait::Disk;
use event_model::{Reply, Session};
use graph_edits::Change;
use intake::{SubmitRefused, outcome_of, refusal_of};
use requests::Request;

impl<D: Disk> World<D> {
    ghost use Rattle.interleave.specs.Events.{LeavesDesk, WorldAnswers};

    /// A session asks for a change.
    pub(crate) fn submit(&mut self, session: u8, ticket: u64, change: &Change) -> Reply
        ensures leaves { LeavesDesk self.old result self.new }
        ensures answers { WorldAnswers (events.Submit session ticket change.now) self.old result self.new }
    {
        let place = session as usize;
        if place >= self.stored.sessions.len() {
            return Reply::NoActor;
        }
        let Session { seen, last } = self.stored.sessions[place];
        let Ok(board) = self.stored.board(seen) else {
            return Reply::Memory;
        };
        let start = self.stored.start_of(session);
        if let Some(refused) = refusal_of(&board, session, start, last, ticket) {
            return Reply::NotSubmitted(refused);
        }
        if self.stored.asked.len() - self.stored.taken >= self.stored.capacity {
            return Reply::NotSubmitted(SubmitRefused::QueueFull);
        }
        let request = Request {
            session,
            ticket,
            change: change.copy(),
        };
        if self.stored.asked.push(request).is_err() {
            return Reply::Memory;
        }
        self.stored.sessions[place] = Session {
            seen,
            last: Some(ticket),
        };
        Reply::Submitted { ticket }
    }

    /// A session looks what became of its last change.
    pub(crate) fn look(&mut self, session: u8, at: usize) -> Reply
        ensures leaves { LeavesDesk self.old result self.new }
        ensures answers { WorldAnswers (events.Look session at) self.old result self.new }
    {
        let place = session as usize;
        if place >= self.stored.sessions.len() {
            return Reply::NoActor;
        }
        let Session { seen, last } = self.stored.sessions[place];
        let seen = self.stored.further(seen, at);
        let Ok(board) = self.stored.board(seen) else {
            return Reply::Memory;
        };
        self.stored.sessions[place] = Session { seen, last };
        Reply::Looked(outcome_of(&board, session, last))
    }
}
