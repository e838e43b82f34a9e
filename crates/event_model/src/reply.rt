// Replies.
use forwarders::Refused as RouteRefused;
use group_commit::DeskRefused;
use intake::{Outcome, SubmitRefused};

/// What an event is answered.
#[derive(Clone, Copy, Debug, PartialEq, Eq, Drop)]
pub enum Reply {
    /// The request waits in the queue, under the ticket that the session gave.
    Submitted { ticket: u64 },
    /// Nothing was added.
    NotSubmitted(SubmitRefused),
    Looked(Outcome),
    /// This request moved from the queue to the desk.
    Taken { session: u8, ticket: u64 },
    /// So many changes of the group are accepted. They are in the store, and the marks of the group are due.
    Committed { accepted: usize },
    /// The group stays held.
    NotCommitted(DeskRefused),
    /// What was due is posted.
    Posted,
    /// The newest generation has this number, which is the store's count.
    Rebuilt { generation: u64 },
    /// The device failed before, and nothing was done.
    NotRebuilt,
    /// The packet was sent under this number.
    Launched { packet: usize },
    /// The packet wasn't sent; or it stays where it is.
    NotRouted(RouteRefused),
    /// The packet stands at the next node, behind this port.
    Forwarded { port: u16, next: u16 },
    /// The packet is at its destination, and isn't there any more.
    Delivered,
    /// There was nothing to do.
    Idle,
    /// There is no such session or packet.
    NoActor,
    /// Memory ran out, and all is as it was, but for what was due at a rebuild and for a roll of the store at a commit.
    Memory,
}
