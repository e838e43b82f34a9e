// Events.
use graph_edits::Change;

/// One step of an editor, of the committer or of a forwarder. `at` chooses how many postings the actor sees: as many as it has
/// seen, or `at` where that is more and there are so many.
#[derive(Debug, Drop)]
pub enum Event {
    /// A session asks for a change under a ticket of its own. It sees no more postings than before.
    Submit {
        session: u8,
        ticket: u64,
        change: Change,
    },
    /// A session looks what became of its last change.
    Look {
        session: u8,
        at: usize,
    },
    /// The committer moves a request from the queue to its desk.
    Take,
    /// The committer commits what the desk holds, as one group.
    Commit,
    /// The committer posts what is due.
    Post,
    /// The committer posts what is due, then builds a generation of the store's graph by these words and posts it. Of the words the
    /// first count, one for each node, and for each that is missing the greatest.
    Rebuild {
        words: Vec<u64>,
    },
    /// A node sends a packet to another, by the newest generation seen.
    Launch {
        from: u16,
        to: u16,
        at: usize,
    },
    /// A packet is carried on by the node where it stands. Packets are numbered from 0, as they were launched.
    Hop {
        packet: usize,
        at: usize,
    },
}
