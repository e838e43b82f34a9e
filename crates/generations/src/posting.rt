// What is told to all in one step.
use graph_edits::Code;
use schemes::{Parts, Scheme};
use std::alloc::Global;
use std::collections::LinkedList;
use std::sync::Arc;

/// What became of a request.
#[derive(Clone, Copy, Debug, PartialEq, Eq, Drop)]
pub enum Verdict {
    /// The change is in the graph and on the device; with it, `count` changes are.
    Accepted { count: u64 },
    /// Nothing of the change is in the graph: its op at the place `op`, counted from 0, is the first that is refused.
    Refused { op: usize, code: Code },
}

/// A request's verdict, under the session and ticket of the request.
#[derive(Clone, Copy, Debug, PartialEq, Eq, Drop)]
pub struct Mark {
    pub session: u8,
    pub ticket: u64,
    pub verdict: Verdict,
}

/// What is told to all in one step.
#[derive(Drop)]
pub enum Posting {
    /// What became of the requests of one group, which has one at least: a mark for each, in their order.
    Marks(Vec<Mark>),
    /// A call of the device failed: the store takes no more until the device is opened again.
    Down,
    /// A scheme of the graph that so many accepted changes made.
    Generation {
        number: u64,
        scheme: Arc<Scheme, Global>,
    },
}

/// What a posting says, as plain data: nothing of who owns the marks or the scheme. Contracts speak of lists of
/// notices; no value of it is made.
pub enum Notice {
    Marked(LinkedList<Mark>),
    Failed,
    Built { number: u64, scheme: Parts },
}

/// What a board's book keeps: how the board begins, and then its notices. No value of it is made.
pub enum Entry {
    /// Where each session's tickets begin, and the count.
    Opened { starts: LinkedList<u64>, count: u64 },
    Told(Notice),
}
