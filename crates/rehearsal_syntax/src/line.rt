// Lines of a rehearsal.
use disk_trait::Plan;
use graph_edits::Change;
use value_syntax::LandmarkWords;

/// How a life opens, which calls of the device fail in its events, and what its crash leaves.
#[derive(Debug, PartialEq, Eq, Drop)]
pub struct LifeLine {
    /// How many sessions there are, 1 to 64.
    pub sessions: u8,
    /// How many requests the queue holds at most, 1 to 64.
    pub places: u8,
    /// The landmark words of the generation that it builds first.
    pub words: LandmarkWords,
    pub plan: Plan,
    /// The word of the crash.
    pub crash: u64,
}

/// One line of a rehearsal.
#[derive(Debug, PartialEq, Eq, Drop)]
pub enum RehearsalLine {
    /// A device for so many nodes. Written `device N`.
    Device(u16),
    /// A life begins. Written `life sessions=S places=Q words=W crash=K`, with `fail=C` or `stop=C:B` before `crash`, or neither.
    Life(LifeLine),
    /// A session submits a change under a ticket. Written `submit S T OP..`.
    Submit(u8, u64, Change),
    /// A session looks, at so many postings. Written `look S A`.
    Look(u8, usize),
    /// Written `take`.
    Take,
    /// Written `commit`.
    Commit,
    /// Written `post`.
    Post,
    /// Written `rebuild W`.
    Rebuild(LandmarkWords),
    /// A packet goes from a node to another, sent at so many postings. Written `launch F T A`.
    Launch(u16, u16, usize),
    /// A packet goes on, at so many postings. Written `hop P A`.
    Hop(usize, usize),
}
