// Lines that aren't understood.
use thiserror::Error;

/// What a line should have been.
#[derive(Clone, Copy, Debug, PartialEq, Eq, Drop, Error)]
pub enum Form {
    #[error("the first line is `device N`, with 1 to 16384 nodes")]
    Device,
    #[error("a life begins with `life sessions=S places=Q words=W [fail=C | stop=C:B] crash=K`, with 1 to 64 sessions and places, and landmark words of the device's nodes")]
    Life,
    #[error("a request is `submit SESSION TICKET OP..`, with 1 to 16 of add:A:B:W, set:A:B:W and cut:A:B")]
    Submit,
    #[error("a look is `look SESSION POSTINGS`")]
    Look,
    #[error("a step of the committer is `take`, `commit` or `post`, and nothing behind it")]
    Step,
    #[error("a rebuild is `rebuild W`, with W as none, at:0,2 (nodes of the device) or draw:7")]
    Rebuild,
    #[error("a packet is sent by `launch FROM TO POSTINGS`")]
    Launch,
    #[error("a packet goes on by `hop PACKET POSTINGS`")]
    Hop,
    #[error("a line begins with life, submit, take, commit, post, look, rebuild, launch or hop")]
    Line,
}

/// The first line that isn't understood, and what it should have been.
#[derive(Clone, Copy, Debug, PartialEq, Eq, Drop, Error)]
#[error("line {number}: {form}")]
pub struct LineRefused {
    /// The line's number, from 1.
    pub number: usize,
    pub form: Form,
}
