// A line that put a request.

/// A line that put a request: the request's session and ticket, and the line's place.
#[derive(Clone, Copy, Debug, PartialEq, Eq, Drop)]
pub struct PutLine {
    pub session: u8,
    pub ticket: u64,
    pub place: u64,
}
