// Sessions.

/// What an editor's session has seen and asked for in this opening.
#[derive(Clone, Copy, Debug, PartialEq, Eq, Drop)]
pub struct Session {
    /// How many postings it has seen.
    pub seen: usize,
    /// The last ticket that it submitted, none where it submitted nothing.
    pub last: Option<u64>,
}
