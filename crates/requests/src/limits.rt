// The limits of sessions and tickets. Each stands here once, and as a word of `specs/Tickets.antt`.

/// How many sessions there are. They are numbered from 0.
pub const SESSIONS: usize = 64;

/// The greatest ticket.
pub const WORN_LIMIT: u64 = 9_223_372_036_854_775_807;
