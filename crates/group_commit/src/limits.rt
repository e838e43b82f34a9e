//! The limit of a group.

/// The most requests that a desk holds, and so the most changes of a group.
pub const MOST_HELD: usize = 64;
