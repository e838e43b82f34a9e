//! The bytes of a record: each size, each kind and each limit of a group is named here once.
use graph_edits::MOST_OPS;

/// The byte of an open gate.
pub const OPEN_GATE: u8 = 1;

/// The byte that is written for a closed gate. Every byte but the open one is read as closed.
pub const CLOSED_GATE: u8 = 0;

/// The kinds of ops, the first byte of each.
pub const ADD: u8 = 1;

pub const SET: u8 = 2;

pub const CUT: u8 = 3;

/// A gate is one byte.
pub const GATE_SIZE: usize = 1;

/// The length of a payload, a `u32`.
pub const LENGTH_SIZE: usize = 4;

/// What stands before a record's payload: its gate and the payload's length.
pub const RECORD_HEAD: usize = GATE_SIZE + LENGTH_SIZE;

/// The number of entries of a payload, a `u16`.
pub const COUNT_SIZE: usize = 2;

/// The number of ops of a change, one byte.
pub const CHANGE_HEAD: usize = 1;

/// An op: its kind, two nodes, each a `u16`, and the weight, a `u32`.
pub const OP_SIZE: usize = 9;

/// The most entries of a group. The fewest are 1.
pub const MOST_ENTRIES: usize = 64;

/// A change of one op.
pub const LEAST_CHANGE: usize = CHANGE_HEAD + OP_SIZE;

/// A change of the most ops.
pub const MOST_CHANGE: usize = CHANGE_HEAD + MOST_OPS * OP_SIZE;

/// What stands before an accepted request's ops: session, ticket (`u64`) and the number of ops.
pub const REQUEST_HEAD: usize = 1 + 8 + CHANGE_HEAD;

/// A request of one op.
pub const LEAST_REQUEST: usize = REQUEST_HEAD + OP_SIZE;

/// A request of the most ops.
pub const MOST_REQUEST: usize = REQUEST_HEAD + MOST_OPS * OP_SIZE;

/// The longest entry of any form.
pub const MOST_ENTRY: usize = MOST_REQUEST;

/// The payload of the most entries of that length.
pub const MOST_PAYLOAD: usize = COUNT_SIZE + MOST_ENTRIES * MOST_ENTRY;

/// The record of such a payload.
pub const MOST_RECORD: usize = RECORD_HEAD + MOST_PAYLOAD;
