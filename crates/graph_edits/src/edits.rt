// Ops on edges, and changes of several ops.
ghost use Rattle.std.specs.Prelude.{◌≡◌, ℕ, ◌+◌, ◌<◌, ◌≤◌, ◌↔◌, List, length, IfOk, if◌then◌else◌};
ghost use Rattle.graph_edits.specs.Changes.{first_node, second_node, op_weight, refusal_within};
ghost use Rattle.graph_edits.specs.Rows.{joins};

use crate::limits::{GREATEST_WEIGHT, MOST_OPS};
use arrayvec::ArrayVec;
use std::marker::Model;
use thiserror::Error;

/// What an editor asks for one pair of nodes. It is the same pair, whichever node is named first.
#[derive(Clone, Copy, Debug, PartialEq, Eq)]
pub enum Op {
    /// A new edge between two nodes, with its weight.
    Add(u16, u16, u32),
    /// Another weight for the edge between two nodes. It may be the one that stands.
    Set(u16, u16, u32),
    /// No edge between two nodes any more.
    Cut(u16, u16),
}

// What fills the unused places of a change.
impl Default for Op {
    fn default() -> Self {
        Op::Cut(0, 0)
    }
}

impl Op {
    /// The two nodes, in the order in which they were given.
    pub fn ends(self) -> (u16, u16)
        ensures { result ≡ (first_node self, second_node self) }
    {
        match self {
            Op::Add(a, b, _) | Op::Set(a, b, _) | Op::Cut(a, b) => (a, b),
        }
    }

    /// The weight that the edge then has, if there is still one.
    pub(crate) fn weight(self) -> Option<u32>
        ensures { result ≡ op_weight self }
    {
        match self {
            Op::Add(_, _, weight) | Op::Set(_, _, weight) => Some(weight),
            Op::Cut(_, _) => None,
        }
    }

    /// Whether it names the pair of two nodes.
    pub(crate) fn is_on(self, a: u16, b: u16) -> bool
        ensures { result ≡ joins (first_node self) (second_node self) a b }
    {
        let (c, d) = self.ends();
        (a == c && b == d) || (a == d && b == c)
    }

    /// The weight between two nodes after it, where it was `weight` before.
    pub(crate) fn weight_then(self, weight: Option<u32>, a: u16, b: u16) -> Option<u32>
        ensures { result ≡ (if joins (first_node self) (second_node self) a b then op_weight self else weight) }
    {
        if self.is_on(a, b) {
            self.weight()
        } else {
            weight
        }
    }

    /// Why it is refused in a graph of so many nodes and edges that may have `limit` edges, `there` being whether its
    /// pair has an edge.
    pub(crate) fn refusal(self, limit: usize, nodes: u16, edges: usize, there: bool) -> Option<Code>
        ensures { result ≡ refusal_within limit nodes edges there self }
    {
        let (a, b) = self.ends();
        if a >= nodes || b >= nodes {
            return Some(Code::NoNode);
        }
        if a == b {
            return Some(Code::Loop);
        }
        if let Some(weight) = self.weight()
            && (weight < 1 || weight > GREATEST_WEIGHT)
        {
            return Some(Code::BadWeight);
        }
        match self {
            Op::Add(_, _, _) if there => Some(Code::EdgeThere),
            Op::Add(_, _, _) if edges >= limit => Some(Code::TooManyEdges),
            Op::Set(_, _, _) | Op::Cut(_, _) if !there => Some(Code::NoEdge),
            _ => None,
        }
    }
}

/// Why an op is refused: the first of these that holds. The rules and their numbers are this project's profile.
#[derive(Clone, Copy, Debug, PartialEq, Eq, Error)]
pub enum Code {
    /// One of its numbers names no node.
    #[error("no such node")]
    NoNode = 1,
    /// It names one node twice.
    #[error("both ends are one node")]
    Loop = 2,
    /// The weight that it adds or sets is 0 or above the greatest.
    #[error("the weight is out of range")]
    BadWeight = 3,
    /// It adds an edge that is there.
    #[error("the edge is there already")]
    EdgeThere = 4,
    /// It sets or cuts an edge that isn't there.
    #[error("there is no such edge")]
    NoEdge = 5,
    /// It adds an edge past the most that a graph may have.
    #[error("the graph has as many edges as it may have")]
    TooManyEdges = 6,
}

/// Why a change is refused.
#[derive(Clone, Copy, Debug, PartialEq, Eq, Error)]
pub enum EditRefused {
    /// The first of its ops that is refused, counted from 0, and why.
    #[error("op {index} is refused: {code}")]
    Op { index: usize, code: Code },
    /// No op is refused, but memory is short.
    #[error("out of memory")]
    Memory,
}

/// Why a list of ops is no change.
#[derive(Clone, Copy, Debug, PartialEq, Eq, Error)]
pub enum Shape {
    /// It has no op.
    #[error("a change has at least one op")]
    Empty = 1,
    /// It has more ops than a change may have.
    #[error("a change has at most 16 ops")]
    TooLong = 2,
}

/// From 1 to `MOST_OPS` ops, which are made all together or not at all.
#[derive(Debug, Clone, PartialEq, Eq, Drop)]
pub struct Change {
    ops: ArrayVec<Op, MOST_OPS>,
}

impl Model for Change {
    ghost use Rattle.std.specs.Prelude.{ℕ, ◌≤◌, List, length};
    ghost use Rattle.graph_edits.specs.declared.edits.Op.{Op};

    ghost Value = { List Op };

    ghost view = { λ c. c.ops.items };

    ghost inverse = { λ ops. record { ops = record { items = ops } } };

    ghost invariant = { λ c. 1 ≤ length c.ops.items };
}

impl Change {
    /// A change of these ops, in this order. It takes no memory.
    pub fn new(ops: &[Op]) -> Result<Change, Shape>
        ensures empty { (result ≡ Err Shape.Empty) ↔ (length ops.now ≡ 0) }
        ensures too_long { (result ≡ Err Shape.TooLong) ↔ (MOST_OPS < length ops.now) }
        ensures ops { IfOk result (λ change. change ≡ ops.now) }
    {
        if ops.is_empty() {
            return Err(Shape::Empty);
        }
        if ops.len() > MOST_OPS {
            return Err(Shape::TooLong);
        }
        let mut kept = ArrayVec::new();
        for op in ops {
            kept.push(*op);
        }
        Ok(Change { ops: kept })
    }

    /// Its ops, in order.
    pub fn ops(&self) -> &[Op]
        ensures ops { result.now ≡ self.now }
        ensures some { 1 ≤ length self.now }
        ensures few { length self.now ≤ MOST_OPS }
    {
        self.ops.as_slice()
    }

    /// An equal change. It takes no memory.
    pub fn copy(&self) -> Change
        ensures { result ≡ self.now }
    {
        match Change::new(self.ops()) {
            Ok(copy) => copy,
            Err(_) => unreachable!(),
        }
    }
}
