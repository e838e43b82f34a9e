// A plain network of eight nodes, and a session over one, which share no code with the service; and drawn ops.
use crate::helpers::got;
use rand_core::utils::NextWord;
use rand_xoshiro::Xoshiro256PlusPlus;
use std::process::Abort;

/// The weight between each two of eight nodes, 0 where there is no edge.
#[derive(Clone, Copy, PartialEq, Eq)]
pub(crate) struct Plain(pub(crate) [u64; 64]);

/// One op: 0 adds, 1 sets, 2 cuts.
#[derive(Clone, Copy)]
pub(crate) struct PlainOp {
    pub(crate) kind: u64,
    pub(crate) a: u64,
    pub(crate) b: u64,
    pub(crate) weight: u64,
}

fn place(a: u64, b: u64) -> usize {
    a.wrapping_mul(8).wrapping_add(b) as usize
}

impl Plain {
    pub(crate) fn weight(&self, a: u64, b: u64) -> u64 {
        match self.0.get(place(a, b)) {
            Some(weight) if a < 8 && b < 8 => *weight,
            _ => 0,
        }
    }

    fn put(&mut self, a: u64, b: u64, weight: u64) {
        for at in [place(a, b), place(b, a)] {
            if let Some(at) = self.0.get_mut(at) {
                *at = weight;
            }
        }
    }

    // Why an op is refused, 0 where it isn't.
    fn code(&self, op: &PlainOp) -> u64 {
        let there = self.weight(op.a, op.b) > 0;
        if op.a >= 8 || op.b >= 8 {
            1
        } else if op.a == op.b {
            2
        } else if op.kind < 2 && (op.weight < 1 || op.weight > 1_000_000) {
            3
        } else if op.kind == 0 && there {
            4
        } else if op.kind > 0 && !there {
            5
        } else {
            0
        }
    }

    // The graph after a change, or the first op that is refused, and why.
    pub(crate) fn after(&self, ops: &[PlainOp; 2]) -> Result<Plain, (u64, u64)> {
        let mut graph = *self;
        for (index, op) in ops.iter().enumerate() {
            match graph.code(op) {
                0 if op.kind == 2 => graph.put(op.a, op.b, 0),
                0 => graph.put(op.a, op.b, op.weight),
                code => return Err((index as u64, code)),
            }
        }
        Ok(graph)
    }

    // The least length of a way, by as many rounds over all edges as there are nodes.
    pub(crate) fn shortest(&self, from: u64, to: u64) -> Option<u64> {
        let mut best = [u64::MAX; 8];
        if let Some(at) = best.get_mut(from as usize) {
            *at = 0;
        }
        for _ in 0..8u64 {
            for a in 0..8u64 {
                for b in 0..8u64 {
                    let weight = self.weight(a, b);
                    let so_far = best.get(a as usize).copied().unwrap_or(u64::MAX);
                    if weight > 0
                        && so_far < u64::MAX
                        && let Some(at) = best.get_mut(b as usize)
                    {
                        *at = (*at).min(so_far.wrapping_add(weight));
                    }
                }
            }
        }
        best.get(to as usize)
            .copied()
            .filter(|length| *length < u64::MAX)
    }

    // The length of a way over these nodes, with a space between each two, where each step is an edge.
    pub(crate) fn length(&self, from: u64, to: u64, nodes: &str) -> Option<u64> {
        let mut stops = nodes.split(' ');
        let mut at = stops.next()?.parse().ok()?;
        if at != from {
            return None;
        }
        let mut length: u64 = 0;
        for stop in stops {
            let next = stop.parse().ok()?;
            let weight = self.weight(at, next);
            if weight == 0 {
                return None;
            }
            length = length.wrapping_add(weight);
            at = next;
        }
        if at == to { Some(length) } else { None }
    }
}

/// A session with a network of its own; the last ticket that it submitted, the op and the code of the last refusal, and the last ticket that was
/// accepted.
#[derive(Clone, Copy)]
pub(crate) struct PlainSession {
    pub(crate) graph: Plain,
    pub(crate) last: u64,
    pub(crate) refusal: (u64, u64),
    pub(crate) accepted: u64,
}

/// What becomes of an edit; where it is refused, by which op and code.
#[derive(Clone, Copy)]
pub(crate) enum PlainAnswer {
    Accepted,
    Refused((u64, u64)),
    AlreadyIn,
    OldTicket,
}

impl PlainSession {
    pub(crate) fn new() -> PlainSession {
        PlainSession {
            graph: Plain([0; 64]),
            last: 0,
            refusal: (0, 0),
            accepted: 0,
        }
    }

    /// An edit under a ticket.
    pub(crate) fn edit(&mut self, ticket: u64, ops: &[PlainOp; 2]) -> PlainAnswer {
        if ticket <= self.accepted {
            return PlainAnswer::AlreadyIn;
        }
        if ticket < self.last {
            return PlainAnswer::OldTicket;
        }
        if ticket == self.last {
            return PlainAnswer::Refused(self.refusal);
        }
        self.last = ticket;
        match self.graph.after(ops) {
            Ok(graph) => {
                self.graph = graph;
                self.accepted = ticket;
                PlainAnswer::Accepted
            }
            Err(refusal) => {
                self.refusal = refusal;
                PlainAnswer::Refused(refusal)
            }
        }
    }
}

/// The next word below a number.
pub(crate) fn below(generator: &mut Xoshiro256PlusPlus, number: u64) -> u64 {
    generator.next_word().checked_rem(number).unwrap_or(0)
}

/// Two ops, with ends and weights below these numbers. Mostly the second sets the edge of the first.
pub(crate) fn drawn_ops(
    generator: &mut Xoshiro256PlusPlus,
    bounds: (u64, u64, u64),
) -> [PlainOp; 2] {
    let first = drawn_op(generator, bounds);
    let mut second = drawn_op(generator, bounds);
    if below(generator, 4) > 0 {
        second.kind = 1;
        second.a = first.a;
        second.b = first.b;
    }
    [first, second]
}

fn drawn_op(generator: &mut Xoshiro256PlusPlus, bounds: (u64, u64, u64)) -> PlainOp {
    PlainOp {
        kind: below(generator, 6) / 2,
        a: below(generator, bounds.0),
        b: below(generator, bounds.1),
        weight: below(generator, bounds.2),
    }
}

/// Puts an op with a space before it.
pub(crate) fn put_op(rt: &impl Abort, text: &mut String, op: &PlainOp) {
    let PlainOp { kind, a, b, weight } = *op;
    match kind {
        0 => got(rt, write!(text, " add:{a}:{b}:{weight}")),
        1 => got(rt, write!(text, " set:{a}:{b}:{weight}")),
        _ => got(rt, write!(text, " cut:{a}:{b}")),
    }
}
