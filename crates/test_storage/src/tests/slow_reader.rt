// A slow reader of a journal's and of a device's bytes, written from docs/FORMATS.md. What is damaged in any way is none.
use super::*;

const LIMIT: u64 = 0x7fff_ffff_ffff_ffff;

// An edge: its nodes, the smaller one first, and its weight.
pub(super) type Edge = (u64, u64, u64);

// What stands on a device.
#[derive(Drop)]
pub(super) struct State {
    nodes: u64,
    pub(super) count: u64,
    pub(super) edges: Vec<Edge>,
    pub(super) tickets: [u64; 64],
}

// An op of a journal: whether it is the first one of its entry, that one's session and ticket, and its kind, its nodes and its weight.
#[derive(Clone, Copy, Debug, PartialEq, Eq)]
pub(super) struct Line {
    pub(super) first: bool,
    session: u64,
    ticket: u64,
    pub(super) op: [u64; 4],
}

// The number that so many bytes spell. Behind the last there are zeros.
fn number(bytes: &[u8], at: u64, len: u64) -> u64 {
    let mut number = 0u64;
    for i in 0..len {
        let byte = bytes.get(at.wrapping_add(i) as usize).copied().unwrap_or(0);
        number = number.wrapping_mul(256).wrapping_add(byte as u64);
    }
    number
}

// ---- journals

// The ops of a journal area's records up to the first closed gate. An entry has so many bytes before its number of ops: a session and a
// ticket, or in the first layout none.
pub(super) fn records(rt: &impl Host, area: &[u8], head: u64) -> Option<Vec<Line>> {
    let mut lines = Vec::new(rt.alloc());
    let mut gate = 0u64;
    for _ in 0..area.len() {
        if number(area, gate, 1) != 1 {
            return Some(lines);
        }
        let payload = gate.wrapping_add(5);
        gate = payload.wrapping_add(number(area, gate.wrapping_add(1), 4));
        if gate >= area.len() as u64 || !has_group(rt, area, head, (payload, gate), &mut lines) {
            return None;
        }
    }
    None
}

// A payload from one place to another: its entries, one behind the other, and nothing behind the last.
fn has_group(
    rt: &impl Abort,
    area: &[u8],
    head: u64,
    ends: (u64, u64),
    lines: &mut Vec<Line>,
) -> bool {
    let many = number(area, ends.0, 2);
    let mut at = ends.0.wrapping_add(2);
    for _ in 0..many.min(65) {
        let session = number(area, at, head.min(1));
        let ticket = number(area, at.wrapping_add(1), head.saturating_sub(1));
        at = at.wrapping_add(head);
        let ops = number(area, at, 1);
        let next = at.wrapping_add(1).wrapping_add(ops.wrapping_mul(9));
        if next > ends.1 || ops < 1 || ops > 16 {
            return false;
        }
        for op in 0..ops {
            let line = Line {
                first: op == 0,
                session,
                ticket,
                op: op_at(area, at.wrapping_add(1).wrapping_add(op.wrapping_mul(9))),
            };
            if !has_form(line.op) {
                return false;
            }
            got(rt, lines.push(line));
        }
        at = next;
    }
    1 <= many && many <= 64 && at == ends.1
}

fn op_at(area: &[u8], at: u64) -> [u64; 4] {
    let parts: [(u64, u64); 4] = [(0, 1), (1, 2), (3, 2), (5, 4)];
    parts.map(|(from, len)| number(area, at.wrapping_add(from), len))
}

// Whether an op is one: an add, a set, or a cut of weight 0.
fn has_form(op: [u64; 4]) -> bool {
    let [kind, _, _, weight] = op;
    kind == 1 || kind == 2 || kind == 3 && weight == 0
}

// ---- devices

// What a device opens to, or why it can't be opened.
pub(super) fn read(rt: &impl Host, bytes: &[u8]) -> Result<State, OpenRefused> {
    if bytes.len() < 10 || number(bytes, 0, 6) != 0x545a_4e4f_4445 {
        return Err(OpenRefused::NotFormatted);
    }
    if number(bytes, 6, 2) != 0x3032 {
        return Err(OpenRefused::BadVersion);
    }
    let Some(slot) = chosen(bytes) else {
        return Err(OpenRefused::Damaged);
    };
    let mut state = State {
        nodes: number(bytes, 8, 2),
        count: number(bytes, slot.wrapping_add(9), 8),
        edges: Vec::new(rt.alloc()),
        tickets: [0; 64],
    };
    if has_head(&state, bytes, slot)
        && has_tickets(&mut state, bytes, slot.wrapping_add(23))
        && has_edges(rt, &mut state, bytes, slot)
        && has_records(rt, &mut state, bytes, slot.wrapping_add(528_384))
    {
        Ok(state)
    } else {
        Err(OpenRefused::Damaged)
    }
}

// Where the slot begins that counts.
fn chosen(bytes: &[u8]) -> Option<u64> {
    let (first, second) = (4096, 1_581_056);
    let epochs = (number(bytes, first + 1, 8), number(bytes, second + 1, 8));
    match (number(bytes, first, 1) == 1, number(bytes, second, 1) == 1) {
        (true, true) if epochs.0 == epochs.1 => None,
        (true, true) if epochs.0 < epochs.1 => Some(second),
        (true, _) => Some(first),
        (false, true) => Some(second),
        (false, false) => None,
    }
}

fn has_head(state: &State, bytes: &[u8], slot: u64) -> bool {
    bytes.len() == 3_158_016
        && 0 < state.nodes
        && state.nodes <= 16_384
        && number(bytes, slot.wrapping_add(1), 8) <= LIMIT
        && state.count <= LIMIT
        && number(bytes, slot.wrapping_add(17), 2) == state.nodes
}

fn has_tickets(state: &mut State, bytes: &[u8], at: u64) -> bool {
    let mut at = at;
    for ticket in state.tickets.iter_mut() {
        *ticket = number(bytes, at, 8);
        if *ticket > LIMIT {
            return false;
        }
        at = at.wrapping_add(8);
    }
    true
}

fn has_edges(rt: &impl Abort, state: &mut State, bytes: &[u8], slot: u64) -> bool {
    let edges = number(bytes, slot.wrapping_add(19), 4);
    if edges > 65_536 {
        return false;
    }
    let mut last = None;
    let mut at = slot.wrapping_add(535);
    for _ in 0..edges {
        let (a, b) = (number(bytes, at, 2), number(bytes, at.wrapping_add(2), 2));
        let weight = number(bytes, at.wrapping_add(4), 4);
        if a >= b || b >= state.nodes || !is_weight(weight) || last >= Some((a, b)) {
            return false;
        }
        got(rt, state.edges.push((a, b, weight)));
        last = Some((a, b));
        at = at.wrapping_add(8);
    }
    true
}

fn is_weight(weight: u64) -> bool {
    0 < weight && weight <= 1_000_000
}

// The records of the area that begins here, each request in turn, and each op taken.
fn has_records(rt: &impl Host, state: &mut State, bytes: &[u8], start: u64) -> bool {
    let start = start as usize;
    let area = bytes.get(start..start.wrapping_add(1_048_576));
    let Some(lines) = records(rt, area.unwrap_or(&[]), 9) else {
        return false;
    };
    for line in &lines {
        let in_turn = !line.first || is_in_turn(state, line);
        if !in_turn || !takes_op(rt, state, line.op) {
            return false;
        }
    }
    true
}

// Whether a request is in turn. It counts then.
fn is_in_turn(state: &mut State, line: &Line) -> bool {
    let Some(last) = state.tickets.get_mut(line.session as usize) else {
        return false;
    };
    if line.ticket <= *last || line.ticket > LIMIT || state.count >= LIMIT {
        return false;
    }
    *last = line.ticket;
    state.count = state.count.wrapping_add(1);
    true
}

fn takes_op(rt: &impl Abort, state: &mut State, op: [u64; 4]) -> bool {
    let [kind, x, y, weight] = op;
    let (a, b) = if x < y { (x, y) } else { (y, x) };
    if a == b || b >= state.nodes {
        return false;
    }
    let place = state
        .edges
        .iter()
        .position(|edge| edge.0 == a && edge.1 == b);
    match (kind, place) {
        (1, None) if is_weight(weight) && state.edges.len() < 65_536 => {
            got(rt, state.edges.push((a, b, weight)));
            true
        }
        (2, Some(place)) if is_weight(weight) => {
            if let Some(edge) = state.edges.get_mut(place) {
                edge.2 = weight;
            }
            true
        }
        (3, Some(place)) if place < state.edges.len() => {
            state.edges.remove(place);
            true
        }
        _ => false,
    }
}
