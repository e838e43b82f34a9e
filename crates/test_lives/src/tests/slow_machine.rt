// A plain slow machine: what a store has as a list of edges, what is answered to editors, to the committer and to forwarders, and which steps
// of a packet it takes for good.
use super::*;

// What a store has. Of an edge the two nodes may stand in any order.
#[derive(Drop)]
pub(super) struct State {
    nodes: u16,
    pub(super) edges: Vec<Edge>,
    pub(super) count: u64,
    pub(super) tickets: [u64; 64],
}

// Whether an edge is the one between two nodes.
fn joins(edge: &Edge, x: u16, y: u16) -> bool {
    (edge.0 == x && edge.1 == y) || (edge.0 == y && edge.1 == x)
}

// The nodes of an op, and the weight of the edge that it leaves.
fn parts(op: Op) -> (u16, u16, Option<u32>) {
    match op {
        Op::Add(a, b, weight) | Op::Set(a, b, weight) => (a, b, Some(weight)),
        Op::Cut(a, b) => (a, b, None),
    }
}

impl State {
    // That of a new device.
    pub(super) fn first(rt: &impl Host, nodes: u16) -> State {
        State {
            nodes,
            edges: Vec::new(rt.alloc()),
            count: 0,
            tickets: [0; 64],
        }
    }

    pub(super) fn copy(&self, rt: &impl Host) -> State {
        State {
            nodes: self.nodes,
            edges: got(rt, Vec::from_slice(rt.alloc(), self.edges.as_slice())),
            count: self.count,
            tickets: self.tickets,
        }
    }

    // Whether a graph has just these edges.
    pub(super) fn is(&self, graph: &Graph) -> bool {
        let mut edges = self.edges.iter();
        graph.edges() == self.edges.len()
            && edges.all(|(a, b, weight)| graph.weight(*a, *b) == Some(*weight))
    }

    // Why an op is refused.
    fn refused(&self, op: Op) -> Option<Code> {
        let (a, b, weight) = parts(op);
        let is_there = self.edges.iter().any(|edge| joins(edge, a, b));
        match op {
            _ if a >= self.nodes || b >= self.nodes => Some(Code::NoNode),
            _ if a == b => Some(Code::Loop),
            _ if weight == Some(0) || weight > Some(1_000_000) => Some(Code::BadWeight),
            Op::Add(_, _, _) if is_there => Some(Code::EdgeThere),
            Op::Set(_, _, _) | Op::Cut(_, _) if !is_there => Some(Code::NoEdge),
            _ => None,
        }
    }

    // Takes a request in, where all its ops may be made; else the first that may not is told.
    fn judge(&mut self, rt: &impl Host, (session, ticket, ops): &Request) -> Verdict {
        let mut next = self.copy(rt);
        for (place, op) in ops.iter().enumerate() {
            if let Some(code) = next.refused(*op) {
                return Verdict::Refused { op: place, code };
            }
            let (a, b, new) = parts(*op);
            next.edges.retain(|edge| !joins(edge, a, b));
            if let Some(weight) = new {
                got(rt, next.edges.push((a, b, weight)));
            }
        }
        self.edges = next.edges;
        self.count = self.count.saturating_add(1);
        if let Some(last) = self.tickets.get_mut(*session as usize) {
            *last = *ticket;
        }
        Verdict::Accepted { count: self.count }
    }
}

// A request that was let in: its session, its ticket and its ops.
type Request = (u8, u64, Vec<Op>);

pub(super) fn is_accepted(mark: &Mark) -> bool {
    matches!(mark.verdict, Verdict::Accepted { .. })
}

// A packet that was sent: the number of its generation, where it came from and stands, and how far it has gone.
#[derive(Clone, Copy, Drop)]
struct Packet {
    generation: u64,
    from: u16,
    to: u16,
    at: u16,
    walked: u64,
    hops: u16,
    there: bool,
}

impl Packet {
    // Whether a hop may be answered so: a packet at its destination is delivered; any other one goes to a neighbour in the graph of
    // its own generation, by that neighbour's port, on a walk with at most as many edges as there are other nodes, and at
    // most three times as long as the shortest. It goes on as if it was.
    fn goes(&mut self, rt: &impl Host, graph: &PlainGraph, reply: Reply) -> bool {
        if self.at == self.to {
            self.there = false;
            return reply == Reply::Delivered;
        }
        let Reply::Forwarded { port, next } = reply else {
            return false;
        };
        let behind = got(rt, graph.port(rt.alloc(), self.at, next));
        let weight = graph.weight(self.at, next).unwrap_or(0);
        self.at = next;
        self.walked = self.walked.saturating_add(weight as u64);
        self.hops = self.hops.saturating_add(1);
        let shortest = graph.distance(self.from, self.to).unwrap_or(0);
        let is_short = self.walked <= shortest.saturating_mul(3);
        behind == Some(port) && self.hops < graph.nodes && is_short
    }
}

// All that is held, in plain lists. Nothing is ever taken out of one. A posting is known by its number, counted from 0.
#[derive(Drop)]
pub(super) struct SlowMachine {
    // The last tickets of before.
    starts: [u64; 64],
    // What the store has, and what it would have with the group in whose commit the device failed.
    pub(super) state: State,
    pub(super) lost: Option<State>,
    // The accepted requests, those of that group behind the others.
    pub(super) accepted: Vec<(u8, u64)>,
    capacity: usize,
    // Which call of the device fails or stops, and how many calls there were.
    plan: Plan,
    calls: u64,
    down: bool,
    // How many postings each session has seen, and the last ticket that it submitted.
    seats: Vec<(usize, Option<u64>)>,
    // The requests that were let in, and how many of them are taken and done.
    asked: Vec<Request>,
    taken: usize,
    done: usize,
    // The marks that are to be posted; how many postings there were; and what was told to all in which of them.
    due: Option<Vec<Mark>>,
    pub(super) postings: usize,
    pub(super) told: Vec<(usize, Mark)>,
    told_down: Option<usize>,
    shelf: Vec<(usize, u64, PlainGraph)>,
    // How many the forwarder has seen.
    seen: usize,
    packets: Vec<Packet>,
}

impl SlowMachine {
    // A machine over this state, of whose device a call may fail or stop.
    pub(super) fn new(rt: &impl Host, state: State, seats: (usize, usize), plan: Plan) -> Self {
        let (sessions, capacity) = seats;
        SlowMachine {
            starts: state.tickets,
            state,
            lost: None,
            accepted: Vec::new(rt.alloc()),
            capacity,
            plan,
            calls: 0,
            down: false,
            seats: got(rt, vec![in rt.alloc(); (0, None); sessions]),
            asked: Vec::new(rt.alloc()),
            taken: 0,
            done: 0,
            due: None,
            postings: 0,
            told: Vec::new(rt.alloc()),
            told_down: None,
            shelf: Vec::new(rt.alloc()),
            seen: 0,
            packets: Vec::new(rt.alloc()),
        }
    }

    // Whether the event may be answered so. It goes on as if it was.
    pub(super) fn judges(&mut self, rt: &impl Host, event: &Event, reply: Reply) -> bool {
        let want = match event {
            Event::Submit {
                session,
                ticket,
                change,
            } => self.submit(rt, *session, *ticket, change.ops()),
            Event::Look { session, at } => self.look(*session, *at),
            Event::Take => self.take(),
            Event::Commit => self.commit(rt),
            Event::Post => self.post(rt),
            Event::Rebuild { words: _ } => self.rebuild(rt),
            Event::Launch { from, to, at } => self.launch(rt, *from, *to, *at),
            Event::Hop { packet, at } => return self.hop(rt, *packet, *at, reply),
        };
        reply == want
    }

    // How many postings one has seen that had seen some and now looks at so many.
    fn further(&self, seen: usize, at: usize) -> usize {
        at.min(self.postings).max(seen)
    }

    // What became of a session's last ticket, as it sees it in the first postings.
    fn outcome(&self, session: u8, seen: usize, last: Option<u64>) -> Outcome {
        let Some(ticket) = last else {
            return Outcome::Nothing;
        };
        for (posting, mark) in &self.told {
            if *posting < seen && mark.session == session && mark.ticket == ticket {
                return match mark.verdict {
                    Verdict::Accepted { count } => Outcome::Accepted { ticket, count },
                    Verdict::Refused { op, code } => Outcome::Refused { ticket, op, code },
                };
            }
        }
        match self.told_down {
            Some(posting) if posting < seen => Outcome::Down,
            _ => Outcome::Waiting,
        }
    }

    fn submit(&mut self, rt: &impl Host, session: u8, ticket: u64, ops: &[Op]) -> Reply {
        let place = session as usize;
        let Some((seen, last)) = self.seats.get(place).copied() else {
            return Reply::NoActor;
        };
        let mut accepted = self.starts.get(place).copied().unwrap_or(0);
        for (posting, mark) in &self.told {
            if *posting < seen && mark.session == session && is_accepted(mark) {
                accepted = mark.ticket;
            }
        }
        let waiting = self.asked.len().saturating_sub(self.taken);
        let refused = match self.outcome(session, seen, last) {
            Outcome::Waiting | Outcome::Down => SubmitRefused::Busy,
            _ if ticket <= accepted => SubmitRefused::AlreadyIn,
            _ if ticket <= last.unwrap_or(0) => SubmitRefused::OldTicket,
            _ if ticket > 9_223_372_036_854_775_807 => SubmitRefused::Worn,
            _ if waiting >= self.capacity => SubmitRefused::QueueFull,
            _ => {
                let ops = got(rt, Vec::from_slice(rt.alloc(), ops));
                got(rt, self.asked.push((session, ticket, ops)));
                self.seat(session, (seen, Some(ticket)));
                return Reply::Submitted { ticket };
            }
        };
        Reply::NotSubmitted(refused)
    }

    // What a session has seen and submitted from now on.
    fn seat(&mut self, session: u8, seat: (usize, Option<u64>)) {
        if let Some(there) = self.seats.get_mut(session as usize) {
            *there = seat;
        }
    }

    fn look(&mut self, session: u8, at: usize) -> Reply {
        let Some((seen, last)) = self.seats.get(session as usize).copied() else {
            return Reply::NoActor;
        };
        let seen = self.further(seen, at);
        self.seat(session, (seen, last));
        Reply::Looked(self.outcome(session, seen, last))
    }

    fn take(&mut self) -> Reply {
        if self.due.is_some() || self.taken.saturating_sub(self.done) >= 64 {
            return Reply::Idle;
        }
        let taken = self.taken;
        self.taken = taken.saturating_add(1).min(self.asked.len());
        match self.asked.get(taken) {
            Some(asked) => Reply::Taken {
                session: asked.0,
                ticket: asked.1,
            },
            None => Reply::Idle,
        }
    }

    fn commit(&mut self, rt: &impl Host) -> Reply {
        if self.done >= self.taken {
            return Reply::Idle;
        }
        if self.down {
            return Reply::NotCommitted(DeskRefused::Down);
        }
        let before = self.accepted.len();
        let (next, marks) = self.judged(rt);
        let accepted = self.accepted.len().saturating_sub(before);
        if accepted > 0 && self.writes() {
            self.down = true;
            self.lost = Some(next);
            self.due = Some(Vec::new(rt.alloc()));
            return Reply::NotCommitted(DeskRefused::Device);
        }
        self.state = next;
        self.done = self.taken;
        self.due = Some(marks);
        Reply::Committed { accepted }
    }

    // What the store has behind the group that is taken, and the group's marks. Those that are accepted are noted.
    fn judged(&mut self, rt: &impl Host) -> (State, Vec<Mark>) {
        let mut next = self.state.copy(rt);
        let mut marks = Vec::new(rt.alloc());
        for asked in self.asked.iter().take(self.taken).skip(self.done) {
            let mark = Mark {
                session: asked.0,
                ticket: asked.1,
                verdict: next.judge(rt, asked),
            };
            if is_accepted(&mark) {
                got(rt, self.accepted.push((asked.0, asked.1)));
            }
            got(rt, marks.push(mark));
        }
        (next, marks)
    }

    // The four calls of a commit. Whether one of them fails.
    fn writes(&mut self) -> bool {
        let before = self.calls;
        self.calls = before.saturating_add(4);
        match self.plan {
            Plan::None => false,
            Plan::Fail(call) | Plan::Stop(call, _) => before < call && call <= self.calls,
        }
    }

    fn post(&mut self, rt: &impl Host) -> Reply {
        let Some(marks) = self.due.take() else {
            return Reply::Idle;
        };
        for mark in marks {
            got(rt, self.told.push((self.postings, mark)));
        }
        if self.down {
            self.told_down = Some(self.postings);
        }
        self.postings = self.postings.saturating_add(1);
        Reply::Posted
    }

    pub(super) fn rebuild(&mut self, rt: &impl Host) -> Reply {
        if self.down {
            return Reply::NotRebuilt;
        }
        self.post(rt);
        let generation = self.state.count;
        let newest = self.shelf.last().map(|(_, number, _)| *number);
        if newest != Some(generation) {
            let graph = PlainGraph::new(rt.alloc(), self.state.nodes, &self.state.edges);
            let shown = (self.postings, generation, got(rt, graph));
            got(rt, self.shelf.push(shown));
            self.postings = self.postings.saturating_add(1);
        }
        Reply::Rebuilt { generation }
    }

    // Of the postings that the forwarder has seen, the generation of this number, the newest one where none is asked for; where it is one of
    // the newest four.
    fn shelved(&self, asked: Option<u64>) -> Option<(u64, &PlainGraph)> {
        let mut later = 0u8;
        for (posting, number, graph) in self.shelf.iter().rev() {
            if *posting < self.seen && later < 4 {
                if asked.is_none() || asked == Some(*number) {
                    return Some((*number, graph));
                }
                later += 1;
            }
        }
        None
    }

    fn launch(&mut self, rt: &impl Host, from: u16, to: u16, at: usize) -> Reply {
        self.seen = self.further(self.seen, at);
        let Some((generation, graph)) = self.shelved(None) else {
            return Reply::NotRouted(RouteRefused::GenerationGone);
        };
        if from >= graph.nodes || to >= graph.nodes {
            return Reply::NotRouted(RouteRefused::NoNode);
        }
        if graph.distance(from, to).is_none() {
            return Reply::NotRouted(RouteRefused::Unreachable);
        }
        let sent = Packet {
            generation,
            from,
            to,
            at: from,
            walked: 0,
            hops: 0,
            there: true,
        };
        let packet = self.packets.len();
        got(rt, self.packets.push(sent));
        Reply::Launched { packet }
    }

    // Whether a hop of a packet may be answered so.
    fn hop(&mut self, rt: &impl Host, number: usize, at: usize, reply: Reply) -> bool {
        let Some(mut packet) = self.packets.get(number).copied() else {
            return reply == Reply::NoActor;
        };
        if !packet.there {
            return reply == Reply::NoActor;
        }
        self.seen = self.further(self.seen, at);
        let Some((_, graph)) = self.shelved(Some(packet.generation)) else {
            return reply == Reply::NotRouted(RouteRefused::GenerationGone);
        };
        let good = packet.goes(rt, graph, reply);
        if let Some(there) = self.packets.get_mut(number) {
            *there = packet;
        }
        good
    }
}
