// Drawn lists of a thousand events, judged by the slow machine.
use super::*;

// Draws words, and remembers what it needs to draw events that make sense.
#[derive(Drop)]
pub(super) struct Drawer {
    rng: Xoshiro256PlusPlus,
    nodes: u16,
    sessions: u16,
    // Each session's last drawn ticket.
    tickets: [u64; 4],
    launches: u16,
    // Whether landmark words are such as a text has.
    in_text: bool,
}

impl Drawer {
    pub(super) fn new(seed: u64, nodes: u16, sessions: u16, in_text: bool) -> Drawer {
        Drawer {
            rng: Xoshiro256PlusPlus::seed_from_u64(seed),
            nodes,
            sessions,
            tickets: [0; 4],
            launches: 0,
            in_text,
        }
    }

    pub(super) fn below(&mut self, limit: u16) -> u16 {
        let word = self.rng.next_u64();
        word.checked_rem(limit as u64).unwrap_or(0) as u16
    }

    // One of so many, and one time in so many the one behind the last.
    fn one_of(&mut self, count: u16, times: u16) -> u16 {
        let is_behind = self.below(times) == 0;
        self.below(count.saturating_add(is_behind as u16))
    }

    fn op(&mut self) -> Op {
        let (a, b) = (self.one_of(self.nodes, 16), self.one_of(self.nodes, 16));
        let weight = if self.below(16) == 0 {
            0
        } else {
            1 + self.below(9) as u32
        };
        match self.below(8) {
            0 => Op::Set(a, b, weight),
            1 => Op::Cut(a, b),
            _ => Op::Add(a, b, weight),
        }
    }

    // A ticket above the last drawn one, or one that may have been taken.
    fn ticket(&mut self, session: u8) -> u64 {
        let last = self.tickets.get(session as usize).copied().unwrap_or(0);
        let ticket = match self.below(10) {
            0 => return WORN_LIMIT + 1,
            1..=4 => return last.saturating_sub(self.below(4) as u64),
            5 => last.saturating_add(2),
            _ => last.saturating_add(1),
        };
        if let Some(place) = self.tickets.get_mut(session as usize) {
            *place = ticket;
        }
        ticket
    }

    fn submit(&mut self, rt: &impl Abort) -> Event {
        let session = (self.one_of(self.sessions, 8) % 256) as u8;
        let ops = [self.op(), self.op()];
        let count = if self.below(3) == 0 { 2 } else { 1 };
        Event::Submit {
            session,
            ticket: self.ticket(session),
            change: got(rt, Change::new(&ops[..count])),
        }
    }

    fn words(&mut self, rt: &impl Host) -> Vec<u64> {
        let mut words = Vec::new(rt.alloc());
        let count = if self.in_text {
            self.nodes
        } else {
            self.below(6)
        };
        for _ in 0..count {
            let word = self.rng.next_u64();
            let other = if self.in_text { u64::MAX } else { word };
            got(rt, words.push(if word % 3 == 0 { 0 } else { other }));
        }
        words
    }

    fn event(&mut self, rt: &impl Host) -> Event {
        let at = self.below(300) as usize;
        match self.below(24) {
            0..=4 => self.submit(rt),
            5..=7 => {
                let session = (self.one_of(self.sessions, 8) % 256) as u8;
                Event::Look { session, at }
            }
            8..=10 => Event::Take,
            11 | 12 => Event::Commit,
            13 | 14 => Event::Post,
            15 => {
                let words = self.words(rt);
                Event::Rebuild { words }
            }
            16 | 17 => {
                self.launches = self.launches.saturating_add(1);
                let (from, to) = (self.one_of(self.nodes, 16), self.one_of(self.nodes, 16));
                Event::Launch { from, to, at }
            }
            _ => {
                let about = self.launches / 2 + 5;
                let packet = about.saturating_sub(self.below(12)) as usize;
                Event::Hop { packet, at }
            }
        }
    }

    pub(super) fn events(&mut self, rt: &impl Host, number: u16) -> Vec<Event> {
        let mut events = Vec::new(rt.alloc());
        for _ in 0..number {
            got(rt, events.push(self.event(rt)));
        }
        events
    }
}

// Notes which kind of reply came up, by the front of its line.
fn note(rt: &impl Host, seen: &mut Vec<String>, reply: Reply) {
    let line = got(rt, format!(in rt.alloc(); "{}", ReplyLine { reply }));
    let name = line.as_str().split('=').next().unwrap_or("");
    if !seen.iter().any(|other| other.as_str() == name) {
        got(rt, seen.push(got(rt, String::from_str(rt.alloc(), name))));
    }
}

// Each reply is as the slow machine says.
pub(super) fn judged(
    rt: &impl Host,
    slow: &mut SlowMachine,
    events: &[Event],
    replies: &[Reply],
    seen: &mut Vec<String>,
) {
    same(rt, replies.len(), events.len(), "replies");
    for (place, (event, reply)) in events.iter().zip(replies.iter()).enumerate() {
        let good = slow.judges(rt, event, *reply);
        same(rt, (place, *reply, good), (place, *reply, true), "a reply");
        note(rt, seen, *reply);
    }
}

// Draws a list of a thousand events, and runs it in a world and by the slow machine. Of each fourth list a call of the device fails.
fn one_list(rt: &impl Host, rng: &mut Xoshiro256PlusPlus, seen: &mut Vec<String>, list: u64) {
    let nodes = (1 + rng.next_u64() % 5) as u16;
    let sessions = (1 + rng.next_u64() % 3) as u16;
    let capacity = (1 + rng.next_u64() % 3) as usize;
    let call = 1 + rng.next_u64() % 24;
    let plan = if list % 4 == 1 {
        Plan::Fail(call)
    } else {
        Plan::None
    };
    let events = Drawer::new(rng.next_u64(), nodes, sessions, false).events(rt, 1000);
    let seats = (sessions as usize, capacity);
    let mut slow = SlowMachine::new(rt, State::first(rt, nodes), seats, plan);
    let mut world = world_of(rt, nodes, 0, seats);
    world.arm(plan);
    let replies = got(rt, world.run(rt.alloc(), &events));
    judged(rt, &mut slow, &events, &replies, seen);
    // what is stored in the end is as the slow machine has it
    let (stored, desk) = world.into_parts();
    let store = desk.store();
    let found = (stored.postings.len(), store.count());
    same(rt, found, (slow.postings, slow.state.count), "the end");
    assert!(rt; slow.state.is(store.graph()), "the graph");
}

#[test]
fn as_the_slow_machine_says(rt: HostRuntime) {
    let rt = &rt;
    let mut rng = Xoshiro256PlusPlus::seed_from_u64(27);
    let mut seen = Vec::new(rt.alloc());
    for list in 0..8u64 {
        one_list(rt, &mut rng, &mut seen, list);
    }
    same(rt, seen.len(), 26, "each kind comes up");
}
