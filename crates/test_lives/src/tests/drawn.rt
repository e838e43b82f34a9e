// Drawn lives, judged by the slow machine; and the same as the text of a rehearsal.
use super::runs::judged;
use super::slow_machine::is_accepted;
use super::*;

const NODES: u16 = 4;

// A life of forty events.
fn drawn_life(rt: &impl Host, drawer: &mut Drawer) -> Life {
    let events = drawer.events(rt, 40);
    let call = 1 + drawer.below(12) as u64;
    let plan = match drawer.below(4) {
        0 => Plan::Fail(call),
        1 => Plan::Stop(call, drawer.below(60) as usize),
        _ => Plan::None,
    };
    let word = match drawer.below(6) {
        0 => 0,
        1 => 1,
        2 => 256,
        3 | 4 => 257,
        _ => drawer.below(60_000) as u64,
    };
    Life {
        sessions: 3,
        capacity: 2,
        words: Vec::new(rt.alloc()),
        events,
        plan,
        word,
    }
}

// Writes an event's line.
fn put_event(text: &mut String, event: &Event) -> Result<(), AllocError> {
    match event {
        Event::Submit {
            session,
            ticket,
            change,
        } => {
            write!(text, "submit {session} {ticket}")?;
            for op in change.ops() {
                match *op {
                    Op::Add(a, b, weight) => write!(text, " add:{a}:{b}:{weight}")?,
                    Op::Set(a, b, weight) => write!(text, " set:{a}:{b}:{weight}")?,
                    Op::Cut(a, b) => write!(text, " cut:{a}:{b}")?,
                }
            }
        }
        Event::Look { session, at } => write!(text, "look {session} {at}")?,
        Event::Take => write!(text, "take")?,
        Event::Commit => write!(text, "commit")?,
        Event::Post => write!(text, "post")?,
        Event::Rebuild { words } => {
            let mut before = "rebuild at:";
            for (node, word) in words.iter().enumerate() {
                if *word == 0 {
                    write!(text, "{before}{node}")?;
                    before = ",";
                }
            }
            if before != "," {
                write!(text, "rebuild none")?;
            }
        }
        Event::Launch { from, to, at } => write!(text, "launch {from} {to} {at}")?,
        Event::Hop { packet, at } => write!(text, "hop {packet} {at}")?,
    }
    writeln!(text, "")
}

// Writes the lines of a life without landmarks.
fn put_life(text: &mut String, life: &Life) -> Result<(), AllocError> {
    write!(text, "life sessions=3 places=2 words=none")?;
    match life.plan {
        Plan::None => {}
        Plan::Fail(call) => write!(text, " fail={call}")?,
        Plan::Stop(call, put) => write!(text, " stop={call}:{put}")?,
    }
    writeln!(text, " crash={}", life.word)?;
    for event in &life.events {
        put_event(text, event)?;
    }
    Ok(())
}

// Whether a life opened to this.
fn opened_to(life: &LifeReport, state: &State) -> bool {
    life.count == state.count && life.tickets == state.tickets && state.is(&life.graph)
}

// Sees that a ticket is in once.
fn is_in_once(rt: &impl Abort, joined: &[(u8, u64)], ticket: (u8, u64)) {
    let times = joined.iter().filter(|other| **other == ticket).count();
    same(rt, times, 1, "in once");
}

fn begun(rt: &impl Host, state: State, plan: Plan) -> SlowMachine {
    SlowMachine::new(rt, state, (3, 2), plan)
}

// Lives, one behind the other: the tickets that are in, and the machine beside the last of them.
#[derive(Drop)]
struct Chain {
    joined: Vec<(u8, u64)>,
    slow: SlowMachine,
    // Which kinds of replies came up; how often a life opened to what a crash left of a commit that failed.
    seen: Vec<String>,
    kept: u64,
}

impl Chain {
    // What a life opened to: what the one before has, or may have left.
    fn opened(&mut self, rt: &impl Host, life: &LifeReport) -> State {
        if opened_to(life, &self.slow.state) {
            return self.slow.state.copy(rt);
        }
        self.kept = self.kept.wrapping_add(1);
        match &self.slow.lost {
            Some(lost) if opened_to(life, lost) => lost.copy(rt),
            _ => panic!(rt; "what a crash left"),
        }
    }

    // Puts the tickets in that a crash has left, as many as the count rose. Each is in once, and so is each that was told as accepted.
    fn join(&mut self, rt: &impl Host, count: u64) {
        let kept = count.wrapping_sub(self.joined.len() as u64) as usize;
        let tickets = self.slow.accepted.get(..kept).ok_or("too many");
        got(rt, self.joined.extend_from_slice(got(rt, tickets)));
        for ticket in &self.joined {
            is_in_once(rt, &self.joined, *ticket);
        }
        for (_, mark) in &self.slow.told {
            if is_accepted(mark) {
                is_in_once(rt, &self.joined, (mark.session, mark.ticket));
            }
        }
    }

    // A new machine beside a life that was reported: each answer is the same.
    fn goes_on(&mut self, rt: &impl Host, life: &Life, lived: &LifeReport) {
        let opened = self.opened(rt, lived);
        self.join(rt, opened.count);
        self.slow = begun(rt, opened, life.plan);
        same(rt, lived.rebuilt, self.slow.rebuild(rt), "rebuilt");
        let (events, replies) = (&life.events, &lived.replies);
        judged(rt, &mut self.slow, events, replies, &mut self.seen);
    }

    // Three drawn lives and one that only opens, on a device of its own. Of each eighth list a call of the first opening may fail, and of no
    // other one. Each fourth list is a rehearsal too, and prints what was reported. Gives whether the first opening was refused.
    fn lives_as_drawn(&mut self, rt: &impl Host, list: u64) -> bool {
        let mut drawer = Drawer::new(list, NODES, 3, true);
        let mut asked = Vec::new(rt.alloc());
        for _ in 0..3u8 {
            got(rt, asked.push(drawn_life(rt, &mut drawer)));
        }
        got(rt, asked.extend(lives_in(rt, &[OPENING])));
        let mut disk = formatted(rt, NODES);
        let is_armed = list % 8 == 0;
        if is_armed {
            disk.fail_at(1 + list / 8 % 8);
        }
        let report = got(rt, lives(rt.alloc(), disk, &asked));
        if report.refused.is_some() {
            let refused = (report.refused, report.lives.len(), is_armed);
            same(rt, refused, (Some(OpenRefused::Device), 0, true), "refused");
            return true;
        }
        same(rt, report.lives.len(), 4, "lives");
        self.joined.clear();
        self.slow = begun(rt, State::first(rt, NODES), Plan::None);
        for (life, lived) in asked.iter().zip(report.lives.iter()) {
            self.goes_on(rt, life, lived);
        }
        if list % 4 == 1 {
            let mut text = got(rt, String::from_str(rt.alloc(), "device 4\n"));
            for life in asked.iter().take(3) {
                got(rt, put_life(&mut text, life));
            }
            let told = got(rt, rehearse(rt.alloc(), &asked_in(rt, text.as_str())));
            let want = got(rt, report_text(rt.alloc(), 3, &report));
            same(rt, told.as_str(), want.as_str(), "as a text");
        }
        false
    }
}

#[test]
fn drawn_lives(rt: HostRuntime) {
    let rt = &rt;
    let mut chain = Chain {
        joined: Vec::new(rt.alloc()),
        slow: begun(rt, State::first(rt, NODES), Plan::None),
        seen: Vec::new(rt.alloc()),
        kept: 0,
    };
    let mut refused = 0u64;
    for list in 0..200u64 {
        refused = refused.wrapping_add(chain.lives_as_drawn(rt, list) as u64);
    }
    for name in [
        "committed accepted",
        "not committed device",
        "refused already in",
    ] {
        let is_seen = chain.seen.iter().any(|other| other.as_str() == name);
        same(rt, is_seen, true, name);
    }
    same(rt, (chain.kept > 0, refused > 0), (true, true), "openings");
}
