// Lines of 64 sessions at once, judged by a plain network. Each session has three edges of its own, from its node to those of 64, 65 and 66: in its plain
// network they lead from node 0 to nodes 1, 2 and 3.
use crate::helpers::{fresh, got, plain_live, reopened, same, see_answers, text_of, there};
use crate::plain::{PlainAnswer, PlainOp, PlainSession, below, drawn_ops, put_op};
use live_service::Served;
use rand_core::SeedableRng;
use rand_xoshiro::Xoshiro256PlusPlus;
use std::process::Abort;
use std::sync::Wait;
use std::thread::Threads;

/// An input, the answers to its lines, in which a count is `?`, and the sessions.
#[derive(Drop)]
struct Drawn {
    input: String,
    answers: String,
    sessions: Vec<PlainSession>,
}

// Mostly none, so that it is the next one, else one that is up to three behind the last or ahead of it.
fn drawn_ticket(generator: &mut Xoshiro256PlusPlus, last: u64) -> Option<u64> {
    if below(generator, 4) > 0 {
        return None;
    }
    let ticket = last.wrapping_add(below(generator, 7)).saturating_sub(3);
    Some(ticket).filter(|ticket| *ticket > 0)
}

// Puts an op of a session, by the nodes of its edges; where it sets a weight, with the other end first.
fn put_named(rt: &impl Abort, text: &mut String, session: u64, op: &PlainOp) {
    let end = op.b.wrapping_add(63);
    let (a, b) = if op.kind == 1 {
        (end, session)
    } else {
        (session, end)
    };
    put_op(rt, text, &PlainOp { a, b, ..*op });
}

impl Drawn {
    fn add_edit(&mut self, rt: &impl Abort, generator: &mut Xoshiro256PlusPlus, session: u64) {
        let mut ops = drawn_ops(generator, (1, 3, 9));
        for op in &mut ops {
            op.b = op.b.wrapping_add(1);
        }
        let plain = there(rt, self.sessions.get_mut(session as usize));
        let drawn = drawn_ticket(generator, plain.last);
        let ticket = drawn.unwrap_or(plain.last.wrapping_add(1));
        let answer = plain.edit(ticket, &ops);
        match drawn {
            Some(ticket) => got(rt, write!(self.input, "edit {session} {ticket}")),
            None => got(rt, write!(self.input, "edit {session} -")),
        }
        for op in &ops {
            put_named(rt, &mut self.input, session, op);
        }
        got(rt, self.input.push('\n'));
        let text = &mut self.answers;
        got(rt, write!(text, "{session} {ticket} "));
        match answer {
            PlainAnswer::Accepted => got(rt, writeln!(text, "accepted count=?")),
            PlainAnswer::Refused((op, code)) => {
                got(rt, writeln!(text, "refused op={op} code={code}"))
            }
            PlainAnswer::AlreadyIn => got(rt, writeln!(text, "already in")),
            PlainAnswer::OldTicket => got(rt, writeln!(text, "old ticket")),
        }
    }

    fn add_resume(&mut self, rt: &impl Abort, session: u64) {
        let ticket = there(rt, self.sessions.get(session as usize)).accepted;
        got(rt, writeln!(self.input, "resume {session}"));
        let put = writeln!(self.answers, "session={session} ticket={ticket}");
        got(rt, put);
    }

    // One line of the others, whose answers don't hang on what was accepted.
    fn add_other(&mut self, rt: &impl Abort, kind: u64) {
        let (line, answer) = match kind {
            0 => ("route 67 0\n", "no node\n"),
            1 => ("hop 0 0000\n", "bad length\n"),
            2 => ("address 67\n", "no node\n"),
            _ => ("edit 64 - add:0:1:1\n", "no session\n"),
        };
        got(rt, self.input.push_str(line));
        got(rt, self.answers.push_str(answer));
    }
}

/// So many lines.
fn drawn_lines<R: AllocGlobal + Abort>(rt: &R, seed: u64, lines: u64) -> Drawn {
    let mut generator = Xoshiro256PlusPlus::seed_from_u64(seed);
    let mut drawn = Drawn {
        input: String::new(rt.alloc()),
        answers: String::new(rt.alloc()),
        sessions: got(rt, vec![in rt.alloc(); PlainSession::new(); 64]),
    };
    for _ in 0..lines {
        let session = below(&mut generator, 64);
        match below(&mut generator, 12) {
            0 => drawn.add_resume(rt, session),
            1 | 2 => drawn.add_other(rt, session / 16),
            _ => drawn.add_edit(rt, &mut generator, session),
        }
    }
    drawn
}

// Runs so many lines, and sees each answer, and that the device has just what is accepted of each session.
fn judged<R: AllocGlobal + Abort + Threads + Wait + Sync>(
    rt: &R,
    numbers: (u8, u8, u8),
    words: &'static str,
    seed: u64,
    lines: u64,
) {
    let setup = (words, numbers, if lines < 1_000 { 1 } else { 16 });
    let drawn = drawn_lines(rt, seed, lines);
    let mut out = Vec::new(rt.alloc());
    let input = drawn.input.as_str();
    let (served, disk, told) = plain_live(rt, fresh(rt, 67), &setup, input, &mut out);
    let end = (served, text_of(rt, &told));
    same(rt, end, (Served::Printed, ""), "the end");
    let accepted = see_answers(rt, rt.alloc(), text_of(rt, &out), drawn.answers.as_str());
    same(rt, accepted > lines / 20, true, "accepted changes");
    let store = reopened(rt, disk);
    same(rt, store.count(), accepted, "count");
    let (mut edges, mut session) = (0usize, 0u8);
    for plain in &drawn.sessions {
        assert!(rt; session < 64);
        same(rt, store.resume(session), plain.accepted, "ticket");
        for end in 1..4u16 {
            let weight = store.graph().weight(session as u16, end.wrapping_add(63));
            let found = weight.unwrap_or(0) as u64;
            same(rt, found, plain.graph.weight(0, end as u64), "weight");
            edges = edges.wrapping_add(if found > 0 { 1 } else { 0 });
        }
        session = session.wrapping_add(1);
    }
    same(rt, store.graph().edges(), edges, "edges");
}

/// Three times with ample places, and once at one place.
#[test]
fn sixty_four_sessions(rt: HostRuntime) {
    for seed in 1..4u64 {
        judged(&rt, (64, 3, 64), "draw:5", seed, 1_600);
    }
    judged(&rt, (64, 1, 1), "none", 4, 400);
}
