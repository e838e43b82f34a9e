// Long scripts, whose lines are judged by a plain graph.
use crate::helpers::{fresh, got, plain_script, reopened, same, text_of, there};
use crate::plain::{Plain, PlainOp, below, drawn_ops, put_op};
use rand_core::SeedableRng;
use rand_xoshiro::Xoshiro256PlusPlus;
use std::process::Abort;
use std::sync::Wait;
use std::thread::Threads;

/// A line that was printed.
#[derive(Clone, Copy, PartialEq, Eq)]
enum Printed<'a> {
    /// The count.
    Accepted(u64),
    /// The op and the code.
    Refused(u64, u64),
    /// The generation, the nodes with a space between each two, and the length.
    Along(u64, &'a str, u64),
    /// The generation.
    Unreachable(u64),
    NoNode,
}

fn printed_in(text: &str) -> Option<Printed<'_>> {
    if text == "no node" {
        return Some(Printed::NoNode);
    }
    if let Some(count) = text.strip_prefix("accepted count=") {
        return Some(Printed::Accepted(count.parse().ok()?));
    }
    if let Some(rest) = text.strip_prefix("refused op=") {
        let (op, code) = rest.split_once(" code=")?;
        return Some(Printed::Refused(op.parse().ok()?, code.parse().ok()?));
    }
    let (generation, rest) = text.strip_prefix("generation=")?.split_once(' ')?;
    let generation = generation.parse().ok()?;
    if rest == "unreachable" {
        return Some(Printed::Unreachable(generation));
    }
    let (nodes, length) = rest.strip_prefix("route ")?.split_once(" length ")?;
    Some(Printed::Along(generation, nodes, length.parse().ok()?))
}

/// A line, and what was printed of it: a change of two ops of a session, or the route between the nodes of the first op.
#[derive(Clone, Copy)]
struct Line<'a> {
    session: u64,
    ops: [PlainOp; 2],
    is_route: bool,
    printed: Printed<'a>,
}

// A drawn script.
fn drawn_script<R: AllocGlobal + Abort>(rt: &R, seed: u64) -> (Vec<Line<'static>>, String) {
    let mut generator = Xoshiro256PlusPlus::seed_from_u64(seed);
    let (mut lines, mut text) = (Vec::new(rt.alloc()), String::new(rt.alloc()));
    for _ in 0..200u64 {
        let is_route = below(&mut generator, 4) == 0;
        let session = below(&mut generator, 3);
        let ops = drawn_ops(&mut generator, (9, 8, 6));
        if is_route {
            got(rt, write!(text, "route {} {}", ops[0].a, ops[0].b));
        } else {
            got(rt, write!(text, "{session}"));
            put_op(rt, &mut text, &ops[0]);
            put_op(rt, &mut text, &ops[1]);
        }
        got(rt, text.push('\n'));
        let line = Line {
            session,
            ops,
            is_route,
            printed: Printed::NoNode,
        };
        got(rt, lines.push(line));
    }
    (lines, text)
}

// The lines with what was printed of each. Each ends with a line feed.
fn read_lines<'a, R: AllocGlobal + Abort>(
    rt: &R,
    drawn: &[Line<'static>],
    printed: &'a str,
) -> Vec<Line<'a>> {
    let printed = there(rt, printed.strip_suffix('\n'));
    same(rt, printed.split('\n').count(), drawn.len(), "lines");
    let mut lines = Vec::new(rt.alloc());
    for (line, text) in drawn.iter().zip(printed.split('\n')) {
        let printed = there(rt, printed_in(text));
        got(rt, lines.push(Line { printed, ..*line }));
    }
    lines
}

// The graphs after the accepted changes, in the order of their counts, of which each stands in just one line.
fn graphs_of<R: AllocGlobal + Abort>(rt: &R, lines: &[Line<'_>]) -> Vec<Plain> {
    let mut graphs = Vec::new(rt.alloc());
    let mut graph = Plain([0; 64]);
    got(rt, graphs.push(graph));
    let changes = lines
        .iter()
        .filter(|line| matches!(line.printed, Printed::Accepted(_)));
    for count in 1..=changes.count() as u64 {
        let mut at = lines
            .iter()
            .filter(|line| line.printed == Printed::Accepted(count));
        let line = there(rt, at.next());
        same(rt, at.next().is_none(), true, "a count in one line");
        graph = got(rt, graph.after(&line.ops));
        got(rt, graphs.push(graph));
    }
    graphs
}

impl Line<'_> {
    // The first place from this one on among the accepted changes where the verdict is right.
    fn place_from(&self, graphs: &[Plain], at: usize) -> Option<usize> {
        match self.printed {
            Printed::Accepted(count) if count as usize > at => Some(count as usize),
            Printed::Refused(op, code) => {
                let want = (op, code);
                let refuses =
                    |graph: &Plain| matches!(graph.after(&self.ops), Err(why) if why == want);
                let more = graphs.iter().skip(at).position(refuses)?;
                Some(at.wrapping_add(more))
            }
            _ => None,
        }
    }

    // The generation of a route that is right: a way is at most three times as long as the shortest.
    fn generation(&self, graphs: &[Plain], last: u64) -> Option<u64> {
        let (from, to) = (self.ops[0].a, self.ops[0].b);
        match self.printed {
            Printed::NoNode if from >= 8 => Some(last),
            Printed::Along(generation, nodes, length) => {
                let graph = graphs.get(generation as usize)?;
                let way = graph.length(from, to, nodes)?;
                let most = graph.shortest(from, to)?.wrapping_mul(3);
                if way == length && way <= most {
                    Some(generation)
                } else {
                    None
                }
            }
            Printed::Unreachable(generation) if from < 8 => {
                let graph = graphs.get(generation as usize)?;
                match graph.shortest(from, to) {
                    Some(_) => None,
                    None => Some(generation),
                }
            }
            _ => None,
        }
    }
}

// The ticket of a session's last accepted change, which is how many changes it had submitted with that one; its verdicts are those of some
// places among the accepted changes, in the session's order.
fn last_ticket(rt: &impl Abort, lines: &[Line<'_>], graphs: &[Plain], session: u64) -> u64 {
    let (mut at, mut submitted, mut last) = (0usize, 0u64, 0);
    for line in lines {
        if !line.is_route && line.session == session {
            at = there(rt, line.place_from(graphs, at));
            submitted = submitted.wrapping_add(1);
            if matches!(line.printed, Printed::Accepted(_)) {
                last = submitted;
            }
        }
    }
    last
}

// Sees that the routes of both forwarders, which take turns, are right, and neither goes back to an older generation.
fn expect_routes(rt: &impl Abort, lines: &[Line<'_>], graphs: &[Plain]) {
    let (mut next, mut other) = (0, 0);
    for line in lines.iter().filter(|line| line.is_route) {
        let generation = there(rt, line.generation(graphs, next));
        same(rt, next <= generation, true, "a route's generation");
        next = other;
        other = generation;
    }
}

fn judged<R: AllocGlobal + Abort + Threads + Wait + Sync>(rt: &R, seed: u64) {
    let setup = ("draw:5", (3, 2, 2), 16);
    let (drawn, text) = drawn_script(rt, seed);
    let mut out = Vec::new(rt.alloc());
    let (status, disk, told) = plain_script(rt, fresh(rt, 8), &setup, text.as_str(), &mut out);
    same(rt, (status, text_of(rt, &told)), (0, ""), "the end");
    let lines = read_lines(rt, &drawn, text_of(rt, &out));
    let graphs = graphs_of(rt, &lines);
    let accepted = graphs.len().saturating_sub(1);
    same(rt, accepted > 10, true, "accepted changes");
    expect_routes(rt, &lines, &graphs);
    let store = reopened(rt, disk);
    same(rt, store.count(), accepted as u64, "count");
    let graph = there(rt, graphs.last());
    for a in 0..8u16 {
        for b in 0..8u16 {
            let weight = store.graph().weight(a, b).unwrap_or(0) as u64;
            let want = graph.weight(a as u64, b as u64);
            same(rt, (a, b, weight), (a, b, want), "weight");
        }
    }
    for session in 0..3u8 {
        let want = last_ticket(rt, &lines, &graphs, session as u64);
        same(rt, store.resume(session), want, "a session's ticket");
    }
}

#[test]
fn two_hundred_lines(rt: HostRuntime) {
    for seed in 1..4u64 {
        judged(&rt, seed);
    }
}
