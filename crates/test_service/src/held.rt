// What goes on while a commit, a build or an input is held.
use crate::helpers::{got, same, see_answers, text_of};
use crate::stage::{Moment, Play, Sign};
use std::process::Abort;

// How long each waits for the other at most: in a script, and where all lines of an input may have to come first.
const TURNS: usize = 1_000_000;

const MANY_TURNS: usize = 4_000_000;

/// A script on a fresh device of so many nodes, the last sync that is held, the generation of the hop that it is held for, and the script's lines.
struct Row {
    nodes: u16,
    words: &'static str,
    last: (u64, u64),
    script: &'static str,
    printed: &'static str,
}

// The second commit's first sync is the fourth, the sixth commit's the twelfth. The newest generation then is that of the commit before. No packet
// starts before the second commit's sync, which waits for a hop in generation 1; and none goes on behind a hop before the last of these syncs.
// In the second row the first words of the seed make 0 and 1 landmarks of three nodes, the next 0 and 2, those behind them 1. Where 0 and 2
// are, the way from 2 to 1 is that of the tree of 0, in which the parent of 2 is 0; in the other two it goes over the edge between them. In the
// third row the packet makes its first hop in generation 1, and the next where the shelf holds 2 to 5: it starts anew.
const ROWS: [Row; 3] = [
    Row {
        nodes: 5,
        words: "at:0",
        last: (4, 1),
        script: "0 add:0:1:1\n0 set:0:1:2\nroute 0 1\n",
        printed: "accepted count=1\naccepted count=2\ngeneration=1 route 0 1 length 1\n",
    },
    Row {
        nodes: 3,
        words: "draw:7",
        last: (4, 1),
        script: "0 add:0:1:1 add:1:2:1 add:0:2:2\n0 set:0:1:1\nroute 2 1\n",
        printed: "accepted count=1\naccepted count=2\ngeneration=1 route 2 0 1 length 3\n",
    },
    Row {
        nodes: 5,
        words: "at:0",
        last: (12, 5),
        script: "0 add:0:1:1 add:1:2:1\n0 set:0:1:2\n0 set:0:1:3\n0 set:0:1:4\n0 set:0:1:5\n0 set:0:1:6\nroute 0 2\n",
        printed: "accepted count=1\naccepted count=2\naccepted count=3\naccepted count=4\naccepted count=5\naccepted count=6\ngeneration=5 route 0 1 2 length 6\n",
    },
];

// No turns run out, and each script has its lines.
#[test]
fn routes_while_a_commit_is_held(rt: HostRuntime) {
    let rt = &rt;
    for row in &ROWS {
        let play = Play {
            nodes: row.nodes,
            setup: (row.words, (2, 2, 64), 16),
            text: row.script,
            holds: &[
                (Moment::Launch, Sign::Syncs, 4),
                (Moment::Hop, Sign::Syncs, row.last.0),
                (Moment::Sync(4), Sign::Newest, 1),
                (Moment::Sync(row.last.0), Sign::Newest, row.last.1),
            ],
            turns: TURNS,
        };
        let played = play.script(rt);
        let found = (played.signs.is_late(), text_of(rt, &played.printed));
        same(
            rt,
            found,
            (false, row.printed),
            "whether turns ran out, and the lines",
        );
    }
}

/// A line behind a held edit and its answer, how often it is given, and how many hops and lines come before the edit is let go.
type Behind = (&'static str, &'static str, u64, u64, u64);

// `wait` comes first, and the edit once that is answered. A packet from a node to itself makes one hop, in the generation before the edit. The edit
// and 1,023 lines behind it stand in the window: the reader isn't asked for more.
const BEHIND: [Behind; 4] = [
    (
        "route 3 3\n",
        "generation=0 route 3 length 0\n",
        100,
        100,
        102,
    ),
    (
        "hop 3 00000000000000000003000300000000000000000000000000000000000000000000000000000000\n",
        "bad length\n",
        100,
        0,
        102,
    ),
    (
        "route 3 3\n",
        "generation=0 route 3 length 0\n",
        1_023,
        1_023,
        1_025,
    ),
    ("?\n", "not understood\n", 5_000, 0, 1_025),
];

// The answer before the edit.
const FIRST: &str = "generation=0\n";

// Of the answers just the first came before the edit's.
#[test]
fn lines_behind_a_held_commit(rt: HostRuntime) {
    let rt = &rt;
    for (line, answer, times, hops, given) in &BEHIND {
        let mut text = got(
            rt,
            String::from_str(rt.alloc(), "wait\nedit 0 - add:0:1:1\n"),
        );
        let mut wanted = got(rt, String::from_str(rt.alloc(), FIRST));
        got(rt, wanted.push_str("0 1 accepted count=1\n"));
        for _ in 0..*times {
            got(rt, text.push_str(line));
            got(rt, wanted.push_str(answer));
        }
        let play = Play {
            nodes: 5,
            setup: ("at:0", (2, 3, 4), 16),
            text: text.as_str(),
            holds: &[
                (Moment::Line(1), Sign::Printed, 1),
                (Moment::Sync(2), Sign::Hops, *hops),
                (Moment::Sync(2), Sign::Given, *given),
            ],
            turns: MANY_TURNS,
        };
        let played = play.live(rt);
        same(rt, text_of(rt, &played.printed), wanted.as_str(), "answers");
        let want = (*given, FIRST.len() as u64);
        same(rt, played.signs.then(), want, "lines behind a held commit");
    }
}

// So many edits of each of these sessions, in turn: the first adds an edge between a node and another one, and each other one sets its weight. The
// node is the session's number and so many more.
fn edits<R: AllocGlobal + Abort>(
    rt: &R,
    turns: u64,
    sessions: (u64, u64),
    more: u64,
    end: u64,
) -> (String, String) {
    let (mut text, mut wanted) = (String::new(rt.alloc()), String::new(rt.alloc()));
    for turn in 1..turns.saturating_add(1) {
        for session in sessions.0..sessions.1 {
            let op = if turn == 1 { "add" } else { "set" };
            let node = session.wrapping_add(more);
            got(
                rt,
                writeln!(text, "edit {session} - {op}:{node}:{end}:{turn}"),
            );
            got(rt, writeln!(wanted, "{session} {turn} accepted count=?"));
        }
    }
    (text, wanted)
}

// Ten edits of each of eight sessions, of which no byte is settled before the input has ended.
#[test]
fn edits_that_wait_at_the_end(rt: HostRuntime) {
    let rt = &rt;
    let (mut text, mut wanted) = edits(rt, 10, (0, 8), 0, 8);
    got(rt, text.push_str("wait\nroute 0 7\nresume 7"));
    let end = "generation=80\ngeneration=*\nsession=7 ticket=10\n";
    got(rt, wanted.push_str(end));
    let play = Play {
        nodes: 9,
        setup: ("at:0", (8, 2, 2), 16),
        text: text.as_str(),
        holds: &[(Moment::Sync(2), Sign::Ended, 1)],
        turns: MANY_TURNS,
    };
    let played = play.live(rt);
    let printed = text_of(rt, &played.printed);
    let accepted = see_answers(rt, rt.alloc(), printed, wanted.as_str());
    let graph = played.store.graph();
    let found = (accepted, played.store.count(), graph.edges());
    same(rt, found, (80, 80, 8), "what is left");
    for session in 0..8u8 {
        let found = (
            played.store.resume(session),
            graph.weight(session as u16, 8),
        );
        same(rt, found, (10, Some(10)), "a session");
    }
}

// A hundred edits of each of 24 sessions, all at once: each session has an edge of its own. The first build is held until all edits and the line behind
// them are answered. So no edit waits for it. A route behind them waits, and `wait` tells the generation that has all of them.
#[test]
fn edits_before_the_first_generation(rt: HostRuntime) {
    let rt = &rt;
    let (mut text, mut wanted) = edits(rt, 100, (1, 25), 5, 40);
    got(rt, text.push_str("?\nroute 2 2\nwait\nstate\n"));
    let end =
        "not understood\ngeneration=* route 2 length 0\ngeneration=2400\ncount=2400 generation=2400 queue=0\n";
    got(rt, wanted.push_str(end));
    let play = Play {
        nodes: 1_000,
        setup: ("at:2", (25, 2, 64), 1),
        text: text.as_str(),
        holds: &[(Moment::Build, Sign::Printed, 2_400)],
        turns: MANY_TURNS,
    };
    let played = play.live(rt);
    let printed = text_of(rt, &played.printed);
    let accepted = see_answers(rt, rt.alloc(), printed, wanted.as_str());
    same(rt, accepted, 2_400, "accepted edits");
}
