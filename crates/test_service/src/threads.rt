// The fewest and the most threads; and a line `metrics` behind edits, by a clock.
use crate::helpers::{got, same, see_answers, text_of, there};
use crate::stage::{Hold, Moment, Play, Sign};
use std::process::Abort;
use std::sync::Wait;
use std::thread::Threads;

// Runs a script of so many nodes, and sees its lines, so many of which have a count.
fn expect_lines<R: AllocGlobal + Abort + Threads + Wait + Sync>(
    rt: &R,
    nodes: u16,
    numbers: (u8, u8, u8),
    holds: &[Hold],
    script: (&str, &str),
    want: u64,
) {
    let play = Play {
        nodes,
        setup: ("at:0", numbers, 16),
        text: script.0,
        holds,
        turns: 1_000_000,
    };
    let played = play.script(rt);
    same(rt, played.signs.is_late(), false, "one that waits");
    let printed = text_of(rt, &played.printed);
    let found = see_answers(rt, rt.alloc(), printed, script.1);
    same(rt, found, want, "counts");
    let store = &played.store;
    let found = (store.count(), store.graph().edges() as u64, store.resume(0));
    same(rt, found, (want, want, want.min(1)), "what is left");
}

// One and sixty-four editors, forwarders and places.
const FEWEST_AND_MOST: [(u8, u8, u8); 4] = [(1, 1, 64), (1, 64, 1), (64, 1, 1), (64, 64, 64)];

// A change of each session, and a route from its node to itself.
#[test]
fn fewest_and_most_threads(rt: HostRuntime) {
    let rt = &rt;
    for numbers in &FEWEST_AND_MOST {
        let (mut text, mut wanted) = (String::new(rt.alloc()), String::new(rt.alloc()));
        for session in 0..numbers.0 {
            let next = session as u16 + 1;
            got(rt, writeln!(text, "{session} add:{session}:{next}:1"));
            got(rt, writeln!(text, "route {session} {session}"));
            got(rt, writeln!(wanted, "accepted count=?"));
            got(
                rt,
                writeln!(wanted, "generation=* route {session} length 0"),
            );
        }
        let script = (text.as_str(), wanted.as_str());
        expect_lines(rt, 65, *numbers, &[], script, numbers.0 as u64);
    }
}

// Each launch is held until all routes are launched: each then has a forwarder of its own.
#[test]
fn sixty_four_editors_and_forwarders(rt: HostRuntime) {
    let rt = &rt;
    let (mut text, mut wanted) = (String::new(rt.alloc()), String::new(rt.alloc()));
    for node in 0..64u64 {
        got(rt, writeln!(text, "route {node} {node}"));
        got(rt, writeln!(wanted, "generation=* route {node} length 0"));
    }
    let script = (text.as_str(), wanted.as_str());
    let holds = &[(Moment::Launch, Sign::Launches, 64)];
    expect_lines(rt, 64, (64, 64, 64), holds, script, 0);
}

// The number under a key.
fn number(rt: &impl Abort, line: &str, key: &str) -> u64 {
    let (_, rest) = there(rt, line.split_once(key));
    let (number, _) = there(rt, rest.split_once(","));
    got(rt, number.parse())
}

// Behind two accepted edits there are one or two commits, each of some time, and so was the build that was waited for.
#[test]
fn times_of_commits(rt: HostRuntime) {
    let rt = &rt;
    let play = Play {
        nodes: 5,
        setup: ("none", (1, 1, 64), 1),
        text: "edit 0 - add:0:1:1\nedit 0 - set:0:1:2\nwait\nmetrics\n",
        holds: &[],
        turns: 0,
    };
    let played = play.live(rt);
    let line = there(rt, text_of(rt, &played.printed).split('\n').nth(3));
    let commits = number(rt, line, "\"commits\": ");
    let least = number(rt, line, "\"commit_least_us\": ");
    let median = number(rt, line, "\"commit_median_us\": ");
    let greatest = number(rt, line, "\"commit_greatest_us\": ");
    same(rt, 1 <= commits && commits <= 2, true, line);
    let rise = 0 < least && least <= median && median <= greatest;
    same(rt, rise, true, line);
    same(rt, 0 < number(rt, line, "\"build_us\": "), true, line);
}
