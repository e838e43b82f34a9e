// Lines of a live service, as they are read, and their answers, as they are written: names of any folder, lines with a line feed in them, no
// editor, and numbers that no small device gives. Others are in conformance/live.txt, live_lines.txt, live_waits.txt and live_packets.txt.
// Bytes in hex are written by hand from docs/FORMATS.md.
//
// Each test is run with each allocation refused in turn too (`./refuse-memory`): a line that is refused memory is read when it is read again,
// and so is an answer's text. What a test allocates is asked for again where it is refused.
use crate::seats::got;
use arrayvec::ArrayVec;
use generations::{Mark, Verdict};
use graph_edits::{Change, Code, Op};
use heavy_labels::{Label, MOST_LIGHTS};
use live_lines::{Answer, Asked, asked_in};
use packet_ways::Carried;
use schemes::{Address, Home, Move, Packet};
use std::alloc::Global;
use std::process::Abort;

/// What a line asks for, where there are so many editors.
fn asked(rt: &impl Abort, alloc: Global, line: &str, editors: u8) -> Asked {
    match asked_in(alloc, line.as_bytes(), editors) {
        Ok(asked) => asked,
        Err(_) => got(rt, asked_in(alloc, line.as_bytes(), editors)),
    }
}

/// Sees that a line asks for this.
fn expect_asked(rt: &impl Abort, alloc: Global, line: &str, editors: u8, want: Asked) {
    assert!(rt; asked(rt, alloc, line, editors) == want, "{line}");
}

/// Sees that an answer is printed so.
fn expect_text(rt: &impl Abort, alloc: Global, answer: Answer, want: &str) {
    let text = match answer.text(alloc) {
        Ok(text) => text,
        Err(_) => got(rt, answer.text(alloc)),
    };
    assert!(rt; text.as_str() == want, "{want}");
}

/// Names of folders, as they are written.
const FOLDERS: [&str; 6] = [
    "tables out",
    "tables /var/tables/new",
    "tables ..",
    "tables -",
    "tables täglich",
    "tables 0123:\"'\\*",
];

#[test]
fn reads_names(rt: HostRuntime) {
    let (alloc, rt) = (rt.alloc(), &rt);
    for line in &FOLDERS {
        let fine = match asked(rt, alloc, line, 1) {
            Asked::Tables { folder } => line.strip_prefix("tables ") == Some(folder.as_str()),
            _ => false,
        };
        assert!(rt; fine, "{line}");
    }
    let fine = match asked(rt, alloc, "backup out/b", 1) {
        Asked::Backup { file } => file.as_str() == "out/b",
        _ => false,
    };
    assert!(rt; fine, "a backup");
}

/// A label of number 4 behind the light port 1.
fn label() -> Label {
    let mut lights: ArrayVec<u16, MOST_LIGHTS> = ArrayVec::new();
    lights.push(1);
    Label::new(4, lights)
}

/// In generation 7 a packet to node 4 in the tree of 2, with three hops left.
fn packet() -> Packet {
    Packet {
        generation: 7,
        destination: 4,
        root: 2,
        label: label(),
        hops_left: 3,
    }
}

#[test]
fn reads_lines(rt: HostRuntime) {
    let (alloc, rt) = (rt.alloc(), &rt);
    let change = got(rt, Change::new(&[Op::Add(0, 1, 7), Op::Cut(3, 4)]));
    let edit = Asked::Edit {
        session: 1,
        ticket: Some(20),
        change,
    };
    expect_asked(rt, alloc, "edit 1 20 add:0:1:7 cut:3:4", 2, edit);
    let (at, packet) = (3, packet());
    let hop =
        "hop 3 00000000000000070004000200040003010001000000000000000000000000000000000000000000000000";
    expect_asked(rt, alloc, hop, 1, Asked::Hop { at, packet });
    expect_asked(rt, alloc, "state\n", 2, Asked::NotUnderstood);
    expect_asked(rt, alloc, "tables out\n", 2, Asked::NotUnderstood);
    expect_asked(rt, alloc, "edit 0 - cut:0:1\n", 2, Asked::NotOps);
    expect_asked(rt, alloc, "resume 0", 0, Asked::NoSession);
}

/// In generation 7 the address of node 4, whose landmark is 2.
fn address() -> Answer {
    let (landmark, label) = (2, label());
    Answer::Told(Address {
        generation: 7,
        node: 4,
        home: Some(Home { landmark, label }),
    })
}

/// A way over node 0, node 2 and the last one.
fn way(rt: &impl Abort, alloc: Global) -> Answer {
    let nodes = match Vec::from_slice(alloc, &[0, 2, 65_535]) {
        Ok(nodes) => nodes,
        Err(_) => got(rt, Vec::from_slice(alloc, &[0, 2, 65_535])),
    };
    Answer::Way(Carried::Along {
        generation: 7,
        nodes,
        length: 11,
    })
}

/// A step by port 1 to this node, with the packet.
fn step(next: u16) -> Answer {
    Answer::Moved(Move::Forward {
        port: 1,
        next,
        packet: packet(),
    })
}

#[test]
fn writes_answers(rt: HostRuntime) {
    let (alloc, rt) = (rt.alloc(), &rt);
    let (op, code) = (15, Code::TooManyEdges);
    let full = Answer::Settled(Mark {
        session: 3,
        ticket: 20,
        verdict: Verdict::Refused { op, code },
    });
    expect_text(rt, alloc, full, "3 20 refused op=15 code=6");
    let (session, ticket) = (0, 9_223_372_036_854_775_807);
    let old = Answer::OldTicket { session, ticket };
    expect_text(rt, alloc, old, "0 9223372036854775807 old ticket");
    let (session, ticket) = (63, 9);
    let twice = Answer::AlreadyIn { session, ticket };
    expect_text(rt, alloc, twice, "63 9 already in");
    expect_text(
        rt,
        alloc,
        way(rt, alloc),
        "generation=7 route 0 2 65535 length 11",
    );
    let text =
        "generation=7 address=000000000000000700040100020004010001000000000000000000000000000000000000000000000000";
    expect_text(rt, alloc, address(), text);
    let text =
        "port=1 next=2 packet=00000000000000070004000200040003010001000000000000000000000000000000000000000000000000";
    expect_text(rt, alloc, step(2), text);
    let text =
        "port=1 next=65535 packet=00000000000000070004000200040003010001000000000000000000000000000000000000000000000000";
    expect_text(rt, alloc, step(65_535), text);
    let state = Answer::State {
        count: 12,
        generation: 7,
        queue: 3,
    };
    expect_text(rt, alloc, state, "count=12 generation=7 queue=3");
    let generation = u64::MAX;
    let waited = Answer::Waited { generation };
    expect_text(rt, alloc, waited, "generation=18446744073709551615");
    expect_text(rt, alloc, Answer::BackedUp { count: 7 }, "count=7");
    let most = Answer::Tables {
        generation,
        tables: 65_535,
        bytes: 18_446_744_073_709_551_616,
        greatest: 18_446_744_073_709_551_615,
    };
    let text =
        "generation=18446744073709551615 tables=65535 bytes=18446744073709551616 greatest=18446744073709551615";
    expect_text(rt, alloc, most, text);
}
