// What is read of numbers, ops and landmark words, and the words of nodes. The drawn words are those of another program of the two generators.
use crate::helpers::{got, same};
use graph_edits::Op;
use std::alloc::Global;
use std::process::Abort;
use value_syntax::{LandmarkWords, landmark_words, node, number, op, script};

// Ops as far as their numbers go, and past that.
const OPS: [(&str, Option<Op>); 5] = [
    (
        "add:65535:0:4294967295",
        Some(Op::Add(65_535, 0, 4_294_967_295)),
    ),
    ("set:0:65535:0", Some(Op::Set(0, 65_535, 0))),
    ("cut:10:9", Some(Op::Cut(10, 9))),
    ("add:0:65536:1", None),
    ("add:0:1:4294967296", None),
];

// A text, the greatest number that it may be, and the number.
const NUMBERS: [(&str, u64, Option<u64>); 4] = [
    ("18446744073709551615", u64::MAX, Some(u64::MAX)),
    ("18446744073709551616", u64::MAX, None),
    ("7", 7, Some(7)),
    ("7", 6, None),
];

const NODES: [(&str, Option<u16>); 3] = [("0", Some(0)), ("65535", Some(65_535)), ("65536", None)];

#[test]
fn greatest_numbers(rt: HostRuntime) {
    let (rt, alloc) = (&rt, rt.alloc());
    for (text, want) in &OPS {
        same(rt, got(rt, op(alloc, text)), *want, text);
    }
    for (text, most, want) in &NUMBERS {
        same(rt, got(rt, number(alloc, text, *most)), *want, text);
    }
    for (text, want) in &NODES {
        same(rt, got(rt, node(alloc, text)), *want, text);
    }
}

// Landmark words, and the words of five nodes by them, where `-` is the greatest.
const WORDS: [(&str, &str); 7] = [
    ("none", "- - - - -"),
    ("at:0", "0 - - - -"),
    ("at:4,1,4", "- 0 - - 0"),
    (
        "draw:0",
        "5987356902031041503 7051070477665621255 6633766593972829180 211316841551650330 9136120204379184874",
    ),
    (
        "draw:1",
        "14971601782005023387 13781649495232077965 1847458086238483744 13765271635752736470 3406718355780431780",
    ),
    (
        "draw:7",
        "1021219803524665661 3174977118032272916 13236943193235544178 7880630202246103356 17776380574336353142",
    ),
    (
        "draw:18446744073709551615",
        "6254647548650071986 16610832622747802512 16422857234328439435 5048281510058307187 12093889312535503841",
    ),
];

// The landmark words that a text spells.
fn read(rt: &impl Abort, alloc: Global, text: &str) -> LandmarkWords {
    let words = got(rt, landmark_words(alloc, text));
    got(rt, words.ok_or("no landmark words"))
}

// The words of five nodes.
fn words_of_five(rt: &impl Abort, alloc: Global, text: &str) -> Vec<u64> {
    let words = read(rt, alloc, text);
    let within = words.is_within(5);
    assert!(rt; within, "{text}");
    got(rt, words.of_nodes(alloc, 5))
}

#[test]
fn words_of_nodes(rt: HostRuntime) {
    let (rt, alloc) = (&rt, rt.alloc());
    for (text, want) in &WORDS {
        let words = words_of_five(rt, alloc, text);
        same(rt, words.len(), 5, text);
        for (word, want) in words.iter().zip(want.split(' ')) {
            let want = if want == "-" {
                u64::MAX
            } else {
                got(rt, want.parse())
            };
            same(rt, *word, want, text);
        }
    }
    let zeros = got(rt, vec![in alloc; 65_535, 0]);
    let named = read(rt, alloc, "at:65535,0");
    same(rt, &named, &LandmarkWords::ZeroAt(zeros), "at:65535,0");
}

// Landmark words, a number of nodes, and whether each node that is named is there.
const NAMED: [(&str, u16, bool); 8] = [
    ("none", 0, true),
    ("draw:7", 0, true),
    ("at:0", 1, true),
    ("at:0", 0, false),
    ("at:4", 5, true),
    ("at:5", 5, false),
    ("at:1,5,2", 5, false),
    ("at:65535", 65_535, false),
];

#[test]
fn nodes_that_are_named(rt: HostRuntime) {
    for (text, nodes, within) in &NAMED {
        let words = read(&rt, rt.alloc(), text);
        let found = (*nodes, words.is_within(*nodes));
        same(&rt, found, (*nodes, *within), text);
    }
}

// The change of a script and how many editors there are, more than a command takes; and whether it is a script for them.
const EDITORS: [(&str, u8, bool); 2] = [("255 cut:0:1", 255, false), ("256 cut:0:1", 255, false)];

#[test]
fn sessions_that_have_editors(rt: HostRuntime) {
    for (text, editors, found) in &EDITORS {
        let read = got(&rt, script(rt.alloc(), text, *editors));
        same(&rt, read.is_some(), *found, text);
    }
}
