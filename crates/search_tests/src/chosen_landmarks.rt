// Landmarks: bounds and choices, against values worked out by hand.
use crate::helpers::{got, same};
use landmarks::{Landmarks, bound, choose};

// A number of nodes, and the bound of their words.
const BOUNDS: [(usize, u64); 9] = [
    (1, 18446744073709551615),
    (2, 9223372036854775807),
    (4, 9223372036854775807),
    (5, 6148914691236517205),
    (9, 6148914691236517205),
    (10, 4611686018427387903),
    (4096, 288230376151711743),
    (4097, 283796062672454640),
    (16_384, 144115188075855871),
];

#[test]
fn bounds_of_small_and_large_graphs(rt: HostRuntime) {
    for (nodes, want) in &BOUNDS {
        same(&rt, (*nodes, bound(*nodes)), (*nodes, *want), "a bound");
    }
}

// Words of five nodes, at the bound, below and above it.
const WORDS: [u64; 5] = [
    6148914691236517205,
    6148914691236517204,
    0,
    18446744073709551615,
    6148914691236517206,
];

#[test]
fn a_word_at_the_bound_makes_no_landmark(rt: HostRuntime) {
    let landmarks = got(&rt, choose(rt.alloc(), 5, &WORDS));
    let want = [false, true, true, false, false];
    same(&rt, landmarks.flags(), want.as_slice(), "the flags");
    same(&rt, landmarks.count(), 2, "the landmarks");
    assert!(&rt; landmarks.flags().len() == 5);
    let held = [
        landmarks.holds(0),
        landmarks.holds(1),
        landmarks.holds(2),
        landmarks.holds(3),
        landmarks.holds(4),
    ];
    same(&rt, held, want, "the landmarks");
}

// The word of a single node, and how many landmarks there are.
const SINGLE: [(u64, usize); 3] = [(18446744073709551615, 0), (18446744073709551614, 1), (0, 1)];

#[test]
fn a_single_node_is_a_landmark_but_at_the_greatest_word(rt: HostRuntime) {
    for (word, want) in &SINGLE {
        let landmarks = got(&rt, choose(rt.alloc(), 1, &[*word]));
        same(&rt, (*word, landmarks.count()), (*word, *want), "one word");
    }
}
