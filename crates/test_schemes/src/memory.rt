// Want of memory, and of threads. Run by `./refuse-memory`, each allocation refused in turn, whichever worker asks for it: a call whose
// allocation is refused says so, and made again it gives the whole answer. What else a test allocates it asks for again where it is refused.
use crate::choices::{balls_of, best};
use crate::drawn::expect_same;
use crate::helpers::{Network, PATH, again, carried, got, same};
use crate::numbers::apart;
use crate::trees::{below, five, root};
use landmark_choice::Limits;
use route_tree::Member;
use sample_networks::RING;

#[test]
fn numbers_after_a_want_of_memory(rt: HostRuntime) {
    let (rt, alloc) = (&rt, rt.alloc());
    // few members of nodes far apart, which are sorted
    let far = [
        root(60_000),
        below(60_000, 9, 0, 0),
        below(60_000, 40_000, 1, 1),
        below(40_000, 7, 0, 0),
    ];
    let firsts: [&[u16]; 2] = [&[0, 1, 3, 2, 4], &[0, 3, 1, 2]];
    let members: [&[Member]; 2] = [&five(), &far];
    for (members, firsts) in members.iter().zip(firsts.iter()) {
        let all = again(rt, || apart(rt, alloc, members, alloc));
        same(rt, all.len(), firsts.len(), "the members");
        for (found, first) in all.iter().zip(firsts.iter()) {
            same(rt, found.label.first(), *first, "a number");
        }
    }
}

#[test]
fn builds_after_a_want_of_memory(rt: HostRuntime) {
    let scheme = Network::of(&rt, rt.alloc(), 5, &PATH).scheme(&rt, &[2]);
    for (x, trees) in &[(0u16, 3usize), (1, 2), (2, 1), (3, 2), (4, 3)] {
        let found = scheme.entries_of(*x).len();
        same(&rt, found, *trees, "the trees of a node");
    }
}

#[test]
fn carries_after_a_want_of_memory(rt: HostRuntime) {
    let (rt, alloc) = (&rt, rt.alloc());
    let scheme = Network::of(rt, alloc, 5, &PATH).scheme(rt, &[2]);
    let trail = got(rt, carried(rt, alloc, &scheme, 0, 4));
    let found = trail.nodes.as_slice();
    same(rt, found, [0u16, 1, 2, 3, 4].as_slice(), "the nodes");
    let found = trail.ports.as_slice();
    same(rt, found, [0u16, 1, 1, 1].as_slice(), "the ports");
    same(rt, trail.length, 4, "the length");
}

#[test]
fn builds_in_threads_after_a_want_of_memory(rt: HostRuntime) {
    let ring = Network::of(&rt, rt.alloc(), 9, &RING);
    expect_same(&rt, &ring, &[2, 6], &[1, 3, 4]);
}

#[test]
fn chooses_after_a_want_of_memory(rt: HostRuntime) {
    let (rt, path) = (&rt, Network::of(&rt, rt.alloc(), 5, &PATH));
    let limits = Limits {
        most_entries: 8,
        most: 8,
    };
    let words = [u64::MAX, 0, u64::MAX, u64::MAX, u64::MAX];
    let balls = balls_of(rt, &path, limits, 2);
    let choice = best(rt, path.alloc, &balls, &words, limits);
    assert!(rt; choice.nodes.as_slice() == [2u16].as_slice());
}
