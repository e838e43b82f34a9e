// Worked schemes of which the tables are changed by hand: of a path of five nodes with the landmark in the middle, each judged by a check (the
// tables are in conformance/tables.txt); and of two nodes with an edge of length 7 and landmark 0, where every call answers (what is launched,
// moved on and refused between them is in conformance/two_nodes.txt).
use crate::changes::copied;
use crate::helpers::{Edge, Network, PATH, got, label, same};
use crate::second_checker::RULES;
use certificate::{Fault, check};
use heavy_labels::Record;
use schemes::{Address, CarryRefused, Entry, Home, Listed, Parts, Refused, Scheme};
use std::alloc::Global;
use std::process::Abort;

/// An entry for a root, at a distance, by a parent. Of its record first, last, heavy last and light depth, and the ports to the parent and
/// to the heavy child.
type EntryRow = (
    u16,
    u64,
    Option<u16>,
    (u16, u16, u16, u8),
    (Option<u16>, Option<u16>),
);

/// A node that a directory lists, and the number of its label, which has no light port.
type ListedRow = (u16, u16);

fn entries_of(rt: &impl Abort, alloc: Global, rows: &[EntryRow]) -> Vec<Entry> {
    let mut entries = Vec::new(alloc);
    for (root, distance, parent, numbers, ports) in rows {
        let (first, last, heavy_last, light_depth) = *numbers;
        let record = Record::new(first, last, heavy_last, light_depth, ports.0, ports.1);
        let record = got(rt, record.ok_or("no record"));
        let entry = Entry::new(*distance, *root, *parent, record);
        got(rt, entries.push(entry));
    }
    entries
}

fn directory_of(rt: &impl Abort, alloc: Global, rows: &[ListedRow]) -> Vec<Listed> {
    let listed = |(node, first): &ListedRow| Listed {
        node: *node,
        label: label(*first, &[]),
    };
    got(rt, rows.iter().map(listed).collect(alloc))
}

/// Puts a value into the place of a node.
fn put<T: Drop>(rt: &impl Abort, places: &mut [T], x: usize, value: T) {
    match places.get_mut(x) {
        Some(place) => *place = value,
        None => panic!(rt; "no place"),
    }
}

/// What stands in the tables in place of what belongs there, in the place of a node.
#[derive(Drop)]
enum Changed {
    Nothing,
    Ports(usize, &'static [u16]),
    NoNearest(usize),
    Entries(usize, &'static [EntryRow]),
    Directory(usize, &'static [ListedRow]),
    /// The only light port of its home's label.
    Home(usize, u16),
    /// The last home is missing.
    LessHomes,
}

fn change(rt: &impl Abort, alloc: Global, parts: &mut Parts, changed: &Changed) {
    match changed {
        Changed::Nothing => {}
        Changed::Ports(x, ports) => {
            let ports = got(rt, Vec::from_slice(alloc, *ports));
            put(rt, &mut parts.ports, *x, ports);
        }
        Changed::NoNearest(x) => put(rt, &mut parts.nearest, *x, None),
        Changed::Entries(x, rows) => put(rt, &mut parts.entries, *x, entries_of(rt, alloc, rows)),
        Changed::Directory(x, rows) => {
            let directory = directory_of(rt, alloc, rows);
            put(rt, &mut parts.directories, *x, directory);
        }
        Changed::Home(x, port) => put(rt, &mut parts.homes, *x, Some(label(4, &[*port]))),
        Changed::LessHomes => {
            let _last = parts.homes.pop();
        }
    }
}

/// Entries of the nodes 1 and 4, each for a root: the last number is the root's.
const ENTRY_1_1: EntryRow = (1, 0, None, (0, 1, 1, 0), (None, Some(0)));

const ENTRY_1_2: EntryRow = (2, 1, Some(2), (1, 2, 2, 0), (Some(1), Some(0)));

const ENTRY_4_2: EntryRow = (2, 2, Some(3), (4, 4, 4, 1), (Some(0), None));

const ENTRY_4_3: EntryRow = (3, 1, Some(3), (1, 1, 1, 0), (Some(0), None));

const ENTRY_4_4: EntryRow = (4, 0, None, (0, 0, 0, 0), (None, None));

/// A distance of node 4 that is too short, an entry of node 1 for a root as far as its landmark, and numbers at node 2.
const SHORT_4_2: EntryRow = (2, 1, Some(3), (4, 4, 4, 1), (Some(0), None));

const ENTRY_1_0: EntryRow = (0, 1, Some(0), (0, 0, 0, 0), (None, None));

const OWN: EntryRow = (2, 0, None, (0, 4, 2, 0), (None, Some(0)));

const OTHER_LAST: EntryRow = (2, 0, None, (0, 4, 3, 0), (None, Some(0)));

const GREAT: EntryRow = (2, 0, None, (65535, 0, 65535, 255), (None, Some(0)));

/// Each change, and what a check says then. The first five put what belongs there.
const CHANGES: [(Changed, Result<(), Fault>); 16] = [
    (Changed::Nothing, Ok(())),
    (Changed::Entries(1, &[ENTRY_1_1, ENTRY_1_2]), Ok(())),
    (Changed::Entries(2, &[OWN]), Ok(())),
    (
        Changed::Entries(4, &[ENTRY_4_2, ENTRY_4_3, ENTRY_4_4]),
        Ok(()),
    ),
    (Changed::Home(4, 1), Ok(())),
    (Changed::Ports(2, &[3, 1]), Err(Fault::Shape)),
    (Changed::LessHomes, Err(Fault::Shape)),
    (
        Changed::Entries(4, &[ENTRY_4_2, ENTRY_4_4]),
        Err(Fault::Edges),
    ),
    (
        Changed::Entries(4, &[SHORT_4_2, ENTRY_4_3, ENTRY_4_4]),
        Err(Fault::Parents),
    ),
    (
        Changed::Entries(1, &[ENTRY_1_0, ENTRY_1_1, ENTRY_1_2]),
        Err(Fault::Strict),
    ),
    (Changed::NoNearest(0), Err(Fault::Nearest)),
    (Changed::Entries(2, &[OTHER_LAST]), Err(Fault::Records)),
    (Changed::Entries(2, &[GREAT]), Err(Fault::Records)),
    (Changed::Home(4, 0), Err(Fault::Labels)),
    (
        Changed::Directory(1, &[(0, 1), (0, 0), (1, 0)]),
        Err(Fault::Labels),
    ),
    (Changed::Directory(3, &[(3, 0)]), Err(Fault::Directories)),
];

/// Graphs for which the scheme of the path is none, and what a check says.
const OTHERS: [(u16, &[Edge], Fault); 3] = [
    (6, &PATH, Fault::Shape),
    (5, &[(0, 1, 1), (1, 2, 1), (2, 3, 1)], Fault::Shape),
    (
        5,
        &[(0, 1, 1), (1, 2, 1), (2, 3, 1), (3, 4, 2)],
        Fault::Parents,
    ),
];

#[test]
fn each_change_breaks_its_rule(rt: HostRuntime) {
    let (rt, alloc) = (&rt, rt.alloc());
    let path = Network::of(rt, alloc, 5, &PATH);
    let scheme = path.scheme(rt, &[2]);
    for (place, (changed, want)) in CHANGES.iter().enumerate() {
        let mut parts = got(rt, copied(alloc, scheme.parts()));
        change(rt, alloc, &mut parts, changed);
        let found = check(&path.graph, &Scheme::assemble(parts));
        same(rt, (place, found), (place, *want), "a change");
    }
    for (nodes, edges, want) in &OTHERS {
        let other = Network::of(rt, alloc, *nodes, edges);
        let found = check(&other.graph, &scheme);
        same(rt, found, Err(*want), "another graph");
    }
}

#[test]
fn an_empty_scheme_has_no_shape(rt: HostRuntime) {
    let (rt, alloc) = (&rt, rt.alloc());
    let network = Network::of(rt, alloc, 1, &[]);
    for nodes in [0u16, 1, 65535] {
        let empty = Scheme::assemble(Parts {
            nodes,
            generation: 0,
            landmarks: Vec::new(alloc),
            ports: Vec::new(alloc),
            nearest: Vec::new(alloc),
            entries: Vec::new(alloc),
            directories: Vec::new(alloc),
            homes: Vec::new(alloc),
        });
        let found = check(&network.graph, &empty);
        same(rt, found, Err(Fault::Shape), "no tables");
    }
}

/// The landmarks, what the node lists, and what a check says.
const SINGLES: [(&[u16], &[ListedRow], Result<(), Fault>); 4] = [
    (&[0], &[], Ok(())),
    (&[0], &[(0, 0)], Err(Fault::Directories)),
    (&[], &[(0, 0)], Ok(())),
    (&[], &[], Err(Fault::Directories)),
];

#[test]
fn a_single_node_lists_itself_or_is_a_landmark(rt: HostRuntime) {
    let (rt, alloc) = (&rt, rt.alloc());
    let single = Network::of(rt, alloc, 1, &[]);
    for (place, (at, listed, want)) in SINGLES.iter().enumerate() {
        let mut parts = got(rt, copied(alloc, single.scheme(rt, at).parts()));
        put(
            rt,
            &mut parts.directories,
            0,
            directory_of(rt, alloc, listed),
        );
        let found = check(&single.graph, &Scheme::assemble(parts));
        same(rt, (place, found), (place, *want), "a single node");
    }
}

/// The texts of the faults by their numbers.
const TEXTS: [(u8, &str); 8] = [
    (1, "K1"),
    (2, "K2"),
    (3, "K3"),
    (4, "K4"),
    (5, "K5"),
    (6, "K6"),
    (7, "K7"),
    (8, "K8"),
];

#[test]
fn faults_are_shown_by_their_numbers(rt: HostRuntime) {
    let (rt, alloc) = (&rt, rt.alloc());
    for (fault, want) in RULES.iter().zip(TEXTS.iter()) {
        let text = got(rt, fault.to_string(alloc));
        same(rt, (*fault as u8, text.as_str()), *want, "a fault");
    }
}

/// The scheme with these entries in the place of a node.
fn two_with(rt: &impl Abort, alloc: Global, x: usize, rows: &[EntryRow]) -> Scheme {
    let scheme = Network::of(rt, alloc, 2, &[(0, 1, 7)]).scheme(rt, &[0]);
    let mut parts = got(rt, copied(alloc, scheme.parts()));
    put(rt, &mut parts.entries, x, entries_of(rt, alloc, rows));
    Scheme::assemble(parts)
}

/// The scheme with this length of the edge.
fn two(rt: &impl Abort, alloc: Global, length: u64) -> Scheme {
    let leaf: EntryRow = (0, length, Some(0), (1, 1, 1, 0), (Some(0), None));
    let own: EntryRow = (1, 0, None, (0, 0, 0, 0), (None, None));
    two_with(rt, alloc, 1, &[leaf, own])
}

/// The address of a node behind a landmark, where there is one.
fn address_of(node: u16, landmark: Option<u16>) -> Address {
    let home = landmark.map(|landmark| Home {
        landmark,
        label: label(1, &[]),
    });
    Address {
        generation: 1,
        node,
        home,
    }
}

/// A node that sends to node 1, by its directory and by the home; and the root, the first number, the hops left and the generation, which is
/// the scheme's.
const SENT: [(u16, (u16, u16, u16, u64)); 2] = [(1, (1, 0, 1, 7)), (0, (0, 1, 1, 7))];

/// A node, the address of another one by its landmark, and why it is refused, by deciding and by carrying.
const NOT_SENT: [(u16, u16, Option<u16>, Refused); 4] = [
    (2, 0, Some(0), Refused::NoNode),
    (0, 2, Some(0), Refused::NoNode),
    (0, 1, Some(1), Refused::Unreachable),
    (0, 1, None, Refused::Unreachable),
];

#[test]
fn decides_by_the_directory_first(rt: HostRuntime) {
    let (rt, alloc) = (&rt, rt.alloc());
    let scheme = two(rt, alloc, 7);
    for (u, want) in &SENT {
        let sent = got(rt, scheme.decide(*u, &address_of(1, Some(0))));
        let (root, first) = (sent.root, sent.label.first());
        let found = (root, first, sent.hops_left, sent.generation);
        same(rt, found, *want, "decided");
    }
    for (u, node, landmark, refused) in &NOT_SENT {
        let address = address_of(*node, *landmark);
        let found = scheme.decide(*u, &address).err();
        same(rt, found, Some(*refused), "decided");
        let found = scheme.carry(alloc, *u, &address).err();
        let found = found.map(|why| why as u8);
        same(rt, found, Some(*refused as u8), "carried");
    }
    assert!(rt; scheme.address(2).is_err());
}

/// Entries of node 1 that are out of order and twice there.
const TWICE: [EntryRow; 4] = [
    (1, 5, None, (0, 0, 0, 0), (None, None)),
    (0, 7, Some(0), (1, 1, 1, 0), (Some(0), None)),
    (0, 3, Some(0), (2, 2, 2, 0), (Some(0), None)),
    (1, 6, None, (0, 0, 0, 0), (None, None)),
];

/// A root, the place of its first entry there, and how many entries were looked at.
const FOUND: [(u16, (Option<usize>, u32)); 3] = [
    (0, (Some(1), 2)),
    (1, (Some(0), 1)),
    (7, (None, 4)),
];

#[test]
fn first_place_counts(rt: HostRuntime) {
    let (rt, alloc) = (&rt, rt.alloc());
    let scheme = two_with(rt, alloc, 1, &TWICE);
    assert!(rt; scheme.parts().nodes == 2);
    for (root, want) in &FOUND {
        same(rt, scheme.find(1, *root), *want, "a root");
    }
    same(rt, scheme.entries(1), 4, "entries");
}

#[test]
fn finds_by_halving(rt: HostRuntime) {
    let (rt, alloc) = (&rt, rt.alloc());
    let mut many: Vec<EntryRow> = Vec::new(alloc);
    for root in 0..100u16 {
        let alone: EntryRow = (3 * root + 1, 0, None, (0, 0, 0, 0), (None, None));
        got(rt, many.push(alone));
    }
    let scheme = two_with(rt, alloc, 0, &many);
    assert!(rt; scheme.parts().nodes == 2);
    for root in 0..310u16 {
        let (place, probes) = scheme.find(0, root);
        let is_there = root % 3 == 1 && root < 300;
        let want = if is_there {
            Some((root / 3) as usize)
        } else {
            None
        };
        let few = probes >= 1 && probes <= 7;
        same(rt, (root, place, few), (root, want, true), "a root");
    }
}

#[test]
fn a_length_stays_at_the_greatest(rt: HostRuntime) {
    let (rt, alloc) = (&rt, rt.alloc());
    let scheme = two(rt, alloc, u64::MAX);
    let address = got(rt, scheme.address(1));
    let trail = got(rt, scheme.carry(alloc, 0, &address));
    same(rt, trail.length, u64::MAX, "the length");
    let found = two(rt, alloc, 7).carry(alloc, 5, &address).err();
    same(rt, found, Some(CarryRefused::NoNode), "from no node");
}
