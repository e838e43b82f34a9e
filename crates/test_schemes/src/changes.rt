// One drawn change to one drawn part of a scheme's tables, over which both checkers say the same.
use crate::helpers::{Network, Words, below, got, lights_of, number, same};
use crate::second_checker::first_fault;
use arrayvec::ArrayVec;
use certificate::{Fault, check, check_in_threads};
use heavy_labels::{Label, Record};
use rand_core::{Rng, SeedableRng};
use schemes::{Entry, Listed, Near, Parts, Scheme};
use std::alloc::{AllocError, Global};
use std::process::Abort;
use std::thread::Threads;

/// Equal tables.
pub(crate) fn copied(alloc: Global, parts: &Parts) -> Result<Parts, AllocError> {
    let mut directories = Vec::new(alloc);
    for directory in &parts.directories {
        let copies: Vec<Listed> = directory.iter().map(copied_listed).collect(alloc)?;
        directories.push(copies)?;
    }
    Ok(Parts {
        nodes: parts.nodes,
        generation: parts.generation,
        landmarks: parts.landmarks.clone()?,
        ports: parts.ports.clone()?,
        nearest: parts.nearest.clone()?,
        entries: parts.entries.clone()?,
        directories,
        homes: parts.homes.clone()?,
    })
}

fn copied_listed(listed: &Listed) -> Listed {
    Listed {
        node: listed.node,
        label: listed.label.copy(),
    }
}

/// Changes one drawn part of a drawn kind. Where there is no such part, or the draw is what stood there, nothing changes.
pub(crate) fn change(rng: &mut Words, parts: &mut Parts) -> Result<(), AllocError> {
    match below(rng, 12) {
        kind @ 0..=2 => change_entry(rng, parts, kind),
        3 => change_port(rng, parts),
        4 => change_flag(rng, parts),
        5 => change_nearest(rng, parts),
        6 => change_listed(rng, parts),
        7 => change_home(rng, parts),
        8..=9 => return more_or_less(rng, &mut parts.entries, |entry| *entry),
        _ => return more_or_less(rng, &mut parts.directories, copied_listed),
    }
    Ok(())
}

/// A drawn place of all places of some lists: the list and the place in it. None where all are empty.
fn drawn_place<T>(rng: &mut Words, lists: &[Vec<T>]) -> Option<(usize, usize)> {
    let mut all: usize = 0;
    for list in lists {
        all = all.saturating_add(list.len());
    }
    let mut at = below(rng, all);
    for (x, list) in lists.iter().enumerate() {
        if at < list.len() {
            return Some((x, at));
        }
        at -= list.len();
    }
    None
}

/// What stands at a drawn place.
fn drawn_item<'a, T>(rng: &mut Words, lists: &'a mut Vec<Vec<T>>) -> Option<&'a mut T> {
    let (x, at) = drawn_place(rng, lists)?;
    let list = lists.get_mut(x)?;
    list.get_mut(at)
}

/// Takes out what stands at a drawn place, or puts a copy of it beside it.
fn more_or_less<T: Drop, F: Fn(&T) -> T>(
    rng: &mut Words,
    lists: &mut Vec<Vec<T>>,
    copied: F,
) -> Result<(), AllocError>
    requires { F.IsAlwaysCallable copied }
{
    let less = falls(rng, 2);
    if let Some((x, at)) = drawn_place(rng, lists)
        && let Some(list) = lists.get_mut(x)
        && at < list.len()
    {
        if less {
            let _out = list.remove(at);
        } else {
            let again = copied(&list[at]);
            list.insert(at, again)?;
        }
    }
    Ok(())
}

/// Whether a draw of one in so many falls.
fn falls(rng: &mut Words, among: usize) -> bool {
    below(rng, among) == 0
}

/// A node, or rarely the number past the last one.
fn some_node(rng: &mut Words, nodes: u16) -> u16 {
    number(rng, nodes.saturating_add(1))
}

fn some_port(rng: &mut Words) -> Option<u16> {
    let port = number(rng, 5);
    if falls(rng, 4) { None } else { Some(port) }
}

/// A small number, or rarely the greatest.
fn some_number(rng: &mut Words, nodes: u16) -> u16 {
    let small = number(rng, nodes);
    if falls(rng, 16) { u16::MAX } else { small }
}

/// One more, one less, another small distance, or the greatest.
fn some_distance(rng: &mut Words, old: u64) -> u64 {
    match below(rng, 8) {
        0..=2 => old.saturating_add(1),
        3..=5 => old.saturating_sub(1),
        6 => rng.next_u64() % 20,
        _ => u64::MAX,
    }
}

/// Changes the distance, the parent or the record.
fn change_entry(rng: &mut Words, parts: &mut Parts, kind: usize) {
    let (node, alone) = (some_node(rng, parts.nodes), falls(rng, 8));
    if let Some(entry) = drawn_item(rng, &mut parts.entries) {
        let (mut distance, mut parent) = (entry.distance(), entry.parent());
        let mut record = entry.tree_record();
        match kind {
            0 => distance = some_distance(rng, distance),
            1 => parent = if alone { None } else { Some(node) },
            _ => record = changed_record(rng, record, parts.nodes),
        }
        *entry = Entry::new(distance, entry.root(), parent, record);
    }
}

/// A record with another number or port. The heavy port goes or comes with it, where a record can't have it or needs it.
fn changed_record(rng: &mut Words, old: Record, nodes: u16) -> Record {
    let (drawn, port) = (some_number(rng, nodes), some_port(rng));
    let (mut first, mut last, mut heavy_last) = (old.first, old.last, old.heavy_last);
    let (mut depth, mut up, mut heavy) = (old.light_depth, old.parent_port, old.heavy_port);
    match below(rng, 6) {
        0 => first = drawn,
        1 => last = drawn,
        2 => heavy_last = drawn,
        3 => depth = (drawn % 4) as u8,
        4 => up = port,
        _ => heavy = port,
    }
    heavy = if first == last {
        None
    } else {
        Some(heavy.unwrap_or(0))
    };
    Record::new(first, last, heavy_last, depth, up, heavy).unwrap_or(old)
}

fn change_port(rng: &mut Words, parts: &mut Parts) {
    if let Some(port) = drawn_item(rng, &mut parts.ports) {
        *port = some_node(rng, parts.nodes);
    }
}

fn change_flag(rng: &mut Words, parts: &mut Parts) {
    let at = below(rng, parts.landmarks.len());
    if let Some(flag) = parts.landmarks.get_mut(at) {
        *flag = !*flag;
    }
}

/// Another nearest landmark, another distance to it, or none; one where there was none.
fn change_nearest(rng: &mut Words, parts: &mut Parts) {
    let at = below(rng, parts.nearest.len());
    if let Some(place) = parts.nearest.get_mut(at) {
        let (landmark, kind) = (some_node(rng, parts.nodes), below(rng, 5));
        let old = place.map_or(3, |near| near.distance);
        let distance = some_distance(rng, old);
        *place = match *place {
            None => Some(Near { landmark, distance }),
            Some(_) if kind == 0 => None,
            Some(near) if kind < 3 => Some(Near { landmark, ..near }),
            Some(near) => Some(Near { distance, ..near }),
        };
    }
}

/// A label with another number, another last port, a port less or a port more.
fn changed_label(rng: &mut Words, old: &Label, nodes: u16) -> Label {
    let mut lights = lights_of(old.lights());
    let kind = below(rng, 4);
    if kind == 0 {
        return Label::new(some_number(rng, nodes), lights);
    }
    if kind < 3 {
        let _last = lights.pop();
    }
    if kind != 2 {
        let _full = lights.try_push(number(rng, 4));
    }
    Label::new(old.first(), lights)
}

fn change_listed(rng: &mut Words, parts: &mut Parts) {
    if let Some(listed) = drawn_item(rng, &mut parts.directories) {
        listed.label = changed_label(rng, &listed.label, parts.nodes);
    }
}

fn change_home(rng: &mut Words, parts: &mut Parts) {
    let at = below(rng, parts.homes.len());
    if let Some(home) = parts.homes.get_mut(at) {
        *home = match home {
            Some(_) if falls(rng, 4) => None,
            Some(label) => Some(changed_label(rng, label, parts.nodes)),
            None => Some(Label::new(some_number(rng, parts.nodes), ArrayVec::new())),
        };
    }
}

/// How many changed schemes broke each rule first, at the number of the fault. At 0 stand those that kept all rules.
type Tally = [u32; 9];

/// Sees that one worker and so many name this fault.
fn expect_fault<R: Abort + Threads + Sync>(
    rt: &R,
    network: &Network,
    scheme: &Scheme,
    workers: u16,
    want: Option<Fault>,
) {
    let found = check(&network.graph, scheme).err();
    same(rt, found, want, "one worker's fault");
    let found = check_in_threads(rt, &network.graph, scheme, workers).err();
    same(rt, (workers, found), (workers, want), "the workers' fault");
}

/// What both checkers answer on a built scheme after one change, ten times; all rules hold of it before. No node is a landmark, or all, or
/// each with a chance of one in three.
fn judge_changes<R: Abort + Threads + Sync>(
    rt: &R,
    alloc: Global,
    rng: &mut Words,
    tally: &mut Tally,
) {
    let nodes = number(rng, 13).saturating_add(2);
    let edges = (rng.next_u64() % 10, 10);
    let network = Network::drawn(rt, alloc, rng, nodes, edges);
    let plain = network.plain(rt);
    let odds = match rng.next_u64() % 8 {
        0 => (0, 1),
        1 => (1, 1),
        _ => (1, 3),
    };
    let at = network.some(rt, rng, odds);
    let scheme = got(rt, network.by_lists(rt, &at, alloc));
    expect_fault(rt, &network, &scheme, 3, None);
    let found = got(rt, first_fault(alloc, &plain, scheme.parts()));
    same(rt, found, None, "the second checker's fault");
    for turn in 0..10u16 {
        let mut parts = got(rt, copied(alloc, scheme.parts()));
        got(rt, change(rng, &mut parts));
        let want = got(rt, first_fault(alloc, &plain, &parts));
        expect_fault(rt, &network, &Scheme::assemble(parts), turn, want);
        let number = want.map_or(0, |fault| fault as usize);
        if let Some(times) = tally.get_mut(number) {
            *times = times.saturating_add(1);
        }
    }
}

#[test]
fn both_checkers_find_the_same_fault(rt: HostRuntime) {
    let mut rng = Words::seed_from_u64(29);
    let mut tally: Tally = [0; 9];
    for _ in 0..100u32 {
        judge_changes(&rt, rt.alloc(), &mut rng, &mut tally);
    }
    for (number, times) in tally.iter().enumerate() {
        assert!(rt; *times > 0, "answer {number} was never given");
    }
}
