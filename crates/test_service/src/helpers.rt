// What the tests share: values and answers that are seen, devices, and services that are run on them.
ghost use Rattle.committer_thread.specs.Config.{IsServiceConfig};

use crate::tables::NoFiles;
use checkpoint::Store;
use command_output::WatchedWriter;
use committer_thread::{Gate, OpenGate, ServiceConfig};
use disk_trait::{Disk, MemDisk};
use live_service::{
    Env, LiveInput, Places, Served, ServedDevice, Surroundings, WatchedOutput, serve_live,
};
use new_devices::NoDevices;
use script_service::serve_on;
use std::alloc::Global;
use std::fmt::Debug;
use std::io::{BufRead, Write};
use std::process::Abort;
use std::str;
use std::sync::Wait;
use std::thread::Threads;
use table_files::TableFiles;
use value_syntax::{landmark_words, script};

// The value of an answer that has to have one.
pub(crate) fn got<T, E: Drop>(rt: &impl Abort, answer: Result<T, E>) -> T {
    match answer {
        Ok(value) => value,
        Err(_) => panic!(rt; "no value"),
    }
}

// The value that has to be there.
pub(crate) fn there<T>(rt: &impl Abort, value: Option<T>) -> T {
    match value {
        Some(value) => value,
        None => panic!(rt; "no value"),
    }
}

// Sees that two values are the same.
pub(crate) fn same<T: Copy + PartialEq + Debug>(rt: &impl Abort, found: T, want: T, name: &str) {
    assert_eq!(rt; found, want, "{name}");
}

// Bytes as text.
pub(crate) fn text_of<'a>(rt: &impl Abort, bytes: &'a [u8]) -> &'a str {
    got(rt, str::from_utf8(bytes))
}

/// How many lines a text has. Each ends with a line feed.
pub(crate) fn count_lines(text: &[u8]) -> usize {
    text.iter().filter(|byte| **byte == b'\n').count()
}

/// Sees each line of a text: `?` at a line's end stands for a count, and `*` for anything. No count comes twice, those of a session that the
/// line begins with rise, and they go on one by one. Gives how many counts there are.
pub(crate) fn see_answers(rt: &impl Abort, alloc: Global, printed: &str, wanted: &str) -> u64 {
    let mut found = Vec::new(alloc);
    for _ in printed.split('\n') {
        got(rt, found.push(false));
    }
    let (mut last, mut counts) = ([0u64; 64], 0u64);
    for (line, want) in printed.split('\n').zip(wanted.split('\n')) {
        if let Some(front) = want.strip_suffix('?') {
            let count: u64 = got(rt, there(rt, line.strip_prefix(front)).parse());
            let at = there(rt, found.get_mut(count as usize));
            same(rt, (*at, count > 0), (false, true), line);
            *at = true;
            counts = counts.wrapping_add(1);
            if let Ok(session) = line.split(' ').next().unwrap_or("").parse::<usize>() {
                let last = there(rt, last.get_mut(session));
                same(rt, *last < count, true, line);
                *last = count;
            }
        } else if let Some((front, back)) = want.split_once('*') {
            let fits = line.starts_with(front) && line.ends_with(back);
            same(rt, fits, true, line);
        } else {
            same(rt, line, want, "an answer");
        }
    }
    let lines = (printed.split('\n').count(), wanted.split('\n').count());
    same(rt, lines.0, lines.1, "lines");
    let first = found.iter().skip(1).take(counts as usize);
    let there = first.filter(|there| **there).count();
    same(rt, there as u64, counts, "counts go on one by one");
    counts
}

/// A fresh device.
pub(crate) fn fresh<R: AllocGlobal + Abort>(rt: &R, nodes: u16) -> MemDisk {
    got(rt, test_doubles::formatted(rt.alloc(), nodes))
}

/// The store of a disk.
pub(crate) fn reopened<R: AllocGlobal + Abort, D: Disk + Drop>(rt: &R, disk: D) -> Store<D> {
    got(rt, test_doubles::opened(rt.alloc(), disk))
}

/// Sees that the first of so many edges of the path are on a disk, as many as the count says, which it gives.
pub(crate) fn beginning_of<R: AllocGlobal + Abort>(rt: &R, disk: MemDisk, edges: u16) -> u64 {
    let store = reopened(rt, disk);
    let count = store.count();
    for node in 0..edges {
        let there = store.graph().weight(node, node.wrapping_add(1)).is_some();
        same(rt, there, (node as u64) < count, "an edge");
    }
    same(rt, store.graph().edges() as u64, count, "edges");
    count
}

/// The landmark words of a service, how many editors, forwarders and places in the queue it has, and after how many rounds a change is in a
/// generation at the latest.
pub(crate) type Setup = (&'static str, (u8, u8, u8), u32);

// A disk with what is asked of its service.
fn device_of<R: AllocGlobal + Abort, D>(rt: &R, disk: D, setup: &Setup) -> ServedDevice<D>
    ensures { IsServiceConfig result.config }
{
    let (words, (editors, forwarders, places), _) = *setup;
    assert!(rt; 1 <= editors && editors <= 64);
    assert!(rt; 1 <= forwarders && forwarders <= 64);
    assert!(rt; 1 <= places && places <= 64);
    ServedDevice {
        disk,
        words: there(rt, got(rt, landmark_words(rt.alloc(), words))),
        config: ServiceConfig {
            editors,
            forwarders,
            places,
        },
    }
}

/// Runs a script on a disk, and gives the status, the disk and what was told.
pub(crate) fn run_script<
    R: AllocGlobal + Abort + Threads + Wait + Sync,
    D: Disk + Drop + Send,
    G: Gate + Sync,
    O: Write,
>(rt: &R, disk: D, setup: &Setup, text: &str, gate: &G, out: &mut O) -> (u8, D, Vec<u8>) {
    let alloc = rt.alloc();
    let device = device_of(rt, disk, setup);
    let lines = script(alloc, text, device.config.editors)
        .expect(rt, "memory")
        .expect(rt, "a script");
    let mut err = Vec::new(alloc);
    let mut told = WatchedWriter::new(&mut err);
    let (status, disk) = serve_on(Env { rt, alloc }, device, lines, gate, out, &mut told);
    drop(told);
    (status, disk.expect(rt, "the device"), err)
}

/// Runs a service on a disk, with what may hold it up and a place for tables. Gives how it ended, the disk and what was told.
pub(crate) fn run_live<R: AllocGlobal + Abort + Threads + Wait + Sync, D, G, T, S, O>(
    rt: &R,
    disk: D,
    setup: &Setup,
    lines: S,
    around: (&G, T),
    out: &mut O,
) -> (Served, D, Vec<u8>)
where
    D: Disk + Drop + Send,
    G: Gate + Sync,
    T: TableFiles + Drop + Send,
    S: BufRead + Send + Drop,
    O: Write,
{
    let alloc = rt.alloc();
    let (gate, tables) = around;
    let devices = NoDevices::new();
    let mut err = Vec::new(alloc);
    let mut told = WatchedWriter::new(&mut err);
    let (served, disk) = serve_live(
        Env { rt, alloc },
        device_of(rt, disk, setup),
        LiveInput {
            lines,
            rounds: setup.2,
        },
        Surroundings::new(gate, Places { tables, devices }),
        &mut WatchedOutput::new(out),
        &mut told,
    );
    drop(told);
    (served, disk.expect(rt, "the device"), err)
}

/// Runs a script on a disk in memory that nothing holds up.
pub(crate) fn plain_script<R: AllocGlobal + Abort + Threads + Wait + Sync, O: Write>(
    rt: &R,
    disk: MemDisk,
    setup: &Setup,
    text: &str,
    out: &mut O,
) -> (u8, MemDisk, Vec<u8>) {
    run_script(rt, disk, setup, text, &OpenGate, out)
}

/// Runs a service on a disk in memory, with all lines at once. Nothing holds it up.
pub(crate) fn plain_live<R: AllocGlobal + Abort + Threads + Wait + Sync, O: Write>(
    rt: &R,
    disk: MemDisk,
    setup: &Setup,
    lines: &str,
    out: &mut O,
) -> (Served, MemDisk, Vec<u8>) {
    run_live(rt, disk, setup, lines.as_bytes(), (&OpenGate, NoFiles), out)
}
