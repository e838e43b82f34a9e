// Commands on a disk in memory, where no file is so: tickets that no command names, devices of another length, and copies of which a call fails. Calls of a device
// at rest that fail are in conformance/faults.txt.
use crate::helpers::{got, same};
use checkpoint::DEVICE_LEN;
use command_output::Fault;
use commands::{Copied, copy_device};
use device_commands::{edit, format, listing, migrate, resume};
use disk_trait::{CrashDisk, MemDisk};
use generations::Verdict;
use graph_edits::{Change, Op};
use std::process::Abort;
use test_doubles::CRASH_WORDS;

// A device of so many zeros.
fn blank<R: AllocGlobal + Abort>(rt: &R, len: usize) -> MemDisk {
    got(rt, test_doubles::blank(rt.alloc(), len))
}

// A fresh device of five nodes.
fn fresh<R: AllocGlobal + Abort>(rt: &R) -> MemDisk {
    let mut disk = blank(rt, DEVICE_LEN);
    got(rt, format(&mut disk, 5));
    disk
}

// A ticket that no command can name, and why an edit under it is refused.
const TICKETS: [(u64, Fault); 2] = [
    (0, Fault::AlreadyIn),
    (9_223_372_036_854_775_808, Fault::Worn),
];

#[test]
fn tickets_that_no_command_names(rt: HostRuntime) {
    let (rt, alloc) = (&rt, rt.alloc());
    let mut disk = fresh(rt);
    for (ticket, want) in &TICKETS {
        let change = got(rt, Change::new(&[Op::Add(0, 1, 1)]));
        let (answer, left) = edit(rt, alloc, disk, 0, Some(*ticket), change);
        same(rt, answer, Err(*want), "an edit");
        disk = left;
    }
    let (text, _) = listing(alloc, disk);
    let text = got(rt, text);
    same(rt, text.as_str(), "count=0 edges=0\n", "the listing");
}

#[test]
fn devices_of_another_length(rt: HostRuntime) {
    let (rt, alloc) = (&rt, rt.alloc());
    let mut short = blank(rt, 10);
    let told = format(&mut short, 5);
    same(rt, told, Err(Fault::DeviceLength), "too short");
    let told = format(&mut short, 0);
    same(rt, told, Err(Fault::NodeCount), "no nodes");
    let (mut old, mut new) = (fresh(rt), blank(rt, 2_371_584));
    let told = migrate(alloc, &mut old, &mut new).err();
    same(rt, told, Some(Fault::DeviceLength), "brought over");
}

// Sees that a device holds the edge and the ticket that are copied, or, where it may be none, is none.
fn expect_copied<R: AllocGlobal + Abort>(rt: &R, disk: MemDisk, may_be_none: bool) {
    let (last, disk) = resume(rt.alloc(), disk, 3);
    let (text, _) = listing(rt.alloc(), disk);
    match (last, text) {
        (Ok(ticket), Ok(text)) => {
            same(rt, ticket, 9, "the ticket");
            same(rt, text.as_str(), "count=1 edges=1\n0 1 7\n", "the listing");
        }
        _ => same(rt, may_be_none, true, "no device"),
    }
}

// Each call of the new device fails in turn, and then a crash comes: nothing is left of it, or the whole. Behind ten calls it is whole.
#[test]
fn copies_of_which_a_call_fails(rt: HostRuntime) {
    let change = got(&rt, Change::new(&[Op::Add(0, 1, 7)]));
    let (answer, mut old) = edit(&rt, rt.alloc(), fresh(&rt), 3, Some(9), change);
    same(&rt, answer, Ok(Verdict::Accepted { count: 1 }), "an edit");
    for call in 1..=11 {
        for word in &CRASH_WORDS {
            let mut new = blank(&rt, DEVICE_LEN);
            new.fail_at(call);
            let (answer, back) = copy_device(rt.alloc(), old, &mut new);
            let whole = Ok(Copied { count: 1, edges: 1 });
            let want = if call > 10 { whole } else { Err(Fault::Device) };
            same(&rt, answer, want, "a copy");
            expect_copied(&rt, new.crash(*word), call < 11);
            old = back;
        }
    }
    for call in 1..4 {
        let mut new = blank(&rt, DEVICE_LEN);
        old.fail_at(call);
        let (answer, back) = copy_device(rt.alloc(), old, &mut new);
        same(&rt, answer, Err(Fault::Device), "an old device");
        let (told, _) = listing(rt.alloc(), new);
        same(&rt, told.err(), Some(Fault::NotFormatted), "the new one");
        old = back;
    }
    let (answer, old) = copy_device(rt.alloc(), old, &mut blank(&rt, 10));
    same(&rt, answer, Err(Fault::DeviceLength), "too short");
    expect_copied(&rt, old, false);
}
