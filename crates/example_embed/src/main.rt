//! A program that uses the crates without the command line. It keeps a network on a disk in memory, makes a change that is on that
//! disk before it is answered, and carries a packet by the tables of the network.
#![tactic(auto)]

use checkpoint::{DEVICE_LEN, Store, format};
use disk_trait::MemDisk;
use graph_edits::{Change, Op};
use group_commit::Desk;
use requests::Request;
use scheme_builds::scheme_of;
use std::process::ExitCode;

/// None where memory or standard output was refused.
fn run(rt: &HostRuntime) -> Option<()> {
    let alloc = rt.alloc();
    let mut disk = MemDisk::new(alloc, DEVICE_LEN).ok()?;
    format(&mut disk, 3).ok()?;
    let mut desk = Desk::new(Store::open(alloc, disk).ok()?);

    // One change of two operations, the path 0 1 2, under the session's next ticket.
    let change = Change::new(&[Op::Add(0, 1, 1), Op::Add(1, 2, 1)]).ok()?;
    let ticket = desk.resume(0).checked_add(1)?;
    let request = Request {
        session: 0,
        ticket,
        change,
    };
    if desk.is_next(&request) {
        desk.give(request);
        println!(rt; "accepted changes: {}", desk.commit(alloc).ok()?).ok()?;
    }

    // The tables with node 1 as landmark, and the way of a packet from node 0 to node 2.
    let (graph, count) = (desk.store().graph(), desk.store().count());
    let scheme = scheme_of(alloc, graph, &[u64::MAX, 0, u64::MAX], count, alloc).ok()?;
    let trail = scheme.carry(alloc, 0, &scheme.address(2).ok()?).ok()?;
    println!(rt; "length of the way: {}", trail.length).ok()
}

fn main(rt: HostRuntime) -> ExitCode {
    match run(&rt) {
        Some(()) => ExitCode::SUCCESS,
        None => ExitCode::FAILURE,
    }
}
