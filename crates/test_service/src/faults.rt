// Each call of the device failing, and outputs that refuse. Devices that are refused, and limits that are met, are in conformance/live_ends.txt.
use crate::helpers::{
    Setup, beginning_of, count_lines, fresh, plain_live, plain_script, reopened, same, text_of,
};
use command_output::Fault;
use disk_trait::CrashDisk;
use live_service::Served;
use std::process::Abort;
use std::sync::Wait;
use std::thread::Threads;
use test_doubles::NarrowWriter;

const SETUP: Setup = ("none", (2, 2, 2), 16);

const SCRIPT: &str = "0 add:0:1:1\n0 add:1:2:1\nroute 0 0\n0 add:2:3:1\n0 add:3:4:1";

const LINES: &str =
    "nothing\nresume 0\nedit 0 - add:0:1:1\nroute 9 9\nedit 0 - add:1:2:1\nedit 0 - add:1:2:1\nedit 0 - add:2:3:1\nhop 1 00\nedit 0 - add:3:4:1\nresume 0\n";

const ANSWERS: &str =
    "not understood\nsession=0 ticket=0\n0 1 accepted count=1\nno node\n0 2 accepted count=2\n0 3 refused op=0 code=4\n0 4 accepted count=3\nbad length\n0 5 accepted count=4\nsession=0 ticket=5\n";

const FAILED: &str = "tznode: device failed\n";

// How many edits stand as accepted in the whole lines of a text.
fn accepted_in(text: &str) -> u64 {
    let lines = count_lines(text.as_bytes());
    text.split('\n')
        .take(lines)
        .filter(|line| line.contains("accepted"))
        .count() as u64
}

// Whether a script fails with this call of the device: then with the device's fault and no line. Gives what a crash leaves, too.
fn script_fails_at<R: AllocGlobal + Abort + Threads + Wait + Sync>(rt: &R, call: u64) -> bool {
    let mut disk = fresh(rt, 5);
    disk.fail_at(call);
    let mut out = Vec::new(rt.alloc());
    let (status, disk, told) = plain_script(rt, disk, &SETUP, SCRIPT, &mut out);
    if status != 0 {
        let found = (status, text_of(rt, &out), text_of(rt, &told));
        same(rt, found, (1, "", FAILED), "a call that fails");
    }
    let count = beginning_of(rt, disk.crash(256), 4);
    same(rt, count <= 4, true, "at most four changes");
    status != 0
}

// Whether a live service fails with it: then with the fault, told once, and with a beginning of the answers, at least those of the first two lines
// unless nothing was read. A beginning of the path is left, with all that was accepted.
fn live_fails_at<R: AllocGlobal + Abort + Threads + Wait + Sync>(rt: &R, call: u64) -> bool {
    let mut disk = fresh(rt, 5);
    disk.fail_at(call);
    let mut out = Vec::new(rt.alloc());
    let (served, disk, told) = plain_live(rt, disk, &SETUP, LINES, &mut out);
    let (printed, told) = (text_of(rt, &out), text_of(rt, &told));
    same(rt, ANSWERS.starts_with(printed), true, printed);
    let count = beginning_of(rt, disk.crash(256), 4);
    let holds = accepted_in(printed) <= count && count <= 4;
    same(rt, holds, true, printed);
    if served == Served::Printed {
        same(rt, (printed, told), (ANSWERS, ""), "no call failed");
        return false;
    }
    let found = (served, told);
    let want = (Served::Told(Fault::Device), FAILED);
    same(rt, found, want, "a call that fails");
    let is_whole = printed.is_empty() || printed.ends_with('\n');
    let found = (is_whole, count_lines(&out) != 1);
    same(rt, found, (true, true), printed);
    true
}

// In a script, and in lines all at once.
#[test]
fn each_device_call_fails(rt: HostRuntime) {
    for is_live in [false, true] {
        let mut failed = 0;
        for call in 1..60u64 {
            let fails = if is_live {
                live_fails_at(&rt, call)
            } else {
                script_fails_at(&rt, call)
            };
            if !fails {
                break;
            }
            failed = call;
        }
        // Four commits take sixteen calls, and the opening some more.
        same(&rt, failed > 16 && failed < 59, true, "calls that fail");
    }
}

const PUT: &str = "tznode: input or output failed\n";

// A writer that takes nothing, one that takes all 34 bytes but the last, and one that takes all and can't be flushed.
const OUTPUTS: [(usize, u64); 3] = [(0, u64::MAX), (33, u64::MAX), (34, 0)];

// What couldn't be printed was done all the same.
#[test]
fn scripts_whose_output_refuses(rt: HostRuntime) {
    let rt = &rt;
    let setup = ("at:0", (2, 2, 64), 16);
    for (left, flushes) in &OUTPUTS {
        let mut out = NarrowWriter::new(rt.alloc(), *left, *flushes);
        let text = "0 add:0:1:1\n0 set:0:1:2";
        let (status, disk, told) = plain_script(rt, fresh(rt, 5), &setup, text, &mut out);
        same(rt, (status, text_of(rt, &told)), (1, PUT), "told");
        let store = reopened(rt, disk);
        let graph = store.graph();
        let found = (
            store.count(),
            graph.edges(),
            store.resume(0),
            graph.weight(0, 1),
        );
        same(rt, found, (2, 1, 2, Some(2)), "what was done");
    }
}

const EDITS: &str =
    "edit 0 - add:0:1:1\n?\nedit 0 - add:1:2:1\nroute 7 7\nedit 0 - add:2:3:1\nresume 0\n";

const EDITED: &str =
    "0 1 accepted count=1\nnot understood\n0 2 accepted count=2\nno node\n0 3 accepted count=3\nsession=0 ticket=3\n";

// Runs a live service on an output that takes so many bytes and flushes: what was printed is a beginning of the answers, and what was accepted in it is
// on the device. Gives whether all is printed.
fn is_printed<R: AllocGlobal + Abort + Threads + Wait + Sync>(
    rt: &R,
    left: usize,
    flushes: u64,
) -> bool {
    let setup = ("at:0", (2, 2, 4), 4);
    let mut out = NarrowWriter::new(rt.alloc(), left, flushes);
    let (served, disk, told) = plain_live(rt, fresh(rt, 5), &setup, EDITS, &mut out);
    let (printed, told) = (text_of(rt, &out.taken), text_of(rt, &told));
    same(rt, EDITED.starts_with(printed), true, printed);
    let count = beginning_of(rt, disk, 3);
    let fits = accepted_in(printed) <= count && count <= 3;
    same(rt, fits, true, "what was accepted");
    let all = served == Served::Printed;
    let want = if all {
        (Served::Printed, "", EDITED)
    } else {
        (Served::Told(Fault::Output), PUT, printed)
    };
    same(rt, (served, told, printed), want, "the end");
    all
}

// Each seventh byte as the first that isn't taken, and then none. That something can't be printed is told. Of flushes the first ones work, and no more;
// how many there are depends on when answers come.
#[test]
fn services_whose_output_refuses(rt: HostRuntime) {
    for left in (0..EDITED.len()).step_by(7) {
        let all = is_printed(&rt, left, u64::MAX);
        same(&rt, all, false, "a narrow output");
    }
    let wide = is_printed(&rt, EDITED.len(), u64::MAX);
    same(&rt, wide, true, "a wide output");
    same(&rt, is_printed(&rt, usize::MAX, 0), false, "no flush");
    for flushes in 1..5u64 {
        let _all = is_printed(&rt, usize::MAX, flushes);
    }
}
