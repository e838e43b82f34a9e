// Lines and faults as texts that no command of conformance/ prints. Expected texts are those of docs/FORMATS.md.
use crate::helpers::{got, same};
use command_output::{
    BrokenLine, Ended, Fault, FaultWriter, TablesLine, WatchedWriter, print_line, tell,
};
use std::alloc::AllocError;
use std::fmt::Display;
use std::process::Abort;

fn expect_line<R: AllocGlobal + Abort, L: Display + Drop>(rt: &R, line: L, text: &str) {
    let mut out = Vec::new(rt.alloc());
    same(rt, print_line(&mut out, line), Ok(()), text);
    same(rt, out.as_slice(), text.as_bytes(), text);
}

#[test]
fn texts_of_lines(rt: HostRuntime) {
    let rt = &rt;
    let tables = TablesLine {
        generation: 1,
        tables: 2,
        bytes: 18_446_744_073_709_551_616,
        greatest: 140,
    };
    let text = "generation=1 tables=2 bytes=18446744073709551616 greatest=140\n";
    expect_line(rt, tables, text);
    expect_line(rt, BrokenLine { check: "K4" }, "fault K4\n");
    same(rt, Ended::Done.status(), 0, "done");
    same(rt, Ended::Refused.status(), 1, "refused");
}

// Each fault that no step of conformance/ has, its text and its status.
const FAULTS: [(Fault, &str, u8); 7] = [
    (Fault::DeviceLength, "device length is wrong", 1),
    (Fault::DeviceInUse, "device in use", 1),
    (Fault::Device, "device failed", 1),
    (Fault::Memory, "out of memory", 1),
    (Fault::NoThread, "out of memory", 1),
    (Fault::Internal, "input or output failed", 1),
    (Fault::Output, "input or output failed", 1),
];

#[test]
fn texts_of_faults(rt: HostRuntime) {
    let (rt, alloc) = (&rt, rt.alloc());
    for (fault, text, status) in &FAULTS {
        let (fault, text) = (*fault, *text);
        let shown = got(rt, format!(in alloc; "{fault}"));
        same(rt, shown.as_str(), text, "its text");
        same(rt, fault.status(), *status, text);
        let line = got(rt, format!(in alloc; "tznode: {text}\n"));
        let mut err = Vec::new(alloc);
        got(rt, tell(&mut err, fault));
        same(rt, err.as_slice(), line.as_str().as_bytes(), text);
        let mut watched = Vec::new(alloc);
        got(rt, WatchedWriter::new(&mut watched).tell(fault));
        same(rt, watched.as_slice(), line.as_str().as_bytes(), text);
        let mut short = [0; 8];
        assert!(rt; WatchedWriter::new(&mut short[..]).tell(fault).is_err());
        same(rt, short.as_slice(), "tznode: ".as_bytes(), text);
    }
    same(rt, Fault::from(AllocError), Fault::Memory, "no memory");
}
