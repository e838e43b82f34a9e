// Commands on real files: devices that are held, the longest path, and a table that is replaced while it is read.
use crate::helpers::{Step, got, same};
use commands::run_words_at;
use device_files::DeviceFile;
use std::fs::File;
use std::io::{self, Read};
use std::process::Abort;
use std::rt::{Clock, Files};
use std::sync::Wait;
use std::thread::Threads;
use std::{env, fs, process};
use table_files::SystemTables;

/// A folder of one test's own.
fn make_folder(rt: &HostRuntime, test: &str) -> io::Result<String> {
    let base = env::temp_dir(rt)?;
    let id = process::id(rt.process());
    let folder = format!(in rt.alloc(); "{}/tznode-{id}-{test}", base.as_str())?;
    let _absent = fs::remove_dir_all(rt, folder.as_str());
    fs::create_dir(rt, folder.as_str())?;
    Ok(folder)
}

// A text with the folder in the place of each `@`.
fn placed<R: AllocGlobal + Abort>(rt: &R, folder: &str, text: &str) -> String {
    let mut whole = String::new(rt.alloc());
    for (place, part) in text.split('@').enumerate() {
        if place > 0 {
            got(rt, whole.push_str(folder));
        }
        got(rt, whole.push_str(part));
    }
    whole
}

// Runs the program for each step of a script, with the folder in the place of `@`.
fn expect_script<R: Files<File = File> + AllocGlobal + Abort + Clock + Threads + Wait + Sync>(
    rt: &R,
    folder: &str,
    script: &str,
)
where
    R::Dir: Send,
{
    for text in script.split('\n') {
        let step = Step::read(rt, text);
        let line = placed(rt, folder, step.line);
        let words: Vec<&str> = got(rt, line.as_str().split(' ').collect(rt.alloc()));
        let (mut out, mut err) = (Vec::new(rt.alloc()), Vec::new(rt.alloc()));
        let mut tables = SystemTables::new(rt);
        let status = run_words_at(
            rt,
            &mut tables,
            &words,
            &mut io::empty(),
            &mut out,
            &mut err,
        );
        step.expect(rt, (status, &out, &err));
    }
}

/// The script that makes a device of five nodes with an edge.
const MADE: &str = "format @/d 5 -> 0 formatted nodes=5
edit @/d add:0:1:1 -> 0 accepted count=1";

// Where the device is held alone, each command says so.
const IN_USE: &str = "show @/d -> 1 tznode: device in use
resume @/d 0 -> 1 tznode: device in use
route @/d 0 1 --words none -> 1 tznode: device in use
check @/d --words none -> 1 tznode: device in use
copy @/d @/d -> 1 tznode: device in use
edit @/d add:1:2:1 -> 1 tznode: device in use
serve @/d --words none -> 1 tznode: device in use
format @/d 7 -> 1 tznode: device in use
migrate @/d @/new -> 1 tznode: device in use";

// Where it is held by a reader, those that only read go on.
const READ_BY_ANOTHER: &str = "show @/d -> 0 count=1 edges=1|0 1 1
resume @/d 0 -> 0 session=0 ticket=1
route @/d 0 1 --words none -> 0 generation=1 route 0 1 length 1
check @/d --words none -> 0 ok generation=1 landmarks=0
copy @/d @/d -> 1 tznode: device file cannot be used
edit @/d add:1:2:1 -> 1 tznode: device in use
serve @/d --words none -> 1 tznode: device in use
format @/d 7 -> 1 tznode: device in use";

const FREE_AGAIN: &str = "edit @/d add:1:2:1 -> 0 accepted count=2
show @/d -> 0 count=2 edges=2|0 1 1|1 2 1";

// A lock is that of an open file. No byte of what is held changes, and it can be edited once it is free.
#[test]
fn devices_that_are_held(rt: HostRuntime) {
    let rt = &rt;
    for is_read in [false, true] {
        let folder = got(rt, make_folder(rt, "devices_that_are_held"));
        let folder = folder.as_str();
        let d = placed(rt, folder, "@/d");
        let d = d.as_str();
        expect_script(rt, folder, MADE);
        let before = got(rt, fs::read(rt, d));
        let file = if is_read {
            DeviceFile::open_to_read(rt, d)
        } else {
            DeviceFile::open(rt, d)
        };
        same(rt, file.is_ok(), true, "the lock");
        expect_script(rt, folder, if is_read { READ_BY_ANOTHER } else { IN_USE });
        same(rt, got(rt, fs::read(rt, d)) == before, true, d);
        let new = placed(rt, folder, "@/new");
        same(
            rt,
            got(rt, fs::exists(rt, new.as_str())),
            false,
            "a new device",
        );
        drop(file);
        expect_script(rt, folder, FREE_AGAIN);
        got(rt, fs::remove_dir_all(rt, folder));
    }
}

// The longest path of 4,096 nodes, made in 256 changes, with a landmark at each 64th node. Expected lines are worked out by hand.
#[test]
fn path_of_4096_nodes(rt: HostRuntime) {
    let rt = &rt;
    let folder = got(rt, make_folder(rt, "path_of_4096_nodes"));
    let mut script = got(
        rt,
        String::from_str(rt.alloc(), "format @/d 4096 -> 0 formatted nodes=4096"),
    );
    for group in 0..256u16 {
        got(rt, write!(script, "\nedit @/d"));
        for node in group * 16..(group * 16 + 16).min(4095) {
            got(
                rt,
                write!(script, " add:{node}:{}:1000000", node.saturating_add(1)),
            );
        }
        got(rt, write!(script, " -> 0 accepted count={}", group + 1));
    }
    let mut words = got(rt, format!(in rt.alloc(); "--words at:63"));
    for landmark in 1..64u16 {
        got(rt, write!(words, ",{}", landmark * 64 + 63));
    }
    let words = words.as_str();
    got(
        rt,
        write!(
            script,
            "\ncheck @/d {words} -> 0 ok generation=256 landmarks=64"
        ),
    );
    got(
        rt,
        write!(
            script,
            "\nroute @/d 0 4095 {words} -> 0 generation=256 route"
        ),
    );
    for node in 0..4096 {
        got(rt, write!(script, " {node}"));
    }
    got(rt, script.push_str(" length 4095000000"));
    expect_script(rt, folder.as_str(), script.as_str());
    got(rt, fs::remove_dir_all(rt, folder.as_str()));
}

const OLD: &str = "format @/d 5 -> 0 formatted nodes=5
edit @/d add:0:1:1 add:1:2:1 add:2:3:1 add:3:4:1 -> 0 accepted count=1
tables @/d @ --words at:2 -> 0 generation=1 tables=5 bytes=689 greatest=146";

const NEW: &str = "tables @/d @ --words none -> 0 generation=1 tables=5 bytes=974 greatest=198";

// A reader that is half through a file when it is replaced reads the old one to its end. conformance/table_bytes.txt has the bytes of both.
#[test]
fn table_replaced_while_it_is_read(rt: HostRuntime) {
    let rt = &rt;
    let folder = got(rt, make_folder(rt, "table_replaced_while_it_is_read"));
    let folder = folder.as_str();
    expect_script(rt, folder, OLD);
    let path = placed(rt, folder, "@/3.table");
    let old = got(rt, fs::read(rt, path.as_str()));
    let mut reader = got(rt, File::open(rt, path.as_str()));
    let mut front = [0u8; 70];
    got(rt, reader.read_exact(&mut front));
    expect_script(rt, folder, NEW);
    let mut read = got(rt, Vec::from_slice(rt.alloc(), &front));
    got(rt, reader.read_to_end(&mut read));
    same(rt, read == old, true, "what was read");
    let new = got(rt, fs::read(rt, path.as_str()));
    same(rt, (old.len(), new.len()), (140, 196), "the new file");
    got(rt, fs::remove_dir_all(rt, folder));
}
