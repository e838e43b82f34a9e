// The program on devices in memory.
use crate::helpers::{Step, got, lines_of, same, text_of};
use checkpoint::DEVICE_LEN;
use command_output::{Fault, WatchedWriter};
use commands::{Access, At, DeviceLog, Devices, Streams, run_on};
use device_commands::format;
use disk_trait::{Log, MemDisk};
use new_devices::NoDevices;
use std::alloc::Global;
use std::io::{self, ErrorKind, Read, Write};
use std::process::Abort;
use std::rt::Clock;
use std::sync::Wait;
use std::thread::Threads;
use table_files::{Progress, TableFile, TableFiles, WatchedTables};
use test_doubles::NarrowWriter;

// Devices in memory: by the path `three` a fresh one of three nodes, and by any other one of zeros. Each opening gives a new one.
#[derive(Drop)]
struct MemoryDevices {
    alloc: Global,
    done: DeviceLog<MemDisk>,
}

impl Devices for MemoryDevices {
    ghost use Rattle.file_commands.specs.Events.{events_in};

    type Device = MemDisk;

    ghost opened = { λ path access disk. Unit {0} };

    ghost events = { λ devices. events_in devices.done };

    fn open(&mut self, path: &str, access: Access) -> Result<MemDisk, Fault> {
        match disk_by(self.alloc, path) {
            Some(disk) => {
                self.done.opened(path, access, &disk);
                Ok(disk)
            }
            None => {
                self.done.not_had(path, access);
                Err(Fault::DeviceFile)
            }
        }
    }

    fn close(&mut self, disk: MemDisk) {
        self.done.closed(&disk);
    }
}

// A disk, if there is memory.
fn disk_by(alloc: Global, path: &str) -> Option<MemDisk> {
    let mut disk = MemDisk::new(alloc, DEVICE_LEN).ok()?;
    if path == "three" {
        format(&mut disk, 3).ok()?;
    }
    Some(disk)
}

// A place for files that takes so many.
#[derive(Drop)]
struct FewFiles {
    left: usize,
    // For contracts alone.
    put: Log<TableFile>,
}

impl TableFiles for FewFiles {
    ghost use Rattle.std.specs.Prelude.{map};
    ghost use Rattle.table_files.specs.Files.{put_of};

    ghost puts = { λ few. map put_of few.put.items };

    fn put(&mut self, file: TableFile) -> Result<(), Fault> {
        if self.left == 0 {
            return Err(Fault::TableFile);
        }
        self.left -= 1;
        self.put = self.put.with_entry(&file);
        Ok(())
    }
}

// How many tables a run told.
#[derive(Drop)]
struct Heard(usize);

impl Progress for Heard {
    fn came_to(&mut self, tables: usize) {
        self.0 = tables;
    }
}

// The end of an input, or, where it is so, a fault.
#[derive(Drop)]
struct End(bool);

impl Read for End {
    fn read(&mut self, _buf: &mut [u8]) -> io::Result<usize> {
        if self.0 {
            Err(io::Error::from(ErrorKind::BrokenPipe))
        } else {
            Ok(0)
        }
    }
}

// Commands, with what they read behind ` < `: `!` is where that fails, and `~` a byte that begins no character.
const ROWS: &str = "show three -> 0 count=0 edges=0
resume three 0 -> 0 session=0 ticket=0
edit three add:0:1:7 -> 0 accepted count=1
edit three set:0:1:7 -> 1 refused op=0 code=5
serve three --words none --editors 1 < 0 add:0:1:7|route 0 3 -> 0 accepted count=1|no node
tables three out --words none -> 1 tznode: table file cannot be written
format zeros 3 -> 0 formatted nodes=3
migrate zeros three -> 1 tznode: not formatted
copy three zeros -> 0 copied count=0 edges=0
copy zeros three -> 1 tznode: not formatted
format zeros 3 --new -> 0 formatted nodes=3";

// Whoever runs the program looks for these words before: for the grammar they are no command.
const HELP: &str = "help -> 2 tznode: usage
help show -> 2 tznode: usage
--help -> 2 tznode: usage
version -> 2 tznode: usage
--version -> 2 tznode: usage";

// A script is read to its end before it is judged and before the device is opened, and no other command reads one.
const BROKEN: &str = "serve three --words none < ! -> 1 tznode: input or output failed
serve three --words none < 0 cut:0:1|! -> 1 tznode: input or output failed
serve three --words none < 0 cut:0:1|~|! -> 1 tznode: input or output failed
serve zeros --words none < 0 cut:0:1|! -> 1 tznode: input or output failed
serve three --words at: < ! -> 2 tznode: words not understood
serve three --words at: --editors 0 < ! -> 2 tznode: usage
show three < ! -> 0 count=0 edges=0
edit three cut:0:2 < ! -> 1 refused op=0 code=5";

// The bytes of what is read.
fn script_of<R: AllocGlobal + Abort>(rt: &R, input: &str) -> Vec<u8> {
    let mut script = Vec::new(rt.alloc());
    for byte in lines_of(rt, input).as_bytes() {
        match *byte {
            b'!' => {}
            b'~' => got(rt, script.push(0xff)),
            other => got(rt, script.push(other)),
        }
    }
    script
}

// Runs a command on such devices, where so many files can be put. Gives the status, what was told, and how many tables.
fn run_line<R: AllocGlobal + Abort + Clock + Threads + Wait + Sync, O: Write>(
    rt: &R,
    line: &str,
    files: usize,
    out: &mut O,
) -> (u8, Vec<u8>, usize) {
    let alloc = rt.alloc();
    let (line, input) = line.split_once(" < ").unwrap_or((line, "|"));
    let words: Vec<&str> = got(rt, line.split(' ').collect(alloc));
    let script = script_of(rt, input);
    let mut script = script.as_slice().chain(End(input.contains('!')));
    let mut err = Vec::new(alloc);
    let mut streams = Streams {
        script: &mut script,
        out,
        err: WatchedWriter::new(&mut err),
    };
    let mut devices = MemoryDevices {
        alloc,
        done: DeviceLog::new(),
    };
    let few = FewFiles {
        left: files,
        put: Log::new(),
    };
    let mut heard = Heard(0);
    let mut tables = WatchedTables::new(few, &mut heard);
    let mut backups = NoDevices::new();
    let at = At::new(&mut devices, &mut backups, &mut tables);
    let outcome = run_on(rt, at, &words, &mut streams);
    drop(streams);
    drop(tables);
    (outcome.status(), err, heard.0)
}

// Each command answers for the device of its path.
#[test]
fn commands_answer_for_the_device_of_their_path(rt: HostRuntime) {
    let rt = &rt;
    for rows in [ROWS, HELP, BROKEN] {
        for row in rows.split('\n') {
            let step = Step::read(rt, row);
            let mut out = Vec::new(rt.alloc());
            let (status, told, _) = run_line(rt, step.line, 0, &mut out);
            step.expect(rt, (status, &out, &told));
        }
    }
}

// A writer that takes nothing, one that takes all but the last byte, and one that takes all and can't be flushed.
#[test]
fn outputs_that_fail(rt: HostRuntime) {
    let rt = &rt;
    for row in ROWS.split('\n') {
        let step = Step::read(rt, row);
        let most = step.printed.len();
        for (left, flushes) in [(0, u64::MAX), (most.saturating_sub(1), u64::MAX), (most, 0)] {
            let mut out = NarrowWriter::new(rt.alloc(), left, flushes);
            let (status, told, _) = run_line(rt, step.line, 0, &mut out);
            if most > 0 {
                let want = (1, "tznode: input or output failed\n");
                same(rt, (status, text_of(rt, &told)), want, step.line);
            }
        }
    }
}

// A table that can't be put ends the command, and each that was put was told.
#[test]
fn tables_that_are_put(rt: HostRuntime) {
    let rt = &rt;
    for files in 0..5usize {
        let mut out = Vec::new(rt.alloc());
        let line = "tables three out --words none";
        let (status, told, heard) = run_line(rt, line, files, &mut out);
        let want = if files < 3 {
            (1, "tznode: table file cannot be written\n", files)
        } else {
            (0, "", 3)
        };
        same(rt, (status, text_of(rt, &told), heard), want, line);
    }
}
