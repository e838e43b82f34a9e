// `tables FOLDER` while edits go on, with files in memory, which are compared with the tables of a scheme that is built here. What is put
// between edits, and where a file can't be made, is in conformance/table_bytes.txt and live_tables.txt.
ghost use Rattle.std.specs.Prelude.{[], map};

use crate::helpers::{got, run_live, same, text_of};
use crate::stage::{HeldGate, Sign, Signs, told_disk};
use command_output::Fault;
use disk_trait::Log;
use graph_edits::Graph;
use live_service::Served;
use router_table::RouterTable;
use scheme_builds::scheme_of;
use schemes::Scheme;
use std::alloc::Global;
use std::io::{self, BufReader, Read};
use std::process::Abort;
use std::sync::{Arc, Wait};
use std::thread;
use std::thread::Threads;
use table_files::{TableFile, TableFiles};

/// A place that takes no file.
#[derive(Clone, Copy, Drop)]
pub(crate) struct NoFiles;

impl TableFiles for NoFiles {
    ghost use Rattle.std.specs.Prelude.{[]};

    ghost puts = { λ _. [] };

    fn put(&mut self, _file: TableFile) -> Result<(), Fault> {
        Err(Fault::TableFile)
    }
}

/// A place that holds files against those that should come. The first file waits for a hop in this generation.
#[derive(Drop)]
struct HeldFiles {
    want: Vec<TableFile>,
    signs: Arc<Signs, Global>,
    generation: u64,
    // For contracts alone.
    put: Log<TableFile>,
}

impl TableFiles for HeldFiles {
    ghost use Rattle.std.specs.Prelude.{map};
    ghost use Rattle.table_files.specs.Files.{put_of};

    ghost puts = { λ held. map put_of held.put.items };

    fn put(&mut self, file: TableFile) -> Result<(), Fault> {
        let place = self.signs.add(Sign::Files);
        if place == 0 {
            self.signs.awaits(Sign::Newest, self.generation);
        }
        if self.want.get(place as usize) == Some(&file) {
            let _before = self.signs.add(Sign::Right);
        }
        self.put = self.put.with_entry(&file);
        Ok(())
    }
}

// The tables of the scheme of five nodes without edges, with the landmark 2.
fn wanted_files<R: AllocGlobal + Abort>(rt: &R) -> Vec<TableFile> {
    let alloc = rt.alloc();
    let graph = got(rt, Graph::empty(alloc, 5));
    let words = [u64::MAX, u64::MAX, 0, u64::MAX, u64::MAX];
    let scheme: Scheme = got(rt, scheme_of(alloc, &graph, &words, 0, &alloc));
    let mut files = Vec::new(alloc);
    for node in 0..5u16 {
        let table = got(rt, RouterTable::of(alloc, &scheme, node));
        let path = got(rt, format!(in alloc; "/out/{node}.table"));
        let bytes = got(rt, table.write(alloc));
        got(rt, files.push(TableFile { path, bytes }));
    }
    files
}

const EDITS: [&[u8]; 4] = [
    b"edit 0 - add:0:1:1\n",
    b"edit 0 - set:0:1:2\n",
    b"edit 0 - set:0:1:3\n",
    b"edit 0 - set:0:1:4\n",
];

// So many lines at most: the window has 1,024.
const MOST_LINES: usize = 900;

/// An input that asks for tables, and once the first file has come makes so many edits, each once a route was in the generation of the
/// one before; then it asks for routes until one was in the last generation. A line a call.
#[derive(Drop)]
struct Pressing {
    signs: Arc<Signs, Global>,
    edits: usize,
    made: usize,
    lines: usize,
}

impl Pressing {
    fn has_hopped(&self, least: usize) -> bool {
        self.signs.count(Sign::Newest) >= least as u64
    }

    // What comes behind the first line.
    fn next_line(&mut self) -> &'static [u8] {
        let edits = EDITS.get(..self.edits).unwrap_or(&[]);
        match edits.get(self.made) {
            Some(edit) if self.has_hopped(self.made) => {
                self.made = self.made.wrapping_add(1);
                *edit
            }
            _ => b"route 0 1\n",
        }
    }
}

impl Read for Pressing {
    fn read(&mut self, buf: &mut [u8]) -> io::Result<usize> {
        let line: &[u8] = if self.lines == 0 {
            b"tables /out\n"
        } else {
            self.signs.awaits(Sign::Files, 1);
            self.next_line()
        };
        for _ in 0..2_000 {
            thread::yield_now();
        }
        let is_done = self.made >= self.edits && self.has_hopped(self.edits);
        if is_done || self.lines >= MOST_LINES || buf.len() < line.len() {
            return Ok(0);
        }
        self.lines = self.lines.wrapping_add(1);
        buf[..line.len()].copy_from_slice(line);
        Ok(line.len())
    }
}

// Sees that edits and hops go on while the first file is written, until the newest generation is this many edits old; and how the
// line of tables is answered then, and how many files of generation 0 are there.
fn expect_held<R: AllocGlobal + Abort + Threads + Wait + Sync>(
    rt: &R,
    edits: usize,
    want: &str,
    count: u64,
) {
    let alloc = rt.alloc();
    let signs = got(rt, Arc::new(alloc, Signs::new(Vec::new(alloc), 4_000_000)));
    let tables = HeldFiles {
        want: wanted_files(rt),
        signs: got(rt, Arc::try_clone(&signs)),
        generation: edits as u64,
        put: Log::new(),
    };
    let lines = Pressing {
        signs: got(rt, Arc::try_clone(&signs)),
        edits,
        made: 0,
        lines: 0,
    };
    let input = got(rt, BufReader::with_capacity(alloc, 4096, lines));
    let setup = ("at:2", (1, 1, 4), 1);
    let mut out = Vec::new(alloc);
    let disk = told_disk(rt, 5, &signs);
    let around = (&HeldGate(&signs), tables);
    let (served, _disk, told) = run_live(rt, disk, &setup, input, around, &mut out);
    let end = (served, text_of(rt, &told), signs.is_late());
    same(rt, end, (Served::Printed, "", false), "the end");
    let mut printed = text_of(rt, &out).split('\n');
    same(rt, printed.next(), Some(want), "the tables");
    let mut printed = printed.filter(|line| line.contains("accepted"));
    for number in 1..edits.wrapping_add(1) {
        let accepted = got(rt, format!(in alloc; "0 {number} accepted count={number}"));
        same(rt, printed.next(), Some(accepted.as_str()), "an edit");
    }
    let files = (signs.count(Sign::Files), signs.count(Sign::Right));
    same(rt, files, (count, count), "files, and those that are right");
}

// The line that tells of the tables of all nodes: 118 bytes each, and 113 of the landmark, by docs/FORMATS.md.
const TABLES: &str = "generation=0 tables=5 bytes=585 greatest=118";

// The shelf has four generations: with the third edit the first generation is the oldest of them, and with the fourth it is gone.
#[test]
fn tables_while_edits_go_on(rt: HostRuntime) {
    expect_held(&rt, 1, TABLES, 5);
    expect_held(&rt, 3, TABLES, 5);
    expect_held(&rt, 4, "generation gone", 1);
}
