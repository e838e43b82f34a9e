// Runs that are held up: disk, gate, input and output tell one another what came, and each waits for another at the moments that a test names.
use crate::helpers::{
    Setup, count_lines, fresh, got, reopened, run_live, run_script, same, text_of,
};
use crate::tables::NoFiles;
use checkpoint::Store;
use committer_thread::Gate;
use live_service::Served;
use std::alloc::Global;
use std::io::{self, BufReader, Read, Write};
use std::process::Abort;
use std::sync::atomic::{AtomicBool, AtomicU64, Ordering};
use std::sync::{Arc, Wait};
use std::thread;
use std::thread::Threads;
use test_doubles::{BeforeSync, HookedDisk, comes_within};

/// What is counted: lines that were given, and ends of the input; lines that were printed; launches, hops, and the newest generation of a hop;
/// syncs; and files of tables, and those that are right.
#[derive(Clone, Copy, Drop)]
pub(crate) enum Sign {
    Given,
    Ended,
    Printed,
    Launches,
    Hops,
    Newest,
    Syncs,
    Files,
    Right,
}

/// Where a thread may be held up: ahead of a launch or a build, behind a hop, ahead of the sync of this number, counted from 1, or of the line of
/// this number, counted from 0. Opening syncs once, and each commit twice.
#[derive(Clone, Copy, PartialEq, Eq, Drop)]
pub(crate) enum Moment {
    Launch,
    Hop,
    Build,
    Sync(u64),
    Line(u64),
}

/// A moment, and how much has to come before the thread goes on.
pub(crate) type Hold = (Moment, Sign, u64);

// So many turns behind what a sync waited for, in which more may come.
const MORE_TURNS: usize = 20_000;

/// How much has come so far.
#[derive(Default, Drop)]
struct Counts {
    given: AtomicU64,
    ended: AtomicU64,
    printed: AtomicU64,
    bytes: AtomicU64,
    launches: AtomicU64,
    hops: AtomicU64,
    newest: AtomicU64,
    syncs: AtomicU64,
    files: AtomicU64,
    right: AtomicU64,
    looks: AtomicU64,
    // How many lines were given, and bytes printed, when a sync that was held was let go.
    given_then: AtomicU64,
    bytes_then: AtomicU64,
}

/// What has come so far, and what waits for it, for so many turns at most.
#[derive(Drop)]
pub(crate) struct Signs {
    holds: Vec<Hold>,
    turns: usize,
    counts: Counts,
    is_late: AtomicBool,
}

impl Signs {
    pub(crate) fn new(holds: Vec<Hold>, turns: usize) -> Signs {
        Signs {
            holds,
            turns,
            counts: Counts::default(),
            is_late: AtomicBool::new(false),
        }
    }

    fn word(&self, sign: Sign) -> &AtomicU64 {
        match sign {
            Sign::Given => &self.counts.given,
            Sign::Ended => &self.counts.ended,
            Sign::Printed => &self.counts.printed,
            Sign::Launches => &self.counts.launches,
            Sign::Hops => &self.counts.hops,
            Sign::Newest => &self.counts.newest,
            Sign::Syncs => &self.counts.syncs,
            Sign::Files => &self.counts.files,
            Sign::Right => &self.counts.right,
        }
    }

    /// How much has come.
    pub(crate) fn count(&self, sign: Sign) -> u64 {
        self.word(sign).load(Ordering::SeqCst)
    }

    /// One more has come. Gives how many came before.
    pub(crate) fn add(&self, sign: Sign) -> u64 {
        self.word(sign).fetch_add(1, Ordering::SeqCst)
    }

    /// Waits until so much has come, or the turns run out.
    pub(crate) fn awaits(&self, sign: Sign, least: u64) {
        if !comes_within(self.word(sign), least, self.turns) {
            self.is_late.store(true, Ordering::SeqCst);
        }
    }

    // A thread has come to a moment, and waits where it is held. Gives whether it is.
    fn comes_to(&self, moment: Moment) -> bool {
        let mut is_held = false;
        for (at, sign, least) in &self.holds {
            if *at == moment {
                self.awaits(*sign, *least);
                is_held = true;
            }
        }
        is_held
    }

    /// Whether turns ran out.
    pub(crate) fn is_late(&self) -> bool {
        self.is_late.load(Ordering::SeqCst)
    }

    /// How many lines were given, and bytes printed, when a sync that was held was let go.
    pub(crate) fn then(&self) -> (u64, u64) {
        let (given, bytes) = (&self.counts.given_then, &self.counts.bytes_then);
        (given.load(Ordering::SeqCst), bytes.load(Ordering::SeqCst))
    }
}

impl BeforeSync for Signs {
    fn before_sync(&self, number: u64) -> bool {
        self.counts.syncs.store(number, Ordering::SeqCst);
        if self.comes_to(Moment::Sync(number)) {
            for _ in 0..MORE_TURNS {
                thread::yield_now();
            }
            let given = self.counts.given.load(Ordering::SeqCst);
            self.counts.given_then.store(given, Ordering::SeqCst);
            let bytes = self.counts.bytes.load(Ordering::SeqCst);
            self.counts.bytes_then.store(bytes, Ordering::SeqCst);
        }
        true
    }
}

/// A gate that holds up. Its clock comes later at each look, by one more than at the look before.
#[derive(Drop)]
pub(crate) struct HeldGate<'a>(pub(crate) &'a Signs);

impl<'a> Gate for HeldGate<'a> {
    fn before_launch(&self) {
        let _before = self.0.add(Sign::Launches);
        let _held = self.0.comes_to(Moment::Launch);
    }

    fn after_hop(&self, generation: u64) {
        if self.0.count(Sign::Newest) < generation {
            self.0.counts.newest.store(generation, Ordering::SeqCst);
        }
        let _before = self.0.add(Sign::Hops);
        let _held = self.0.comes_to(Moment::Hop);
    }

    fn before_build(&self) {
        let _held = self.0.comes_to(Moment::Build);
    }

    fn micros(&self) -> u64 {
        let looks = self.0.counts.looks.fetch_add(1, Ordering::SeqCst);
        looks.wrapping_mul(looks)
    }
}

/// An input that gives a line a call.
#[derive(Drop)]
struct Lines<'a> {
    rest: &'a [u8],
    signs: Arc<Signs, Global>,
}

impl Read for Lines<'_> {
    fn read(&mut self, buf: &mut [u8]) -> io::Result<usize> {
        let _held = self
            .signs
            .comes_to(Moment::Line(self.signs.count(Sign::Given)));
        let feed = self.rest.iter().position(|byte| *byte == b'\n');
        let line = feed
            .map(|at| at.saturating_add(1))
            .unwrap_or(self.rest.len());
        let count = line.min(buf.len()).min(self.rest.len());
        let (front, rest) = self.rest.split_at(count);
        buf[..count].copy_from_slice(front);
        self.rest = rest;
        let sign = if count == 0 { Sign::Ended } else { Sign::Given };
        let _before = self.signs.add(sign);
        Ok(count)
    }
}

/// An output that counts its lines and bytes.
#[derive(Drop)]
struct Counted<'a> {
    text: Vec<u8>,
    signs: &'a Signs,
}

impl Write for Counted<'_> {
    fn write(&mut self, buf: &[u8]) -> io::Result<usize> {
        self.text.extend_from_slice(buf)?;
        let (bytes, lines) = (buf.len() as u64, count_lines(buf) as u64);
        let _before = self.signs.counts.bytes.fetch_add(bytes, Ordering::SeqCst);
        let _before = self.signs.counts.printed.fetch_add(lines, Ordering::SeqCst);
        Ok(buf.len())
    }

    fn flush(&mut self) -> io::Result<()> {
        Ok(())
    }
}

/// A disk that tells of its syncs.
pub(crate) type ToldDisk = HookedDisk<Arc<Signs, Global>>;

/// A fresh device that tells of its syncs.
pub(crate) fn told_disk<R: AllocGlobal + Abort>(
    rt: &R,
    nodes: u16,
    signs: &Arc<Signs, Global>,
) -> ToldDisk {
    HookedDisk::new(fresh(rt, nodes), got(rt, Arc::try_clone(signs)))
}

/// A run: for how many nodes, how it is set up, what it reads, and what holds it up, for how many turns at most.
#[derive(Clone, Copy)]
pub(crate) struct Play<'a> {
    pub(crate) nodes: u16,
    pub(crate) setup: Setup,
    pub(crate) text: &'a str,
    pub(crate) holds: &'a [Hold],
    pub(crate) turns: usize,
}

/// What came of a run that went to its end.
#[derive(Drop)]
pub(crate) struct Played {
    pub(crate) printed: Vec<u8>,
    pub(crate) store: Store<ToldDisk>,
    pub(crate) signs: Arc<Signs, Global>,
}

impl Play<'_> {
    fn signs<R: AllocGlobal + Abort>(&self, rt: &R) -> Arc<Signs, Global> {
        let holds = got(rt, Vec::from_slice(rt.alloc(), self.holds));
        got(rt, Arc::new(rt.alloc(), Signs::new(holds, self.turns)))
    }

    /// Runs a script.
    pub(crate) fn script<R: AllocGlobal + Abort + Threads + Wait + Sync>(&self, rt: &R) -> Played {
        let signs = self.signs(rt);
        let disk = told_disk(rt, self.nodes, &signs);
        let mut out = Vec::new(rt.alloc());
        let gate = HeldGate(&signs);
        let (status, disk, told) = run_script(rt, disk, &self.setup, self.text, &gate, &mut out);
        same(rt, (status, text_of(rt, &told)), (0, ""), "the end");
        Played {
            printed: out,
            store: reopened(rt, disk),
            signs,
        }
    }

    /// Runs a live service. Nothing comes late.
    pub(crate) fn live<R: AllocGlobal + Abort + Threads + Wait + Sync>(&self, rt: &R) -> Played {
        let signs = self.signs(rt);
        let disk = told_disk(rt, self.nodes, &signs);
        let lines = Lines {
            rest: self.text.as_bytes(),
            signs: got(rt, Arc::try_clone(&signs)),
        };
        let input = got(rt, BufReader::with_capacity(rt.alloc(), 512, lines));
        let mut out = Counted {
            text: Vec::new(rt.alloc()),
            signs: &signs,
        };
        let around = (&HeldGate(&signs), NoFiles);
        let (served, disk, told) = run_live(rt, disk, &self.setup, input, around, &mut out);
        let end = (served, text_of(rt, &told), signs.is_late());
        same(rt, end, (Served::Printed, "", false), "the end");
        Played {
            printed: out.text,
            store: reopened(rt, disk),
            signs,
        }
    }
}
