// What the tests share: devices, worlds, lives as tables of their steps, and what a report shows; texts that are rehearsals.
ghost use Rattle.rehearsal_syntax.specs.Grammar.{IsRehearsal};

use checkpoint::{DEVICE_LEN, OpenRefused};
use crash_trials::{
    Call, Kind, KindCount, Stop, StopFound, Watched, calls_of_last, count_stops, stops_of,
    table_of, try_every_stop, try_stop, try_stops,
};
use disk_trait::{CrashDisk, Disk, MemDisk, Plan};
use event_model::{Event, Reply};
use forwarders::Refused as RouteRefused;
use generations::{Mark, Verdict};
use graph_edits::{Change, Code, Graph, Op};
use group_commit::{Desk, DeskRefused};
use intake::{Outcome, SubmitRefused};
use interleave::World;
use life_chain::{Life, LifeReport, LivesReport, lives, lives_in_memory, lives_on};
use rand_core::{Rng, SeedableRng};
use rand_xoshiro::Xoshiro256PlusPlus;
use rehearsal_syntax::{Form, LineRefused, RehearsalLine, read_rehearsal};
use rehearsals::{
    NotOpenedLine, Rehearsal, RehearseRefused, ReplyLine, lives_of, rehearse, report_text,
};
use requests::WORN_LIMIT;
use sample_networks::{Edge, PlainGraph};
use std::alloc::{AllocError, AllocGlobal};
use std::fmt::Debug;
use std::process::Abort;

mod drawn;
mod ends;
mod memory;
mod runs;
mod slow_machine;
mod table;
mod trials;

use runs::Drawer;
use slow_machine::{SlowMachine, State};

// A path of five nodes.
const PATH: [Op; 4] = [
    Op::Add(0, 1, 1),
    Op::Add(1, 2, 1),
    Op::Add(2, 3, 1),
    Op::Add(3, 4, 1),
];

// The steps by which an edge is added.
const ADDS: [Step; 3] = [
    Step::Submit(0, 1, &[Op::Add(0, 1, 1)]),
    Step::Take,
    Step::Commit,
];

// What a life opened to: the count, the number of edges, the weight of 0-1, and the last ticket of session 0.
type Shown = (u64, usize, Option<u32>, u64);

// What a device opens to that has no change.
const NOTHING: Shown = (0, 0, None, 0);

// Words that make node 2 a landmark.
const AT_TWO: [u64; 3] = [u64::MAX, u64::MAX, 0];

// What a test stands on: what ends it, and memory.
trait Host: Abort + AllocGlobal {}

impl<R: Abort + AllocGlobal> Host for R {}

// An event of a table. A rebuild is by words that make node 2 a landmark.
#[derive(Clone, Copy)]
enum Step<'a> {
    Submit(u8, u64, &'a [Op]),
    Look(u8, usize),
    Take,
    Commit,
    Post,
    Rebuild,
    Launch(u16, u16, usize),
    Hop,
}

// A life of a table: its landmark words, its steps, which call of the device fails, and what the crash leaves. It has one session, and a
// queue of one place.
type Asked<'a> = (&'a [u64], &'a [Step<'a>], Plan, u64);

// A life that only opens.
const OPENING: Asked<'static> = (&[], &[], Plan::None, 0);

// The value of an answer that has to have one.
fn got<T, E: Drop>(rt: &impl Abort, answer: Result<T, E>) -> T {
    match answer {
        Ok(value) => value,
        Err(_) => panic!(rt; "no value"),
    }
}

// Sees that two values are the same.
fn same<T: Copy + PartialEq + Debug>(rt: &impl Abort, found: T, want: T, name: &str) {
    assert_eq!(rt; found, want, "{name}");
}

// The answer of a call, which is made again where memory was refused.
fn again<T, F: FnMut() -> Result<T, AllocError>>(rt: &impl Abort, mut call: F) -> T
    requires { F.IsAlwaysCallable call }
{
    match call() {
        Ok(answer) => answer,
        Err(_) => got(rt, call()),
    }
}

// A device for so many nodes.
fn formatted(rt: &impl Host, nodes: u16) -> MemDisk {
    got(rt, test_doubles::formatted(rt.alloc(), nodes))
}

// Where the checkpoint of a fresh device has its count.
const COUNT: usize = 4105;

// A world over a fresh device for so many nodes, but for its count, with so many sessions and places; made once more where memory was
// refused.
fn world_of(rt: &impl Host, nodes: u16, count: u64, seats: (usize, usize)) -> World<MemDisk> {
    let (sessions, capacity) = seats;
    again(rt, || {
        assert!(rt; 1 <= sessions && sessions <= 64 && 1 <= capacity && capacity <= 64);
        let mut disk = formatted(rt, nodes);
        let put = test_doubles::put(&mut disk, COUNT, &count.to_be_bytes());
        got(rt, put);
        let store = test_doubles::opened(rt.alloc(), disk).ok();
        let desk = Desk::new(store.expect(rt, "a store"));
        World::new(rt.alloc(), desk, sessions, capacity)
    })
}

// What one event is answered. It is run once more where memory was refused.
fn answer(rt: &impl Host, world: &mut World<MemDisk>, event: &[Event]) -> Reply {
    for _ in 0..2u8 {
        let replies = world.run(rt.alloc(), event).ok();
        match replies.and_then(|replies| replies.first().copied()) {
            None | Some(Reply::Memory) => {}
            Some(reply) => return reply,
        }
    }
    panic!(rt; "memory")
}

// The events of a table, made again where memory was short.
fn events_of(rt: &impl Host, steps: &[Step]) -> Vec<Event> {
    again(rt, || {
        let mut events = Vec::new(rt.alloc());
        for step in steps {
            events.push(match *step {
                Step::Submit(session, ticket, ops) => Event::Submit {
                    session,
                    ticket,
                    change: got(rt, Change::new(ops)),
                },
                Step::Look(session, at) => Event::Look { session, at },
                Step::Take => Event::Take,
                Step::Commit => Event::Commit,
                Step::Post => Event::Post,
                Step::Rebuild => Event::Rebuild {
                    words: Vec::from_slice(rt.alloc(), &AT_TWO)?,
                },
                Step::Launch(from, to, at) => Event::Launch { from, to, at },
                Step::Hop => Event::Hop { packet: 0, at: 0 },
            })?;
        }
        Ok(events)
    })
}

// The lives of a table, made again where memory was short.
fn lives_in(rt: &impl Host, asked: &[Asked]) -> Vec<Life> {
    again(rt, || {
        let mut all = Vec::new(rt.alloc());
        for (words, steps, plan, word) in asked {
            all.push(Life {
                sessions: 1,
                capacity: 1,
                words: Vec::from_slice(rt.alloc(), words)?,
                events: events_of(rt, steps),
                plan: *plan,
                word: *word,
            })?;
        }
        Ok(all)
    })
}

// The lives of a device, each of which opens.
fn lived(rt: &impl Host, disk: MemDisk, asked: &[Life]) -> LivesReport {
    let report = got(rt, lives(rt.alloc(), disk, asked));
    same(rt, report.refused, None, "refused");
    same(rt, report.lives.len(), asked.len(), "lives");
    report
}

// What a life opened to, whose rebuild has to answer its count.
fn shown(report: &LivesReport, place: usize) -> Option<Shown> {
    let life = report.lives.get(place)?;
    let count = life.count;
    if life.rebuilt != (Reply::Rebuilt { generation: count }) {
        return None;
    }
    let graph = &life.graph;
    Some((count, graph.edges(), graph.weight(0, 1), life.tickets[0]))
}

// Sees what a disk opens to.
fn opens_to(rt: &impl Host, disk: MemDisk, want: Shown) {
    let report = lived(rt, disk, &lives_in(rt, &[OPENING]));
    same(rt, shown(&report, 0), Some(want), "what it opens to");
}

// The lines of a text that is a rehearsal. It is read again where memory was refused.
fn read(rt: &impl Host, text: &str) -> Vec<RehearsalLine>
    ensures { IsRehearsal result.items }
{
    for _ in 0..2 {
        if let Ok(Ok(lines)) = read_rehearsal(rt.alloc(), text) {
            return lines;
        }
    }
    panic!(rt; "no rehearsal: {text}")
}

// The rehearsal that a text asks for.
fn asked_in(rt: &impl Host, text: &str) -> Rehearsal {
    for _ in 0..2 {
        if let Ok(Some(rehearsal)) = lives_of(rt.alloc(), read(rt, text)) {
            return rehearsal;
        }
    }
    panic!(rt; "nothing is asked for: {text}")
}

const ONE_CHANGE: &str = "device 5
life sessions=1 places=4 words=none crash=1
submit 0 1 add:0:1:1
take
commit
";

const fn kind(found: u64, acknowledged: u64, opened: u64) -> Kind {
    Kind {
        found,
        acknowledged,
        opened,
    }
}
