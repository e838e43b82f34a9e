// Editors and forwarders in threads of their own, beside the committer.
ghost use Rattle.std.specs.Prelude.{◌≡◌, ◌<◌};
ghost use Rattle.committer.specs.CommitterWords.{posts_of};

use crate::builds::trip;
use crate::seats::{AT_TWO, Left, Seats, armed, change, got, left, rebuild, round, same};
use committer::{Committer, Round};
use disk_trait::{MemDisk, Plan};
use forwarders::{Forwarder, Refused};
use generations::{BoardReader, Told};
use graph_edits::Op;
use intake::{Editor, SubmitRefused};
use linked_list_allocator::LocalHeap;
use std::alloc::Global;
use std::process::Abort;
use std::snapshot::Snapshot;
use std::sync::Wait;
use std::thread::{self, Promise, Threads};

/// How many packets each forwarder sends.
const TRIPS: usize = 200;

// Submits so many changes of an edge's weight behind this ticket, each as soon as the last one is settled: whether nothing else refused any.
fn asks<R: Wait + Abort>(
    rt: &R,
    mut editor: Editor,
    nodes: (u16, u16),
    before: u64,
    changes: u32,
) -> bool {
    let ((from, to), mut done) = (nodes, 0u32);
    for _ in rt.forever() {
        if done >= changes {
            break;
        }
        let change = change(rt, &[Op::Set(from, to, done.wrapping_add(100))]);
        let ticket = before.wrapping_add(done as u64).wrapping_add(1);
        match editor.submit(rt, ticket, change) {
            Ok(()) => done += 1,
            Err((SubmitRefused::Busy | SubmitRefused::QueueFull, _)) => thread::yield_now(),
            Err(_) => return false,
        }
    }
    true
}

// Sends packets: how many went over the path to the end, none in an older generation than one before. A packet whose generation
// has left is sent again.
fn sends(forwarder: &mut Forwarder) -> usize {
    let (mut sent, mut least) = (0usize, 1u64);
    for _ in 0..1_000_000u32 {
        match trip(forwarder) {
            Ok((newest, 1234)) if newest >= least && sent < TRIPS => {
                least = newest;
                sent += 1;
            }
            Err(Refused::GenerationGone | Refused::BoardShut) => thread::yield_now(),
            _ => return sent,
        }
    }
    sent
}

// Sends packets, and then looks until this generation is shown: how many packets went, and how often there was no board, or an older one than
// what was told or seen.
fn sends_and_looks(mut forwarder: Forwarder, last: u64) -> (usize, usize) {
    let sent = sends(&mut forwarder);
    let (mut least, mut wrong) = (1u64, 0usize);
    for _ in 0..u64::MAX {
        match forwarder.latest() {
            Ok(Some(number)) => {
                wrong = wrong.saturating_add((number < least) as usize);
                least = number;
                if number >= last {
                    break;
                }
            }
            _ => wrong = wrong.saturating_add(1),
        }
    }
    (sent, wrong)
}

/// The forwarder that comes back is of the board of which it was told.
#[derive(Drop)]
struct OfOneBoard {
    told: Snapshot<Told>,
}

impl Promise<(Forwarder, bool)> for OfOneBoard {
    ghost use Rattle.std.specs.Prelude.{◌≡◌};

    ghost kept_by = { λ p r. r.0.opening ≡ p.told.value.opening };
}

// Learns what was told, and looks at once: whether that generation is shown, or the one that is posted meanwhile.
fn learns_and_looks(forwarder: Forwarder, told: Told, before: u64, next: u64) -> (Forwarder, bool)
    requires { told.opening ≡ forwarder.opening }
    ensures { result.0.opening ≡ told.opening }
{
    let mut forwarder = forwarder;
    forwarder.learn(&told);
    let shown = forwarder.latest();
    (
        forwarder,
        shown == Ok(Some(before)) || shown == Ok(Some(next)),
    )
}

// Builds and posts a generation, while the forwarder looks that was told of all before: it sees that, or the new one.
fn builds_beside<R: Threads + Wait + Abort + Drop>(
    rt: &R,
    alloc: Global,
    committer: &mut Committer<MemDisk, R>,
    heap: &LocalHeap,
    forwarder: Forwarder,
    before: u64,
) -> Forwarder
    requires { forwarder.opening ≡ (posts_of committer.old).opening }
    ensures opening { (posts_of committer.new).opening ≡ (posts_of committer.old).opening }
    ensures forwarder { result.opening ≡ (posts_of committer.old).opening }
{
    let (told, next) = (committer.told(), committer.store().count());
    let promise = OfOneBoard {
        told: Snapshot::of(&told),
    };
    let job = move || -> (Forwarder, bool)
        requires { told.opening ≡ forwarder.opening }
        ensures { result.0.opening ≡ told.opening }
    { learns_and_looks(forwarder, told, before, next) };
    let Ok(look) = thread::spawn_with(rt, promise, job) else {
        panic!(rt; "no thread");
    };
    let built = rebuild(alloc, committer, &AT_TWO, heap);
    same(rt, built, Ok(next), "a rebuild");
    let (forwarder, well) = look.join(rt);
    same(rt, (next, well), (next, true), "a look");
    forwarder
}

// Whether the last ticket of each session is the one that was its last before, or the next one. It is its last one then.
fn follow<R: Wait + Drop>(committer: &Committer<MemDisk, R>, last: &mut [u64; 4]) -> bool {
    let mut fine = true;
    for session in 0..4u8 {
        let now = committer.store().resume(session);
        if let Some(before) = last.get_mut(session as usize) {
            fine = fine && (now == *before || now == before.wrapping_add(1));
            *before = now;
        }
    }
    fine
}

// Rounds, and a generation behind each that takes something, until there are so many changes. Each session's tickets come one by one.
fn commits<R: Threads + Wait + Abort + Drop>(
    rt: &R,
    alloc: Global,
    committer: &mut Committer<MemDisk, R>,
    heap: &LocalHeap,
    forwarder: Forwarder,
    changes: u64,
)
    requires { forwarder.opening ≡ (posts_of committer.old).opening }
    ensures { (posts_of committer.new).opening ≡ (posts_of committer.old).opening }
{
    let mut forwarder = forwarder;
    let mut last = [1, 0, 0, 0u64];
    for _ in rt.forever() {
        let before = committer.store().count();
        if before >= changes {
            break;
        }
        match round(rt, alloc, committer) {
            Ok(Round { taken: 0, .. }) => thread::yield_now(),
            Ok(_) => forwarder = builds_beside(rt, alloc, committer, heap, forwarder, before),
            Err(_) => panic!(rt; "a round"),
        }
        same(rt, follow(committer, &mut last), true, "the tickets");
    }
    let (taken, accepted) = (0, 0);
    let nothing = round(rt, alloc, committer);
    same(
        rt,
        nothing,
        Ok(Round { taken, accepted }),
        "nothing is left",
    );
}

// A first change, of which all are told.
fn begun<R: Wait + Abort + Copy + Drop>(
    rt: R,
    alloc: Global,
    heap: &LocalHeap,
    places: usize,
) -> Seats<R>
    requires { 0 < places }
{
    let mut at = armed(rt, alloc, places, Plan::None);
    at.changes(&rt, alloc, 1);
    at.builds(&rt, alloc, heap, 1);
    at.hears(1);
    at.forwarders_hear();
    at
}

// What the board and the store have in the end, read back by one who was told of it.
fn reads_back<R: Wait + Abort + Drop>(
    rt: &R,
    committer: Committer<MemDisk, R>,
    reader: BoardReader,
    want: ((u64, u64, u64), Left),
)
    requires { reader.all.opening ≡ (posts_of committer).opening }
{
    let told = committer.told();
    let (on_board, in_store) = want;
    let mut reader = reader;
    reader.learn(&told);
    let look = got(rt, reader.look());
    let board = look.board();
    let found = (board.count(), board.accepted(0), board.accepted(1));
    same(rt, found, on_board, "the board");
    look.leave();
    same(rt, left(&committer.into_store()), in_store, "the store");
}

/// How many places the queue has, how many changes each editor asks for, and what is read back.
type Run = (usize, [u32; 4], ((u64, u64, u64), Left));

const MANY: ((u64, u64, u64), Left) = (
    (4097, 1025, 1024),
    (4097, 1025, 4, [Some(1123), Some(1123)]),
);

const RUNS: [Run; 3] = [
    (
        1,
        [20, 20, 0, 0],
        ((41, 21, 20), (41, 21, 4, [Some(119), Some(119)])),
    ),
    (1, [1024; 4], MANY),
    (64, [1024; 4], MANY),
];

#[test]
fn editors_and_forwarders_beside_the_committer(rt: HostRuntime) {
    let alloc = rt.alloc();
    let heap = got(&rt, LocalHeap::new(alloc, 1_048_576));
    for (places, changes, want) in &RUNS {
        let Seats {
            mut committer,
            first,
            second,
            others: [third, fourth],
            one,
            two,
            three,
            reader,
        } = begun(rt, alloc, &heap, (*places).max(1));
        let ([a, b, c, d], last) = (*changes, want.0.0);
        let first = got(
            &rt,
            thread::spawn(&rt, move || asks(&rt, first, (0, 1), 1, a)),
        );
        let second = got(
            &rt,
            thread::spawn(&rt, move || asks(&rt, second, (2, 3), 0, b)),
        );
        let third = got(
            &rt,
            thread::spawn(&rt, move || asks(&rt, third, (1, 2), 0, c)),
        );
        let fourth = got(
            &rt,
            thread::spawn(&rt, move || asks(&rt, fourth, (3, 4), 0, d)),
        );
        let one = got(&rt, thread::spawn(&rt, move || sends_and_looks(one, last)));
        let two = got(&rt, thread::spawn(&rt, move || sends_and_looks(two, last)));
        commits(&rt, alloc, &mut committer, &heap, three, last);
        let asked = [
            first.join(&rt),
            second.join(&rt),
            third.join(&rt),
            fourth.join(&rt),
        ];
        same(&rt, asked, [true; 4], "the editors' changes");
        let sent = (one.join(&rt), two.join(&rt));
        same(&rt, sent, ((TRIPS, 0), (TRIPS, 0)), "the forwarders");
        reads_back(&rt, committer, reader, *want);
    }
}
