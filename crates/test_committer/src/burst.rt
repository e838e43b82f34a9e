// Builds beside a burst of edits: which states they are of, by how many rounds one may wait.
ghost use Rattle.std.specs.Prelude.{◌≡◌, [], None, false};
ghost use Rattle.checkpoint.specs.StoreWords.{is_down};
ghost use Rattle.group_commit.specs.DeskWords.{store_of, held_of, due_of};
ghost use Rattle.committer.specs.CommitterWords.{posts_of};
ghost use Rattle.committer_thread.specs.Kept.{IsFresh};
ghost use Rattle.committer_thread.specs.Pace.{IsBegun, IsShown};
ghost use Rattle.request_lists.specs.declared.builds.Builds.TheVariants.{Beside};

use crate::seats::{Shelf, change, got, same, shelf_of};
use committer::Committer;
use committer_thread::{RebuildSchedule, Setting, Site, begun, commit_beside};
use disk_trait::Disk;
use generations::{BoardReader, board};
use graph_edits::Op;
use group_commit::Desk;
use intake::{Editor, SubmitRefused, open_intake};
use new_devices::NoDevices;
use packet_ways::BoardName;
use request_lists::Builds;
use service_actors::{Coordinator, Gate, StopCause, WordSource};
use std::alloc::{AllocError, Global};
use std::marker::{Brand, PhantomData};
use std::process::Abort;
use std::sync::atomic::{AtomicBool, AtomicU64, Ordering};
use std::sync::{Arc, Mutex, Wait};
use std::thread;
use std::thread::Threads;
use test_doubles::{BeforeSync, HookedDisk, comes};

// The path of these nodes has one edge less.
const NODES: u16 = 6;

// With the fifth sync the last edits are taken.
const LAST_SYNC: u64 = 5;

/// What the device and the builds tell each other.
#[derive(Drop)]
struct Signs {
    // Whether the burst has begun, how many syncs there were since, and how many builds.
    is_on: AtomicBool,
    syncs: AtomicU64,
    builds: AtomicU64,
}

/// Builds behind the first one are held until the whole burst is taken.
impl Gate for Signs {
    fn before_launch(&self) {}

    fn after_hop(&self, _generation: u64) {}

    fn before_build(&self) {
        if self.builds.fetch_add(1, Ordering::SeqCst) > 0 {
            let _came = comes(&self.syncs, LAST_SYNC);
        }
    }
}

/// With each sync of the burst the next edit comes to the queue, while there is one. So no round but the last finds it empty.
#[derive(Drop)]
struct Feed<R> {
    rt: R,
    rest: Mutex<Vec<Editor>>,
    signs: Arc<Signs, Global>,
}

impl<R: Wait + Abort> BeforeSync for Feed<R> {
    fn before_sync(&self, _number: u64) -> bool {
        if self.signs.is_on.load(Ordering::SeqCst) {
            let next = self.rest.lock(&self.rt).pop();
            if let Some(mut editor) = next {
                let at = editor.session() as u16;
                submits(&self.rt, &mut editor, Op::Add(at.wrapping_sub(1), at, 1));
            }
            let _before = self.signs.syncs.fetch_add(1, Ordering::SeqCst);
        }
        true
    }
}

// Submits a change of one op under the first ticket.
fn submits<R: Wait + Abort>(rt: &R, editor: &mut Editor, op: Op) {
    let mut change = change(rt, &[op]);
    for _ in rt.forever() {
        match editor.submit(rt, 1, change) {
            Ok(()) => return,
            Err((SubmitRefused::BoardShut, back)) => change = back,
            Err(_) => panic!(rt; "not submitted"),
        }
        thread::yield_now();
    }
}

// Begins the burst once no build goes on and none is due. Behind a change that is refused, which a round takes after the first generation is
// told, that is so.
fn begins<J: BoardName, R: Wait + Abort>(
    rt: &R,
    coordinator: &Coordinator<J>,
    signs: &Signs,
    mut idle: Editor,
    mut first: Editor,
) {
    let _shown = coordinator.shown(rt);
    submits(rt, &mut idle, Op::Cut(0, 1));
    coordinator.ask(rt);
    for _ in rt.forever() {
        if coordinator.standing(rt).queue == 0 {
            break;
        }
        thread::yield_now();
    }
    signs.is_on.store(true, Ordering::SeqCst);
    submits(rt, &mut first, Op::Add(0, 1, 1));
    coordinator.ask(rt);
    coordinator.leave(rt);
}

/// A committer over a device that feeds it.
type Fed<R> = Committer<HookedDisk<Arc<Feed<R>, Global>>, R>;

/// The types by which a burst is committed.
struct Paced<R> {
    of: PhantomData<R>,
}

impl<R: Threads + Wait + Sync> Setting for Paced<R> {
    type Runtime = R;

    type Gate = Signs;

    type Devices = NoDevices;
}

// Commits the burst, with builds beside it, and gives the committer back.
fn commits<'a, J: BoardName + Send + Sync, R: Threads + Wait + Abort + Copy + Drop + Sync>(
    site: &'a Site<'a, J, Paced<R>>,
    committer: Fed<R>,
    rebuilds: RebuildSchedule,
    editors: [Editor; 2],
) -> Fed<R>
    requires opening { (posts_of committer).opening ≡ J.opening }
    requires fresh { IsFresh committer }
    requires begun { IsBegun Beside committer }
{
    let (rt, coordinator, signs) = (site.rt, site.coordinator, site.gate);
    let [idle, first] = editors;
    let (ended, committer) = thread::scope(
        thread::scope_env(),
        rt,
        |scope| -> (Result<bool, StopCause>, Fed<R>)
            requires opening { (posts_of committer).opening ≡ J.opening }
            requires fresh { IsFresh committer }
            requires begun { IsBegun Beside committer }
        {
            let (mut committer, mut rebuilds) = (committer, rebuilds);
            let job = move || begins(rt, coordinator, signs, idle, first);
            if scope.spawn(job).is_err() {
                coordinator.leave(rt);
            }
            let mut devices = NoDevices::new();
            let ended = commit_beside(scope, site, &mut committer, &mut rebuilds, &mut devices);
            (ended, committer)
        },
    );
    same(rt, ended, Ok(true), "the end");
    committer
}

// The same where a build waits for so many rounds at most.
fn commits_by<J: BoardName + Send + Sync, R: Threads + Wait + Abort + Copy + Drop + Sync>(
    rt: &R,
    alloc: Global,
    signs: &Signs,
    committer: Fed<R>,
    editors: [Editor; 2],
    rounds: u32,
) -> Fed<R>
    requires opening { (posts_of committer).opening ≡ J.opening }
    requires fresh { IsFresh committer }
    requires bare { IsShown None committer }
{
    let mut committer = committer;
    let words = WordSource::Same(got(rt, Vec::from_slice(alloc, &[u64::MAX; 6])));
    let rebuilds = RebuildSchedule::new(alloc, words, rounds, Builds::Beside);
    let mut rebuilds = rebuilds.ok().expect(rt, "memory");
    match begun::<J, _, R, R>(rt, alloc, &mut committer, &mut rebuilds, 1) {
        Ok(coordinator) => {
            let site: Site<J, Paced<R>> = Site {
                rt,
                alloc,
                coordinator: &coordinator,
                gate: signs,
            };
            commits(&site, committer, rebuilds, editors)
        }
        Err(_) => panic!(rt; "not begun"),
    }
}

// Looks at a board.
fn looks(rt: &impl Abort, reader: BoardReader) -> Shelf {
    let look = reader.look().ok().expect(rt, "a look");
    let shelf = shelf_of(look.board());
    let _reader = look.leave();
    shelf
}

// A desk over a device that feeds it.
fn desk_of<D: Disk + Drop>(rt: &impl Abort, alloc: Global, disk: D) -> Desk<D>
    ensures held { held_of result ≡ [] }
    ensures due { due_of result ≡ None }
    ensures up { is_down (store_of result) ≡ false }
{
    Desk::new(test_doubles::opened(alloc, disk).ok().expect(rt, "opened"))
}

// The generations of a burst of five edits where a build waits for so many rounds at most.
fn generations<R: Threads + Wait + Abort + Copy + Drop + Sync>(
    rt: R,
    alloc: Global,
    rounds: u32,
) -> Result<Shelf, AllocError> {
    let signs = got(
        &rt,
        Arc::new(
            alloc,
            Signs {
                is_on: AtomicBool::new(false),
                syncs: AtomicU64::new(0),
                builds: AtomicU64::new(0),
            },
        ),
    );
    let feed = Feed {
        rt,
        rest: Mutex::new(Vec::new(alloc)),
        signs: got(&rt, Arc::try_clone(&signs)),
    };
    let feed = got(&rt, Arc::new(alloc, feed));
    let disk = got(&rt, test_doubles::formatted(alloc, NODES));
    let disk = HookedDisk::new(disk, got(&rt, Arc::try_clone(&feed)));
    let desk = desk_of(&rt, alloc, disk);
    let (starts, count) = (desk.starts(), desk.store().count());
    let (writer, mut readers) = board(alloc, rt, 7, &starts, count)?;
    let reader = readers.pop().expect(&rt, "a reader");
    let (taker, mut editors) = open_intake(alloc, 64, readers, &starts)?;
    for _ in 2..NODES {
        let editor = editors.pop().expect(&rt, "an editor");
        got(&rt, feed.rest.lock(&rt).push(editor));
    }
    let first = editors.pop().expect(&rt, "an editor");
    let idle = editors.pop().expect(&rt, "an editor");
    let committer = Committer::new(desk, taker, writer);
    let _committer = commits_by::<Brand, R>(&rt, alloc, &signs, committer, [idle, first], rounds);
    Ok(looks(&rt, reader))
}

// A commit syncs twice, so the rounds take one edit, two, and two, and then there is none. A build begins behind each round that ends
// while none goes on, behind every second one, or once no edit waits. While it is held the others are taken, and the next one has them.
#[test]
fn builds_of_a_burst(rt: HostRuntime) {
    let rows: [(u32, Shelf); 3] = [
        (1, [Some(0), Some(1), Some(5), None]),
        (2, [Some(0), Some(3), Some(5), None]),
        (16, [Some(0), Some(5), None, None]),
    ];
    for (rounds, want) in &rows {
        let found = got(&rt, generations(rt, rt.alloc(), *rounds));
        same(&rt, found, *want, "the generations");
    }
}
