// The engine's threads: the committer in the caller's, and one for each editor, each forwarder, the waiter and tables.
ghost use Rattle.std.specs.Prelude.{◌≡◌, [], All, IfOk, IfSome, IsErrOf, IsTrue, None, Ok, OnOk, List, map, true, vec_len, ◌<◌, ◌≤◌};
ghost use Rattle.atomic_table.specs.Seated.{TableId};
ghost use Rattle.requests.specs.Tickets.{last_of};
ghost use Rattle.requests.specs.declared.request.Request.{Request};
ghost use Rattle.layout_2.specs.State.{State};
ghost use Rattle.intake.specs.Turns.{of};
ghost use Rattle.checkpoint.specs.StoreWords.{state_of, view_of};
ghost use Rattle.request_lists.specs.declared.builds.Builds.{Builds};
ghost use Rattle.request_lists.specs.Posted.{ArePosted};
ghost use Rattle.committer.specs.CommitterWords.{got_of, posts_of, queue_of, store_of, taker_of};
ghost use Rattle.committer.specs.Listed.{IsListedFrom, StaysListedSo};
ghost use Rattle.committer_thread.specs.Config.{IsServiceConfig};
ghost use Rattle.committer_thread.specs.Kept.{HasLostDevice, HasSettledFrom, IsFresh, IsOnCourse, KeepsQueue, PostsAlong};
ghost use Rattle.committer_thread.specs.Pace.{IsBegun, IsShown, IsUpToDate};
ghost use Rattle.live_service.specs.ServedList.{EndsServed, builds_of};
ghost use Rattle.line_workers.specs.Submits.{AreAllEditors, ComesBack, HasNoted};
ghost use Rattle.live_service.specs.Noting.{AreJoined};
ghost use Rattle.live_service.specs.Taken.{TakesNoMore};

use crate::around::Around;
use crate::ending::{Ending, Joined};
use crate::opened::{EngineParts, Opened, Places, PlacesOf};
use checkpoint::Store;
use committer::Committer;
use committer_thread::{RebuildSchedule, ServiceConfig, Site, begun, commit_all, commit_beside};
use disk_trait::Disk;
use generations::{BoardReader, History};
use group_commit::Desk;
use intake::{Editor, Taker, open_intake};
use line_exchange::{LineQueues, Noted, Stream};
use line_workers::{TablesReader, Workplace, edit_lines, forward_lines, table_lines, wait_lines};
use packet_ways::BoardName;
use put_lines::PutLines;
use request_lists::Builds;
use requests::SESSIONS;
use service_actors::{BoardForwarder, Gate, SessionEditor, StopCause};
use std::alloc::{AllocError, Global};
use std::marker::PhantomData;
use std::snapshot::Snapshot;
use std::sync::Wait;
use std::thread;
use std::thread::{JoinHandle, Promise, PromisedHandle, Scope, Threads};
use table_files::TableFiles;

/// The editors, the forwarders, and where tables are put and new devices made, with a reader for tables, at the board that `B` names.
#[derive(Drop)]
pub struct Actors<B: BoardName, P> {
    pub editors: Vec<SessionEditor<B>>,
    pub forwarders: Vec<BoardForwarder<B>>,
    pub places: P,
    pub reader: TablesReader<B>,
}

// What an editor's thread answers: the editor that it was given, where that comes back, and which line put which of its requests.
#[derive(Drop)]
struct EditorPromise<J: Stream, B: BoardName> {
    editor: Snapshot<SessionEditor<B>>,
    of: PhantomData<J>,
}

impl<J: Stream, B: BoardName> Promise<Option<(SessionEditor<B>, Noted)>> for EditorPromise<J, B> {
    ghost use Rattle.std.specs.Prelude.{IfSome};
    ghost use Rattle.line_workers.specs.Submits.{ComesBack};

    ghost kept_by = { λ p r. IfSome r (λ e. ComesBack J.book J.input J.editors p.editor.value.editor e.0.editor e.1) };
}

// Starts the editors' threads. Where one can't be made all stop.
fn start_editors<'s, E, J: Stream + Send + Sync, B: BoardName + Send + Sync + 's, R: Wait + Sync>(
    scope: &Scope<'s, E>,
    here: &'s Workplace<'s, J, B, R>,
    editors: Vec<SessionEditor<B>>,
    handles: &mut Vec<PromisedHandle<Option<(SessionEditor<B>, Noted)>, EditorPromise<J, B>>>,
)
    requires fresh { All (λ e. e.put ≡ []) (map (λ e. e.editor) editors.items) }
    requires none { handles.old.items ≡ [] }
    // They are at the editors' queue.
    ensures queue { (q : TableId) → All (λ e. e.queue ≡ q) (map (λ e. e.editor) editors.items)
        → All (λ h. h.promise.editor.value.editor.queue ≡ q) handles.new.items }
{
    for editor in editors {
        if handles.len() == handles.capacity() {
            return;
        }
        let promise: EditorPromise<J, B> = EditorPromise {
            editor: Snapshot::of(&editor),
            of: PhantomData,
        };
        let job = move || -> Option<(SessionEditor<B>, Noted)>
            requires { editor.editor.put ≡ [] }
            ensures { IfSome result (λ e. ComesBack J.book J.input J.editors editor.editor e.0.editor e.1) }
        { edit_lines(here, editor) };
        match scope.spawn_with(promise, job) {
            Ok(handle) => handles.push_reserved(handle),
            Err(_) => {
                here.coordinator.stop(here.rt, StopCause::NoThread);
                return;
            }
        }
    }
}

// Starts the forwarders' threads. Where one can't be made all stop.
fn start_forwarders<
    's,
    E,
    J: Stream + Send + Sync,
    B: BoardName + Send + Sync,
    G: Gate + Sync,
    R: Wait + Sync,
>(
    scope: &Scope<'s, E>,
    here: &'s Workplace<'s, J, B, R>,
    gate: &'s G,
    forwarders: Vec<BoardForwarder<B>>,
    handles: &mut Vec<JoinHandle<()>>,
) {
    let mut place: usize = 0;
    for forwarder in forwarders {
        if handles.len() == handles.capacity() {
            return;
        }
        let job = move || forward_lines(here, gate, forwarder, place);
        match scope.spawn(job) {
            Ok(handle) => handles.push_reserved(handle),
            Err(_) => {
                here.coordinator.stop(here.rt, StopCause::NoThread);
                return;
            }
        }
        place = place.saturating_add(1);
    }
}

// Starts the thread that puts tables. Where it can't be made all stop.
fn start_tables<
    's,
    E,
    J: Stream + Send + Sync,
    B: BoardName + Send + Sync,
    T: TableFiles + Drop + Send + 's,
    R: Wait + Sync,
>(
    scope: &Scope<'s, E>,
    here: &'s Workplace<'s, J, B, R>,
    tables: T,
    reader: TablesReader<B>,
    handles: &mut Vec<JoinHandle<()>>,
) {
    if handles.len() == handles.capacity() {
        return;
    }
    let job = move || table_lines(here, tables, reader);
    match scope.spawn(job) {
        Ok(handle) => handles.push_reserved(handle),
        Err(_) => here.coordinator.stop(here.rt, StopCause::NoThread),
    }
}

// Starts the waiter's thread. Where it can't be made all stop.
fn start_waiter<'s, E, J: Stream + Send + Sync, B: BoardName + Send + Sync, R: Wait + Sync>(
    scope: &Scope<'s, E>,
    here: &'s Workplace<'s, J, B, R>,
) -> Option<JoinHandle<()>> {
    match scope.spawn(move || wait_lines(here)) {
        Ok(handle) => Some(handle),
        Err(_) => {
            here.coordinator.stop(here.rt, StopCause::NoThread);
            None
        }
    }
}

// Whether all that an editor put has been taken: the mark of its last ticket is on the board. The editor ends.
fn has_left_none<B: BoardName, D: Disk, Q: Wait + Drop>(
    board: &History,
    committer: &mut Committer<D, Q>,
    editor: SessionEditor<B>,
) -> bool
    requires opening { board.now.opening ≡ B.opening }
    requires posted { (builds : Builds) × (first : State) × ArePosted builds first (got_of committer.old) board.now.log }
    requires queue { editor.editor.queue ≡ queue_of committer.old }
    ensures taken { result ≡ true → editor.editor.put ≡ of editor.editor.session (got_of committer.old) }
    ensures same { TakesNoMore committer.old committer.new }
{
    let known = editor.known();
    let _watcher = committer.end(editor.into_editor());
    board.covers(&known)
}

// What was noted of the requests of the first sessions, with an editor more, where it is that of the next session and all that it put has
// been taken.
fn joined_next<J: Stream, B: BoardName, D: Disk, Q: Wait + Drop>(
    served: bool,
    board: &History,
    committer: &mut Committer<D, Q>,
    ended: Joined,
    back: Option<(SessionEditor<B>, Noted)>,
) -> Joined
    requires opening { served ≡ true → board.now.opening ≡ B.opening }
    requires posted { (builds : Builds) × (first : State) × ArePosted builds first (got_of committer.old) board.now.log }
    requires queue { IfSome back (λ e. e.0.editor.queue ≡ queue_of committer.old) }
    requires noted { IfSome back (λ e. HasNoted J.book J.input J.editors e.0.editor e.1) }
    requires book { ended.lines.book ≡ J.book }
    ensures more { (got : List Request) → got ≡ got_of committer.old
        → AreJoined J.book J.input J.editors got ended → AreJoined J.book J.input J.editors got result }
    ensures same { TakesNoMore committer.old committer.new }
{
    let Some((editor, noted)) = back else {
        return ended;
    };
    let session = editor.session() as usize;
    if !served || session != ended.count || session >= SESSIONS {
        return ended;
    }
    if !has_left_none::<B, D, Q>(board, committer, editor) {
        return ended;
    }
    let mut puts = ended.puts;
    puts[session] = noted.number;
    Joined {
        count: session + 1,
        puts,
        lines: ended.lines.learn(&noted.lines),
    }
}

#[tactic(auto, using(crate::proofs::Noting::none_joined))]
// Joins the editors' threads. For how many sessions, from 0, the editor came back and all that it put has been taken, and what was noted.
fn joined_editors<J: Stream, B: BoardName, D: Disk, Q: Wait + Drop, R: Threads + Wait>(
    rt: &R,
    served: bool,
    board: &History,
    committer: &mut Committer<D, Q>,
    handles: Vec<PromisedHandle<Option<(SessionEditor<B>, Noted)>, EditorPromise<J, B>>>,
    lines: PutLines,
) -> Joined
    requires opening { served ≡ true → board.now.opening ≡ B.opening }
    requires posted { (builds : Builds) × (first : State) × ArePosted builds first (got_of committer.old) board.now.log }
    requires queue { All (λ h. h.promise.editor.value.editor.queue ≡ queue_of committer.old) handles.items }
    requires lines { lines.book ≡ J.book }
    ensures joined { AreJoined J.book J.input J.editors (got_of committer.old) result }
    ensures store { store_of committer.new ≡ store_of committer.old }
{
    let mut ended = Joined {
        count: 0,
        puts: [0; SESSIONS],
        lines,
    };
    for handle in handles {
        let back = handle.join(rt);
        ended = joined_next::<J, B, D, Q>(served, board, committer, ended, back);
    }
    ended
}

// Joins the threads. Behind a fault the waiter sleeps until no answer comes any more; else it answers its lines first.
fn joined<J: Stream, B: BoardName, R: Threads + Wait>(
    here: &Workplace<J, B, R>,
    handles: Vec<JoinHandle<()>>,
    waiter: Option<JoinHandle<()>>,
) {
    for handle in handles {
        handle.join(here.rt);
    }
    if here.coordinator.stopped(here.rt) {
        here.exchange.end(here.rt);
    }
    if let Some(handle) = waiter {
        handle.join(here.rt);
    }
}

// Why the threads stopped, if they did, and else what was posted. What the committer itself met goes before what another thread met; of
// the device it alone knows. If nothing stopped them, all editors have left and all that they put was taken, or two parts disagree.
fn ended(
    own: Result<bool, StopCause>,
    cause: Option<StopCause>,
    all_taken: bool,
    ending: Ending,
) -> Result<Ending, StopCause>
    ensures device { IsErrOf result StopCause.Device → IsErrOf own StopCause.Device }
    ensures ending { IfOk result (λ e. e ≡ ending) }
    ensures own { OnOk result (own ≡ Ok true) }
    ensures all { OnOk result (all_taken ≡ true) }
{
    match (own, cause) {
        (Err(cause), _) => Err(cause),
        (Ok(_), Some(StopCause::Device)) => Err(StopCause::Internal),
        (Ok(_), Some(cause)) => Err(cause),
        (Ok(true), None) if all_taken => Ok(ending),
        (Ok(_), None) => Err(StopCause::Internal),
    }
}

// Commits what editors submit, makes the backups that are asked for, and builds tables in turn with that or beside it, as the input has it.
fn commit_lines<'s, E, J: Stream, B: BoardName + Send + Sync, A: Around, Q: Wait + Drop>(
    scope: &Scope<'s, E>,
    here: &'s Workplace<'s, J, B, A::Runtime>,
    gate: &'s A::Gate,
    committer: &mut Committer<A::Device, Q>,
    rebuilds: &mut RebuildSchedule,
    devices: &mut A::Devices,
) -> Result<bool, StopCause>
    requires opening { (posts_of committer.old).opening ≡ B.opening }
    requires fresh { IsFresh committer.old }
    requires begun { IsBegun (builds_of J.input) committer.old }
    requires builds { rebuilds.old.builds ≡ builds_of J.input }
    ensures settled { HasSettledFrom committer.old committer.new }
    ensures device { IsErrOf result StopCause.Device → HasLostDevice committer.old committer.new }
    ensures listed { StaysListedSo (builds_of J.input) committer.old committer.new }
    ensures posted { PostsAlong (builds_of J.input) committer.old committer.new }
    ensures queue { KeepsQueue committer.old committer.new }
    ensures all { OnOk result (IsOnCourse (builds_of J.input) committer.old committer.new) }
    ensures opening { OnOk result ((posts_of committer.new).opening ≡ B.opening) }
    ensures up_to_date { IfOk result (λ left. IsTrue left → IsUpToDate committer.new) }
{
    let (rt, alloc) = (here.rt, here.alloc);
    match rebuilds.builds {
        Builds::InTurn => {
            return commit_all::<B, A::Device, Q, A::Devices, A::Runtime>(
                rt,
                alloc,
                here.coordinator,
                committer,
                rebuilds,
                devices,
            );
        }
        Builds::Beside => {}
    }
    let site: Site<'s, B, A> = Site {
        rt,
        alloc,
        coordinator: here.coordinator,
        gate,
    };
    commit_beside(scope, &site, committer, rebuilds, devices)
}

// Runs the threads of all seats, the committer in the caller's, and gives the store back.
fn run_seats<'a, J: Stream + Send + Sync, B: BoardName + Send + Sync, A: Around, Q: Wait + Drop>(
    here: &'a Workplace<'a, J, B, A::Runtime>,
    gate: &'a A::Gate,
    committer: Committer<A::Device, Q>,
    seats: Actors<B, PlacesOf<A>>,
    rebuilds: RebuildSchedule,
) -> (Result<Ending, StopCause>, Store<A::Device>)
    requires opening { (posts_of committer).opening ≡ B.opening }
    requires fresh { IsFresh committer }
    requires listed { IsListedFrom (builds_of J.input) (state_of (store_of committer)) committer }
    requires begun { IsBegun (builds_of J.input) committer }
    requires editors { AreAllEditors (taker_of committer) (map (λ e. e.editor) seats.editors.items) }
    requires builds { rebuilds.builds ≡ builds_of J.input }
    ensures { EndsServed B.opening J.Stream (store_of committer) result.0 (view_of result.1) }
{
    thread::scope(
        thread::scope_env(),
        here.rt,
        |scope| -> (Result<Ending, StopCause>, Store<A::Device>)
            requires opening { (posts_of committer).opening ≡ B.opening }
            requires fresh { IsFresh committer }
            requires listed { IsListedFrom (builds_of J.input) (state_of (store_of committer)) committer }
            requires begun { IsBegun (builds_of J.input) committer }
            requires editors { AreAllEditors (taker_of committer) (map (λ e. e.editor) seats.editors.items) }
            requires builds { rebuilds.builds ≡ builds_of J.input }
            ensures { EndsServed B.opening J.Stream (store_of committer) result.0 (view_of result.1) }
        {
            let mut committer = committer;
            let mut rebuilds = rebuilds;
            let Actors {
                editors,
                forwarders,
                places,
                reader,
            } = seats;
            let Places { tables, devices } = places;
            let mut devices = devices;
            let sessions = editors.len();
            let Ok(mut editing) = Vec::with_capacity(here.alloc, sessions) else {
                return (Err(StopCause::Memory), committer.into_store());
            };
            // The thread that puts tables is one more.
            let count = forwarders.len().saturating_add(1);
            let Ok(mut handles) = Vec::with_capacity(here.alloc, count) else {
                return (Err(StopCause::Memory), committer.into_store());
            };
            start_editors(scope, here, editors, &mut editing);
            start_forwarders(scope, here, gate, forwarders, &mut handles);
            start_tables(scope, here, tables, reader, &mut handles);
            let waiter = start_waiter(scope, here);
            let own = commit_lines::<_, J, B, A, Q>(
                scope,
                here,
                gate,
                &mut committer,
                &mut rebuilds,
                &mut devices,
            );
            let board = committer.told().history();
            if here.coordinator.stopped(here.rt) {
                here.exchange.shut(here.rt);
            }
            let noted = here.exchange.book.begin();
            let taken = joined_editors(
                here.rt,
                own.is_ok(),
                &board,
                &mut committer,
                editing,
                noted,
            );
            joined(here, handles, waiter);
            let cause = here.coordinator.cause(here.rt);
            let all_taken = taken.count == sessions;
            let puts = taken.puts;
            let lines = taken.lines;
            let ending = Ending { board, puts, lines };
            (ended(own, cause, all_taken, ending), committer.into_store())
        },
    )
}

// Runs the threads of all seats, the committer in the caller's, and gives the store back. A script's first generation is built before.
fn run<J: Stream + Send + Sync, B: BoardName + Send + Sync, A: Around, Q: Wait + Drop>(
    rt: &A::Runtime,
    alloc: Global,
    committer: Committer<A::Device, Q>,
    seats: Actors<B, PlacesOf<A>>,
    rebuilds: RebuildSchedule,
    gate: &A::Gate,
    exchange: &LineQueues<J, B>,
) -> (Result<Ending, StopCause>, Store<A::Device>)
    requires opening { (posts_of committer).opening ≡ B.opening }
    requires fresh { IsFresh committer }
    requires listed { IsListedFrom (builds_of J.input) (state_of (store_of committer)) committer }
    requires bare { IsShown None committer }
    requires editors { AreAllEditors (taker_of committer) (map (λ e. e.editor) seats.editors.items) }
    requires builds { rebuilds.builds ≡ builds_of J.input }
    ensures { EndsServed B.opening J.Stream (store_of committer) result.0 (view_of result.1) }
{
    let mut committer = committer;
    let mut rebuilds = rebuilds;
    // The waiter is one more: while it may ask for a backup, the committer goes on.
    let editing = seats.editors.len().saturating_add(1);
    match begun::<B, A::Device, Q, A::Runtime>(rt, alloc, &mut committer, &mut rebuilds, editing) {
        Ok(coordinator) => {
            let here = Workplace {
                rt,
                alloc,
                coordinator: &coordinator,
                exchange,
            };
            run_seats::<J, B, A, Q>(&here, gate, committer, seats, rebuilds)
        }
        Err(cause) => (Err(cause), committer.into_store()),
    }
}

// The editors at the board that `B` names.
fn named<B: BoardName>(
    alloc: Global,
    editors: Vec<Editor>,
) -> Result<Vec<SessionEditor<B>>, AllocError>
    requires named { All (λ e. e.known.opening ≡ B.opening) editors.items }
    requires fresh { All (λ e. e.put ≡ []) editors.items }
    requires start { All (λ e. e.start ≡ last_of B.opening.starts e.session) editors.items }
    ensures { IfOk result (λ all. map (λ e. e.editor) all.items ≡ editors.items) }
{
    let mut all = Vec::new(alloc);
    for editor in editors {
        all.push(SessionEditor::new(editor))?;
    }
    Ok(all)
}

// Forwarders of the readers behind the first so many, which stay.
fn forwarders<B: BoardName>(
    alloc: Global,
    readers: &mut Vec<BoardReader>,
    first: usize,
) -> Result<Vec<BoardForwarder<B>>, AllocError>
    requires { All (λ r. r.all.opening ≡ B.opening) readers.old.items }
    ensures named { IfOk result (λ _. All (λ r. r.all.opening ≡ B.opening) readers.new.items) }
    ensures left { IfOk result (λ _. vec_len readers.new ≤ first) }
{
    let mut all = Vec::new(alloc);
    while readers.len() > first {
        let Some(reader) = readers.pop() else {
            unreachable!()
        };
        all.push(BoardForwarder::new(reader))?;
    }
    Ok(all)
}

// The last of the readers, which is for tables.
fn reader_for_tables<B: BoardName>(readers: &mut Vec<BoardReader>) -> TablesReader<B>
    requires some { 0 < vec_len readers.old }
    requires named { All (λ r. r.all.opening ≡ B.opening) readers.old.items }
    ensures { All (λ r. r.all.opening ≡ B.opening) readers.new.items }
{
    let Some(reader) = readers.pop() else {
        unreachable!()
    };
    TablesReader::new(reader)
}

// The queue's end, and editors, forwarders and a reader for tables at the board that `B` names.
fn seat_all<B: BoardName, P: Drop>(
    alloc: Global,
    config: ServiceConfig,
    places: P,
    readers: Vec<BoardReader>,
    starts: &[u64; SESSIONS],
) -> Result<(Taker, Actors<B, P>), AllocError>
    requires config { IsServiceConfig config }
    requires some { 0 < vec_len readers }
    requires readers { All (λ r. r.all.opening ≡ B.opening) readers.items }
    requires begins { starts.now ≡ B.opening.starts }
    ensures starts { IfOk result (λ r. r.0.starts ≡ starts.now) }
    ensures got { IfOk result (λ r. r.0.got ≡ []) }
    ensures editors { IfOk result (λ r. AreAllEditors r.0 (map (λ e. e.editor) r.1.editors.items)) }
{
    let mut readers = readers;
    let reader = reader_for_tables::<B>(&mut readers);
    let forwarders = forwarders::<B>(alloc, &mut readers, config.editors as usize)?;
    let (taker, editors) = open_intake(alloc, config.places as usize, readers, starts)?;
    let editors = named::<B>(alloc, editors)?;
    let seats = Actors {
        editors,
        forwarders,
        places,
        reader,
    };
    Ok((taker, seats))
}

// Actors editors and forwarders at the board that `B` names, and runs them.
fn seat<J: Stream + Send + Sync, B: BoardName + Send + Sync, A: Around, Q: Wait + Drop>(
    rt: &A::Runtime,
    alloc: Global,
    parts: EngineParts<B, A::Device, PlacesOf<A>, Q>,
    gate: &A::Gate,
    exchange: &LineQueues<J, B>,
) -> (Result<Ending, StopCause>, Store<A::Device>)
    requires builds { parts.opened.config.builds ≡ builds_of J.input }
    ensures { EndsServed B.opening J.Stream parts.opened.store result.0 (view_of result.1) }
{
    let EngineParts {
        opened,
        writer,
        readers,
        of: _,
    } = parts;
    let Opened {
        config,
        store,
        source,
        places,
    } = opened;
    let Ok(rebuilds) = RebuildSchedule::new(alloc, source, config.rounds, config.builds) else {
        return (Err(StopCause::Memory), store);
    };
    match seat_all::<B, PlacesOf<A>>(alloc, config.service, places, readers, &store.starts()) {
        Ok((taker, seats)) => {
            let committer = Committer::new(Desk::new(store), taker, writer);
            run::<J, B, A, Q>(rt, alloc, committer, seats, rebuilds, gate, exchange)
        }
        Err(_) => (Err(StopCause::Memory), store),
    }
}

/// Answers the lines that come to the exchange, until no more come or all stop, in the thread that calls and others. Then no answer
/// comes any more. The disk comes back, and what was posted on the board that `B` names.
pub fn engine<J: Stream + Send + Sync, B: BoardName + Send + Sync, A: Around, Q: Wait + Drop>(
    rt: &A::Runtime,
    alloc: Global,
    parts: EngineParts<B, A::Device, PlacesOf<A>, Q>,
    gate: &A::Gate,
    exchange: &LineQueues<J, B>,
) -> (Result<Ending, StopCause>, A::Device)
    requires builds { parts.opened.config.builds ≡ builds_of J.input }
    ensures { EndsServed B.opening J.Stream parts.opened.store result.0 (A.Device.view result.1) }
{
    let (result, store) = seat::<J, B, A, Q>(rt, alloc, parts, gate, exchange);
    exchange.shut(rt);
    exchange.end(rt);
    (result, store.into_disk())
}
