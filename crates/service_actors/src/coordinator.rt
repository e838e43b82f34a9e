// Where the threads wait for one another.
use crate::graphs::{GenerationGraph, Graphs};
use crate::stand::{Shown, Stand};
use crate::stop_cause::StopCause;
use crate::timings::Timings;
use new_devices::BackupRefused;
use packet_ways::BoardName;
use std::alloc::Global;
use std::sync::{Arc, Condvar, Mutex, Wait};

// What lies under the lock.
#[derive(Drop)]
struct SharedState<J: BoardName> {
    // As the committer told it last.
    stand: Stand<J>,
    // Those of the newest generations.
    graphs: Graphs,
    // How often the committer told something.
    turn: u64,
    // How often an editor submitted a change or left, a backup was asked for, or a build ended.
    asked: u64,
    // How many are at work that leave: editors, and the one who asks for backups.
    editing: usize,
    // Whether a build has ended that the committer hasn't heard of.
    built: bool,
    // Why all stop: the first fault.
    cause: Option<StopCause>,
    // The greatest count and the newest generation that others saw on the board. The committer tells no less soon.
    reached: u64,
    seen: u64,
    // How many changes were submitted and taken.
    submitted: u64,
    taken: u64,
    // The path of a backup that is asked for, until the committer takes it, and what came of that, until it is told.
    backup: Option<String>,
    backed: Option<Backed<J>>,
    // How long commits and builds took.
    timings: Timings,
}

/// What came of a backup, and how the board stood when it was made.
#[derive(Drop)]
pub struct Backed<J: BoardName> {
    pub stand: Stand<J>,
    pub end: Result<(), BackupRefused>,
}

/// How a service stands, as far as its threads have told.
#[derive(Drop)]
pub struct ServiceState<J: BoardName> {
    /// As the committer told it last.
    pub stand: Stand<J>,
    /// The greatest count that others saw.
    pub reached: u64,
    /// The newest generation that others saw.
    pub seen: u64,
    /// How many changes wait at the queue.
    pub queue: u64,
    pub turn: u64,
    pub stopped: bool,
}

/// What the committer told last.
#[derive(Drop)]
pub struct News<J: BoardName> {
    pub stand: Stand<J>,
    pub turn: u64,
    pub stopped: bool,
}

/// What there is to do for the committer.
#[derive(Clone, Copy, Drop)]
pub struct Work {
    pub asked: u64,
    pub editing: usize,
    /// Whether a build has ended since the last look.
    pub built: bool,
    pub stopped: bool,
}

/// One lock, at which editors and forwarders wait for news and the committer for work.
#[derive(Drop)]
pub struct Coordinator<J: BoardName> {
    shared: Mutex<SharedState<J>>,
    news: Condvar,
    work: Condvar,
}

impl<J: BoardName> SharedState<J> {
    fn news(&self) -> News<J> {
        News {
            stand: self.stand.again(),
            turn: self.turn,
            stopped: self.cause.is_some(),
        }
    }

    // What was told, where there is a generation. None where all stop.
    fn shown(&self) -> Option<Shown<J>> {
        if self.cause.is_some() {
            return None;
        }
        self.stand.shown()
    }

    // Whether there is no generation, and not all stop.
    fn is_bare(&self) -> bool {
        self.stand.generation.is_none() && self.cause.is_none()
    }

    fn work(&mut self) -> Work {
        let built = self.built;
        self.built = false;
        Work {
            asked: self.asked,
            editing: self.editing,
            built,
            stopped: self.cause.is_some(),
        }
    }

    fn tell(&mut self, stand: Stand<J>, taken: usize) {
        self.stand = stand;
        self.taken = self.taken.wrapping_add(taken as u64);
        self.turn = self.turn.wrapping_add(1);
    }

    fn stop(&mut self, cause: StopCause) {
        if self.cause.is_none() {
            self.cause = Some(cause);
        }
    }

    fn ask(&mut self) {
        self.asked = self.asked.wrapping_add(1);
    }

    fn end_build(&mut self, micros: u64) {
        self.timings.build = micros;
        self.built = true;
        self.ask();
    }

    fn submit(&mut self) {
        self.submitted = self.submitted.wrapping_add(1);
        self.ask();
    }

    fn standing(&self) -> ServiceState<J> {
        ServiceState {
            stand: self.stand.again(),
            reached: self.reached,
            seen: self.seen,
            queue: self.submitted.saturating_sub(self.taken),
            turn: self.turn,
            stopped: self.cause.is_some(),
        }
    }

    fn ask_backup(&mut self, path: String) {
        self.backup = Some(path);
        self.ask();
    }

    fn leave(&mut self) {
        self.editing = self.editing.saturating_sub(1);
        self.ask();
    }
}

impl<J: BoardName> Coordinator<J> {
    /// A coordinator of so many who leave, to which this was told.
    pub fn new(stand: Stand<J>, graphs: Graphs, editing: usize) -> Coordinator<J> {
        Coordinator {
            shared: Mutex::new(SharedState {
                stand,
                graphs,
                turn: 0,
                asked: 0,
                editing,
                built: false,
                cause: None,
                reached: 0,
                seen: 0,
                submitted: 0,
                taken: 0,
                backup: None,
                backed: None,
                timings: Timings::new(),
            }),
            news: Condvar::new(),
            work: Condvar::new(),
        }
    }

    /// Tells all what was posted, once so many changes more were taken from the queue.
    pub fn tell<R: Wait>(&self, rt: &R, stand: Stand<J>, taken: usize) {
        self.shared.lock(rt).tell(stand, taken);
        self.news.notify_all();
    }

    /// A commit took so many microseconds. It is told before its marks are.
    pub fn add_commit<R: Wait>(&self, rt: &R, micros: u64) {
        self.shared.lock(rt).timings.add(micros);
    }

    /// How long commits and builds took.
    pub fn timings<R: Wait>(&self, rt: &R) -> Timings {
        self.shared.lock(rt).timings
    }

    /// A change was accepted as the one of this number.
    pub fn reach<R: Wait>(&self, rt: &R, count: u64) {
        let mut shared = self.shared.lock(rt);
        shared.reached = shared.reached.max(count);
    }

    /// The generation of this number was seen.
    pub fn see<R: Wait>(&self, rt: &R, generation: u64) {
        let mut shared = self.shared.lock(rt);
        shared.seen = shared.seen.max(generation);
    }

    /// How the service stands.
    pub fn standing<R: Wait>(&self, rt: &R) -> ServiceState<J> {
        self.shared.lock(rt).standing()
    }

    /// Shows the graph of a generation that is about to be posted.
    pub fn show<R: Wait>(&self, rt: &R, graph: Arc<GenerationGraph, Global>) {
        let _oldest = self.shared.lock(rt).graphs.push(graph);
    }

    /// The graph of a generation, where it is one of the newest.
    pub fn graph_of<R: Wait>(
        &self,
        rt: &R,
        generation: u64,
    ) -> Option<Arc<GenerationGraph, Global>> {
        self.shared.lock(rt).graphs.of(generation)
    }

    /// Has all stop. The first fault counts.
    pub fn stop<R: Wait>(&self, rt: &R, cause: StopCause) {
        self.shared.lock(rt).stop(cause);
        self.news.notify_all();
        self.work.notify_all();
    }

    /// An editor has submitted a change.
    pub fn ask<R: Wait>(&self, rt: &R) {
        self.shared.lock(rt).submit();
        self.work.notify_all();
    }

    /// Asks for a backup by this path, and sleeps until it is told what came of it. One thread asks. None where all stop.
    pub fn ask_backup<R: Wait>(&self, rt: &R, path: String) -> Option<Backed<J>> {
        self.shared.lock(rt).ask_backup(path);
        self.work.notify_all();
        let mut shared = self.news.wait_while(
            rt,
            self.shared.lock(rt),
            |shared| shared.backed.is_none() && shared.cause.is_none(),
        );
        shared.backed.take()
    }

    /// The path of the backup that is asked for, where one is.
    pub fn asked_backup<R: Wait>(&self, rt: &R) -> Option<String> {
        self.shared.lock(rt).backup.take()
    }

    /// Tells what came of the backup that was asked for.
    pub fn tell_backup<R: Wait>(&self, rt: &R, backed: Backed<J>) {
        self.shared.lock(rt).backed = Some(backed);
        self.news.notify_all();
    }

    /// An editor is done, or the one who asks for backups.
    pub fn leave<R: Wait>(&self, rt: &R) {
        self.shared.lock(rt).leave();
        self.work.notify_all();
    }

    /// A build has ended that took so many microseconds.
    pub fn end_build<R: Wait>(&self, rt: &R, micros: u64) {
        self.shared.lock(rt).end_build(micros);
        self.work.notify_all();
    }

    /// What was told last.
    pub fn news<R: Wait>(&self, rt: &R) -> News<J> {
        self.shared.lock(rt).news()
    }

    /// Sleeps until something was told since that turn, or all stop.
    pub fn await_news<R: Wait>(&self, rt: &R, turn: u64) {
        let _shared = self.news.wait_while(
            rt,
            self.shared.lock(rt),
            |shared| shared.turn == turn && shared.cause.is_none(),
        );
    }

    /// What was told last, once there is a generation. None where all stop.
    pub fn shown<R: Wait>(&self, rt: &R) -> Option<Shown<J>> {
        let shared = self
            .news
            .wait_while(rt, self.shared.lock(rt), |shared| shared.is_bare());
        shared.shown()
    }

    /// What there is to do.
    pub fn work<R: Wait>(&self, rt: &R) -> Work {
        self.shared.lock(rt).work()
    }

    /// Sleeps until an editor submitted something or left since then, a backup was asked for, a build ended, or all stop.
    pub fn await_work<R: Wait>(&self, rt: &R, asked: u64) {
        let _shared = self.work.wait_while(
            rt,
            self.shared.lock(rt),
            |shared| shared.asked == asked && shared.cause.is_none(),
        );
    }

    /// Whether all stop.
    pub fn stopped<R: Wait>(&self, rt: &R) -> bool {
        self.shared.lock(rt).cause.is_some()
    }

    /// Why all stopped, where they did.
    pub fn cause<R: Wait>(&self, rt: &R) -> Option<StopCause> {
        self.shared.lock(rt).cause
    }
}
