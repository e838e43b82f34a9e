// Tables that are built beside the rounds, in a thread of their own: one build at a time.
ghost use Rattle.std.specs.Arc.{arc_value};
ghost use Rattle.std.specs.Prelude.{◌≡◌, ◌≢◌, [], IfErr, IfOk, IfSome, IsErrOf, IsTrue, None, OnOk, Some, false};
ghost use Rattle.checkpoint.specs.StoreWords.{is_down, state_of};
ghost use Rattle.request_lists.specs.declared.builds.Builds.TheVariants.{Beside};
ghost use Rattle.committer.specs.CommitterWords.{begun_of, got_of, held_of, posts_of, store_of};
ghost use Rattle.committer.specs.Listed.{StaysListedBegun, StaysListedSo};
ghost use Rattle.committer_thread.specs.Beside.{DoesGoBeside, GoesBeside, GoesOnBeside, IsOnWay, ListsBeside, OnlyPosts, graph_of};
ghost use Rattle.committer_thread.specs.Kept.{HasLostDevice, HasSettledFrom, HasTurned, IsFresh, IsOnCourse, KeepsQueue, PostsAlong};
ghost use Rattle.committer_thread.specs.Pace.{IsShown, IsUpToDate};
ghost use Rattle.committer_thread.specs.Tables.{IsBuiltOf, IsGraphOf};

use crate::backing::back_up;
use crate::causes::cause_of_rebuild;
use crate::committing::{RebuildSchedule, next_graph, stand_of, told_round};
use crate::setting::Setting;
use arrayvec::ArrayVec;
use committer::{Committer, Round};
use disk_trait::Disk;
use generations::MOST_SHELVED;
use packet_ways::BoardName;
use scheme_builds::{scheme_of_in_turns, workers_here};
use schemes::Scheme;
use service_actors::{Coordinator, Gate, GenerationGraph, StopCause, WordSource};
use std::alloc::{AllocError, Global};
use std::snapshot::Snapshot;
use std::sync::{Arc, Wait};
use std::thread;
use std::thread::{Promise, PromisedHandle, Scope, Threads};

/// Where the rounds and builds of a service go on: what they work by, the lock at which all threads wait, and what may hold up a build.
#[derive(Drop)]
pub struct Site<'a, J: BoardName, A: Setting> {
    pub rt: &'a A::Runtime,
    pub alloc: Global,
    pub coordinator: &'a Coordinator<J>,
    pub gate: &'a A::Gate,
}

/// The schemes of the newest generations, which the board has too. To let one go takes long. So the one that is pushed out is kept until
/// the thread of the next build lets it go.
#[derive(Drop)]
pub(crate) struct Shelf {
    newest: ArrayVec<Option<Arc<Scheme, Global>>, MOST_SHELVED>,
    outgoing: Option<Arc<Scheme, Global>>,
}

impl Shelf {
    pub(crate) fn new() -> Shelf {
        Shelf {
            newest: ArrayVec::new(),
            outgoing: None,
        }
    }

    // Puts a scheme behind the others.
    fn put(&mut self, scheme: Arc<Scheme, Global>) {
        if self.newest.is_full() {
            self.outgoing = self.newest.remove(0);
        }
        self.newest.push(Some(scheme));
    }
}

// What the thread of a build answers: a scheme that serves this graph, under its number.
#[derive(Drop)]
pub(crate) struct BuildPromise {
    of: Snapshot<Arc<GenerationGraph, Global>>,
}

impl Promise<Result<Arc<Scheme, Global>, AllocError>> for BuildPromise {
    ghost use Rattle.std.specs.Arc.{arc_value};
    ghost use Rattle.std.specs.Prelude.{IfOk};
    ghost use Rattle.committer_thread.specs.Tables.{IsBuiltOf};

    ghost kept_by = { λ p r. IfOk r (λ scheme. IsBuiltOf (arc_value p.of.value) (arc_value scheme)) };
}

/// A build that goes on: the graph that it shares, and its thread.
#[derive(Drop)]
pub(crate) struct Build {
    graph: Arc<GenerationGraph, Global>,
    thread: PromisedHandle<Result<Arc<Scheme, Global>, AllocError>, BuildPromise>,
}

// A scheme of a graph by landmark words. Where there are several processors one is left to the rest of the service, and on all of them
// whoever waits runs before the next root.
fn scheme_beside<S: Threads + Wait + Sync>(
    rt: &S,
    alloc: Global,
    of: &GenerationGraph,
    words: &[u64],
) -> Result<Arc<Scheme, Global>, AllocError>
    ensures { IfOk result (λ scheme. IsBuiltOf of.now (arc_value scheme)) }
{
    let workers = workers_here(rt, of.graph.nodes()).saturating_sub(1);
    let scheme = scheme_of_in_turns(rt, alloc, &of.graph, words, of.generation, workers)?;
    Ok(Arc::new(alloc, scheme)?)
}

// The words of the next build, for a thread of its own.
fn next_words(alloc: Global, source: &mut WordSource, nodes: u16) -> Result<Vec<u64>, AllocError> {
    match source {
        WordSource::Same(words) => Vec::from_slice(alloc, words.as_slice()),
        WordSource::Drawn(draws) => draws.next(alloc, nodes),
    }
}

// Begins a build of the store's graph. Its thread lets the outgoing scheme go before.
fn begin<'s, E, J: BoardName + Send + Sync, D: Disk, A: Setting, R: Wait + Drop>(
    scope: &Scope<'s, E>,
    site: &Site<'s, J, A>,
    committer: &Committer<D, R>,
    source: &mut WordSource,
    outgoing: Option<Arc<Scheme, Global>>,
) -> Result<Build, StopCause>
    ensures of_state { IfOk result (λ build. IsGraphOf (state_of (store_of committer.now)) (graph_of build)) }
    ensures not_device { IfErr result (λ cause. cause ≢ StopCause.Device) }
{
    let (rt, alloc, coordinator, gate) = (site.rt, site.alloc, site.coordinator, site.gate);
    let graph = next_graph(alloc, committer)?;
    let words = next_words(alloc, source, committer.store().nodes())?;
    let Ok(shared) = Arc::try_clone(&graph) else {
        return Err(StopCause::Memory);
    };
    let promise = BuildPromise {
        of: Snapshot::of(&shared),
    };
    let job = move || -> Result<Arc<Scheme, Global>, AllocError>
        ensures { IfOk result (λ scheme. IsBuiltOf (arc_value shared) (arc_value scheme)) }
    {
        drop(outgoing);
        gate.before_build();
        let begun = gate.micros();
        let built = scheme_beside(rt, alloc, &shared, &words);
        coordinator.end_build(rt, gate.micros().saturating_sub(begun));
        built
    };
    match scope.spawn_with(promise, job) {
        Ok(thread) => Ok(Build { graph, thread }),
        Err(_) => Err(StopCause::NoThread),
    }
}

// Waits for a build's scheme, and posts it under the number of its graph. The graph is shown before. Its number is the answer. The board
// lets go at once of the generation that this pushed out, so that no more than four are there when the next build begins.
fn post<J: BoardName, D: Disk, A: Setting, R: Wait + Drop>(
    site: &Site<J, A>,
    committer: &mut Committer<D, R>,
    shelf: &mut Shelf,
    newest: Option<u64>,
    build: Build,
) -> Result<u64, StopCause>
    requires opening { (posts_of committer.old).opening ≡ J.opening }
    requires up { is_down (store_of committer.old) ≡ false }
    requires held { held_of committer.old ≡ [] }
    requires shown { IsShown newest committer.old }
    requires way { IsOnWay (begun_of committer.old) (got_of committer.old) newest (graph_of build) }
    ensures only { OnlyPosts J.opening committer.old committer.new result }
    ensures listed { StaysListedBegun committer.old committer.new }
    ensures number { IfOk result (λ number. number ≡ (graph_of build).generation) }
    ensures shown { IfOk result (λ number. IsShown (Some number) committer.new) }
{
    let (rt, coordinator) = (site.rt, site.coordinator);
    let Build { graph, thread } = build;
    let scheme = thread.join(rt)?;
    shelf.put(Arc::try_clone(&scheme)?);
    let number = scheme.parts().generation;
    coordinator.show(rt, graph);
    match committer.announce_earlier(number, scheme) {
        Ok(_) => {}
        Err(refused) => return Err(cause_of_rebuild(refused)),
    }
    match committer.refresh() {
        Ok(()) => {}
        Err(refused) => return Err(cause_of_rebuild(refused)),
    }
    coordinator.tell(rt, stand_of::<J, D, R>(committer, Some(number)), 0);
    Ok(number)
}

// How many requests a round took, as far as the next build waits for more of them: behind one that has ended it waits for none.
fn awaited(taken: usize, built: bool) -> usize
    ensures { taken ≡ 0 → result ≡ 0 }
{
    if built { 0 } else { taken }
}

impl RebuildSchedule {
    // Waits for the build that goes on, if there is one. What it made is dropped.
    fn leave<S: Threads>(&mut self, rt: &S) {
        if let Some(build) = self.building.take() {
            let Build { graph: _, thread } = build;
            let _scheme = thread.join(rt);
        }
    }

    // Posts what was built, if a build has ended. Then none goes on.
    fn post_built<J: BoardName, D: Disk, A: Setting, R: Wait + Drop>(
        &mut self,
        site: &Site<J, A>,
        committer: &mut Committer<D, R>,
        built: bool,
    ) -> Result<(), StopCause>
        requires opening { (posts_of committer.old).opening ≡ J.opening }
        requires goes { DoesGoBeside committer.old self.old }
        ensures only { OnlyPosts J.opening committer.old committer.new result }
        ensures goes { GoesOnBeside committer.old committer.new self.old self.new result }
        ensures listed { ListsBeside committer.old committer.new self.old }
    {
        if !built {
            return Ok(());
        }
        let Some(build) = self.building.take() else {
            return Ok(());
        };
        let number = post(site, committer, &mut self.shelf, self.newest, build)?;
        self.newest = Some(number);
        Ok(())
    }

    // Begins a build where one is due behind a round that took so many requests, and none goes on.
    fn begin_due<'s, E, J: BoardName + Send + Sync, D: Disk, A: Setting, R: Wait + Drop>(
        &mut self,
        scope: &Scope<'s, E>,
        site: &Site<'s, J, A>,
        committer: &Committer<D, R>,
        taken: usize,
    ) -> Result<(), StopCause>
        requires goes { DoesGoBeside committer.now self.old }
        ensures goes { GoesOnBeside committer.now committer.now self.old self.new result }
        ensures listed { ListsBeside committer.now committer.now self.old }
        ensures not_device { IfErr result (λ cause. cause ≢ StopCause.Device) }
        // Where nothing was taken and none goes on, the newest generation has all that is accepted.
        ensures up_to_date { OnOk result (taken ≡ 0 → self.new.building ≡ None → IsUpToDate committer.now) }
    {
        if self.building.is_some() || !self.is_due(taken, committer.store().count()) {
            return Ok(());
        }
        // Whoever was told of the round may wait for this processor: answers go before the build.
        thread::yield_now();
        let outgoing = self.shelf.outgoing.take();
        let build = begin(scope, site, committer, &mut self.source, outgoing)?;
        self.building = Some(build);
        Ok(())
    }

    // Begins the first build, of what the store holds at the start, or has all stop.
    fn begin_first<'s, E, J: BoardName + Send + Sync, D: Disk, A: Setting, R: Wait + Drop>(
        &mut self,
        scope: &Scope<'s, E>,
        site: &Site<'s, J, A>,
        committer: &Committer<D, R>,
    ) -> Result<(), StopCause>
        requires fresh { IsFresh committer.now }
        requires bare { IsShown None committer.now }
        ensures goes { OnOk result (GoesBeside committer.now committer.now self.new) }
        ensures not_device { IfErr result (λ cause. cause ≢ StopCause.Device) }
    {
        self.newest = None;
        self.building = None;
        match self.begin_due(scope, site, committer, 0) {
            Ok(()) => Ok(()),
            Err(cause) => {
                site.coordinator.stop(site.rt, cause);
                Err(cause)
            }
        }
    }
}

// What was built is posted; then a round, and its marks told; then the next build begins where one is due: behind one that has ended as
// soon as it lacks a change. Whatever ends it, the device holds the state before the turn or the one after its whole group.
fn turn_beside<'s, E, J: BoardName + Send + Sync, D: Disk, A: Setting, R: Wait + Drop>(
    scope: &Scope<'s, E>,
    site: &Site<'s, J, A>,
    committer: &mut Committer<D, R>,
    rebuilds: &mut RebuildSchedule,
    built: bool,
) -> Result<Round, StopCause>
    requires opening { (posts_of committer.old).opening ≡ J.opening }
    requires goes { DoesGoBeside committer.old rebuilds.old }
    ensures opening { OnOk result ((posts_of committer.new).opening ≡ J.opening) }
    ensures goes { GoesOnBeside committer.old committer.new rebuilds.old rebuilds.new result }
    ensures listed { ListsBeside committer.old committer.new rebuilds.old }
    ensures turned { HasTurned committer.old committer.new }
    ensures queue { KeepsQueue committer.old committer.new }
    ensures up_to_date { IfOk result (λ round. round.taken ≡ 0 → rebuilds.new.building ≡ None → IsUpToDate committer.new) }
    ensures device { IfErr result (λ cause. cause ≡ StopCause.Device → HasLostDevice committer.old committer.new) }
{
    let (rt, alloc, coordinator) = (site.rt, site.alloc, site.coordinator);
    rebuilds.post_built(site, committer, built)?;
    let round = told_round(
        rt,
        alloc,
        coordinator,
        site.gate,
        committer,
        rebuilds.newest,
    )?;
    rebuilds.begin_due(scope, site, committer, awaited(round.taken, built))?;
    Ok(round)
}

/// Commits what editors submit, as [`commit_all`](crate::commit_all) does, and builds tables beside that: a round waits for no build. The
/// first one begins before the first round. One build goes on at a time, of the graph at its beginning, in a thread of the scope; the next
/// one begins behind it at once where a change lacks.
pub fn commit_beside<'s, E, J: BoardName + Send + Sync, D: Disk, A: Setting, R: Wait + Drop>(
    scope: &Scope<'s, E>,
    site: &Site<'s, J, A>,
    committer: &mut Committer<D, R>,
    rebuilds: &mut RebuildSchedule,
    devices: &mut A::Devices,
) -> Result<bool, StopCause>
    requires opening { (posts_of committer.old).opening ≡ J.opening }
    requires fresh { IsFresh committer.old }
    requires bare { IsShown None committer.old }
    ensures settled { HasSettledFrom committer.old committer.new }
    ensures device { IsErrOf result StopCause.Device → HasLostDevice committer.old committer.new }

    // What was taken stays one list, whatever ended it. Each generation serves a state that a beginning of it led to, under that state's
    // count, and the marks of that beginning were posted before.
    ensures listed { StaysListedSo Beside committer.old committer.new }
    ensures posted { PostsAlong Beside committer.old committer.new }
    ensures queue { KeepsQueue committer.old committer.new }

    ensures all { OnOk result (IsOnCourse Beside committer.old committer.new) }
    ensures opening { OnOk result ((posts_of committer.new).opening ≡ J.opening) }
    // Where all editors have left, the newest generation is that of the state after the whole list.
    ensures up_to_date { IfOk result (λ left. IsTrue left → IsUpToDate committer.new) }
{
    let (rt, alloc, coordinator) = (site.rt, site.alloc, site.coordinator);
    rebuilds.begin_first(scope, site, committer)?;
    for _ in rt.forever() {
        // What there is to do is read before the round, so that nothing is missed that comes behind it.
        let work = coordinator.work(rt);
        if work.stopped {
            rebuilds.leave(rt);
            return Ok(false);
        }
        back_up(rt, alloc, coordinator, committer, rebuilds.newest, devices);
        match turn_beside(scope, site, committer, rebuilds, work.built) {
            Ok(round) if round.taken > 0 => {}
            Ok(_) if work.editing == 0 && rebuilds.building.is_none() => return Ok(true),
            Ok(_) => coordinator.await_work(rt, work.asked),
            Err(cause) => {
                coordinator.stop(rt, cause);
                rebuilds.leave(rt);
                return Err(cause);
            }
        }
    }
    Ok(false)
}
