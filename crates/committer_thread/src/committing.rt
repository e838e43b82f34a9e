// The committer's thread.
ghost use Rattle.std.specs.Arc.{arc_value};
ghost use Rattle.std.specs.Prelude.{◌≡◌, ◌≢◌, ◌⊎◌, ◌↔◌, ◌+◌, ◌-◌, ◌^◌, min, IfErr, IfOk, IsErrOf, IsTrue, None, OnOk, Some, false};
ghost use Rattle.schemes.specs.Service.{Serves};
ghost use Rattle.schemes.specs.Tables.{tables};
ghost use Rattle.checkpoint.specs.StoreWords.{is_down, state_of};
ghost use Rattle.request_lists.specs.declared.builds.Builds.TheVariants.{InTurn};
ghost use Rattle.committer.specs.CommitterWords.{posts_of, store_of};
ghost use Rattle.committer.specs.Listed.{StaysListed, StaysListedSo};
ghost use Rattle.committer_thread.specs.Pace.{IsBegun, IsDue, IsShown, IsUpToDate};
ghost use Rattle.committer_thread.specs.Kept.{HasLostDevice, HasSettledAll, HasSettledFrom, HasTurned, IsFresh, IsOnCourse, KeepsQueue, OnlyRebuilds, PostsAlong};
ghost use Rattle.committer_thread.specs.Tables.{IsGraphOf};

use crate::backing::back_up;
use crate::beside::{Build, Shelf};
use crate::causes::{cause_of_rebuild, cause_of_round};
use committer::{Committer, Round};
use disk_trait::Disk;
use graph_edits::Graph;
use linked_list_allocator::LocalHeap;
use new_devices::NewDevices;
use packet_ways::BoardName;
use request_lists::Builds;
use scheme_builds::{SCRATCH_LEN, scheme_of_in_threads, workers_here};
use schemes::Scheme;
use service_actors::{
    Coordinator, Gate, GenerationGraph, Graphs, KnownPostings, OpenGate, Stand, StopCause,
    WordSource, shared_graph,
};
use std::alloc::{AllocError, Global};
use std::sync::{Arc, Wait};
use std::thread::Threads;

/// What rebuilds take: the landmark words, the one heap for the numbering of trees of each scheme that is built in the committer's thread,
/// their pace, and what is built beside the rounds.
#[derive(Drop)]
pub struct RebuildSchedule {
    /// Where builds go on.
    pub builds: Builds,
    pub(crate) source: WordSource,
    heap: LocalHeap,
    // After so many rounds a change that was accepted is in a generation.
    rounds: u32,
    // How many rounds there were since the first change that is in none, that one's among them.
    owed: u32,
    // The number of the newest generation, where there is one.
    pub(crate) newest: Option<u64>,
    pub(crate) building: Option<Build>,
    pub(crate) shelf: Shelf,
}

impl RebuildSchedule {
    /// RebuildSchedule by these words, over a heap of their own. A generation is built where something accepted isn't in one and a round
    /// took nothing, or `rounds` rounds after the first such change at the latest: with 1 after each round that accepted something.
    pub fn new(
        alloc: Global,
        source: WordSource,
        rounds: u32,
        builds: Builds,
    ) -> Result<RebuildSchedule, AllocError>
        ensures { IfOk result (λ rebuilds. rebuilds.builds ≡ builds) }
    {
        let heap = LocalHeap::new(alloc, SCRATCH_LEN)?;
        Ok(RebuildSchedule {
            builds,
            source,
            heap,
            rounds,
            owed: 0,
            newest: None,
            building: None,
            shelf: Shelf::new(),
        })
    }

    // Whether a generation is due behind a round that took so many requests, where so many changes are accepted now.
    pub(crate) fn is_due(&mut self, taken: usize, count: u64) -> bool
        ensures due { IsTrue result
            ↔ IsDue self.old.newest count taken (self.old.owed + 1) self.old.rounds }
        ensures owed { IsTrue result ⊎ (self.old.newest ≡ Some count)
            ⊎ (self.new.owed ≡ min (self.old.owed + 1) (2 ^ 32 - 1)) }
        ensures same { (self.new.newest ≡ self.old.newest) × (self.new.rounds ≡ self.old.rounds) }
        ensures building { self.new.building ≡ self.old.building }
    {
        if self.newest == Some(count) {
            return false;
        }
        self.owed = self.owed.saturating_add(1);
        if taken > 0 && self.owed < self.rounds {
            return false;
        }
        self.owed = 0;
        true
    }

    // Builds a generation of the store's graph, and posts it. The store stays as it is.
    fn rebuild<J: BoardName, D: Disk, R: Wait + Drop, S: Threads + Wait + Sync>(
        &mut self,
        rt: &S,
        alloc: Global,
        committer: &mut Committer<D, R>,
    ) -> Result<(), StopCause>
        requires opening { (posts_of committer.old).opening ≡ J.opening }
        requires up { is_down (store_of committer.old) ≡ false }
        ensures only { OnlyRebuilds J.opening committer.old committer.new result }
        ensures shown { OnOk result (IsUpToDate committer.new) }
        ensures newest { OnOk result (self.new.newest ≡ Some (state_of (store_of committer.new)).count) }
        ensures builds { self.new.builds ≡ self.old.builds }
    {
        let RebuildSchedule { source, heap, .. } = self;
        match source {
            WordSource::Same(words) => {
                rebuild_by::<D, R, S>(rt, alloc, committer, words, heap)?;
            }
            WordSource::Drawn(draws) => {
                let words = draws.next(alloc, committer.store().nodes())?;
                rebuild_by::<D, R, S>(rt, alloc, committer, &words, heap)?;
            }
        }
        self.newest = Some(committer.store().count());
        Ok(())
    }
}

// Builds a generation by these words and posts it: in threads where they pay, and else over the heap.
fn rebuild_by<D: Disk, R: Wait + Drop, S: Threads + Wait + Sync>(
    rt: &S,
    alloc: Global,
    committer: &mut Committer<D, R>,
    words: &[u64],
    heap: &LocalHeap,
) -> Result<(), StopCause>
    requires up { is_down (store_of committer.old) ≡ false }
    ensures only { OnlyRebuilds (posts_of committer.old).opening committer.old committer.new result }
    ensures shown { OnOk result (IsUpToDate committer.new) }
{
    let workers = workers_here(rt, committer.store().nodes());
    if workers < 2 {
        return match committer.rebuild(alloc, words, heap) {
            Ok(_) => Ok(()),
            Err(refused) => Err(cause_of_rebuild(refused)),
        };
    }
    let due = match committer.generation_due() {
        Ok(due) => due,
        Err(refused) => return Err(cause_of_rebuild(refused)),
    };
    let Some(number) = due else {
        return Ok(());
    };
    let scheme = shared_scheme(rt, alloc, committer.store().graph(), words, number, workers)?;
    match committer.announce(number, scheme) {
        Ok(_) => Ok(()),
        Err(refused) => Err(cause_of_rebuild(refused)),
    }
}

// A scheme of the graph by landmark words, built by so many workers, to be shared.
fn shared_scheme<S: Threads + Wait + Sync>(
    rt: &S,
    alloc: Global,
    graph: &Graph,
    words: &[u64],
    number: u64,
    workers: u16,
) -> Result<Arc<Scheme, Global>, AllocError>
    ensures serves { IfOk result (λ scheme. Serves graph.now (tables (arc_value scheme))) }
    ensures named { IfOk result (λ scheme. (arc_value scheme).generation ≡ number) }
{
    let scheme = scheme_of_in_threads(rt, alloc, graph, words, number, workers)?;
    Ok(Arc::new(alloc, scheme)?)
}

// The graph of the generation that comes next.
pub(crate) fn next_graph<D: Disk, R: Wait + Drop>(
    alloc: Global,
    committer: &Committer<D, R>,
) -> Result<Arc<GenerationGraph, Global>, StopCause>
    ensures of_state { IfOk result (λ graph. IsGraphOf (state_of (store_of committer.now)) (arc_value graph)) }
    ensures not_device { IfErr result (λ cause. cause ≢ StopCause.Device) }
{
    let store = committer.store();
    Ok(shared_graph(alloc, store.count(), store.graph())?)
}

// What the committer tells, whose newest generation has this number, or that has none yet.
pub(crate) fn stand_of<J: BoardName, D: Disk, R: Wait + Drop>(
    committer: &Committer<D, R>,
    generation: Option<u64>,
) -> Stand<J>
    requires opening { (posts_of committer.now).opening ≡ J.opening }
    requires shown { IsShown generation committer.now }
    ensures count { result.count ≡ (state_of (store_of committer.now)).count }
{
    Stand {
        told: KnownPostings::new(committer.told()),
        count: committer.store().count(),
        generation,
    }
}

// One round, its time taken where it committed something, and its marks told. Whatever ends it, the device holds the state before the round or the one after its whole
// group.
pub(crate) fn told_round<J: BoardName, D: Disk, G: Gate, R: Wait + Drop, S: Wait>(
    rt: &S,
    alloc: Global,
    coordinator: &Coordinator<J>,
    gate: &G,
    committer: &mut Committer<D, R>,
    newest: Option<u64>,
) -> Result<Round, StopCause>
    requires opening { (posts_of committer.old).opening ≡ J.opening }
    requires up { is_down (store_of committer.old) ≡ false }
    requires shown { IsShown newest committer.old }
    ensures opening { OnOk result ((posts_of committer.new).opening ≡ J.opening) }
    ensures shown { OnOk result (IsShown newest committer.new) }
    ensures turned { HasTurned committer.old committer.new }
    ensures queue { KeepsQueue committer.old committer.new }
    ensures settled { OnOk result (HasSettledAll committer.old committer.new) }
    ensures listed { StaysListed committer.old committer.new }
    ensures device { IfErr result (λ cause. cause ≡ StopCause.Device → HasLostDevice committer.old committer.new) }
{
    let (before, begun) = (committer.store().count(), gate.micros());
    let round = match committer.round(alloc, rt) {
        Ok(round) => round,
        Err(refused) => return Err(cause_of_round(refused)),
    };
    if before < committer.store().count() {
        coordinator.add_commit(rt, gate.micros().saturating_sub(begun));
    }
    if round.taken > 0 {
        coordinator.tell(rt, stand_of::<J, D, R>(committer, newest), round.taken);
    }
    Ok(round)
}

// One round, its marks told, and the generation that is due behind it, told too. Its graph is shown before it is posted, so that
// whoever sees it on the board finds its graph too. Whatever ends it, the device holds the state before the turn or the one after its
// whole group.
fn turn<J: BoardName, D: Disk, R: Wait + Drop, S: Threads + Wait + Sync>(
    rt: &S,
    alloc: Global,
    coordinator: &Coordinator<J>,
    committer: &mut Committer<D, R>,
    rebuilds: &mut RebuildSchedule,
) -> Result<Round, StopCause>
    requires opening { (posts_of committer.old).opening ≡ J.opening }
    requires up { is_down (store_of committer.old) ≡ false }
    requires shown { IsShown rebuilds.old.newest committer.old }
    ensures opening { OnOk result ((posts_of committer.new).opening ≡ J.opening) }
    ensures shown { OnOk result (IsShown rebuilds.new.newest committer.new) }
    // Where nothing was taken the newest generation has all that is accepted.
    ensures up_to_date { IfOk result (λ round. round.taken ≡ 0 → IsUpToDate committer.new) }
    ensures turned { HasTurned committer.old committer.new }
    ensures queue { KeepsQueue committer.old committer.new }
    ensures settled { OnOk result (HasSettledAll committer.old committer.new) }
    ensures listed { StaysListed committer.old committer.new }
    ensures device { IfErr result (λ cause. cause ≡ StopCause.Device → HasLostDevice committer.old committer.new) }
{
    let round = told_round(
        rt,
        alloc,
        coordinator,
        &OpenGate,
        committer,
        rebuilds.newest,
    )?;
    if rebuilds.is_due(round.taken, committer.store().count()) {
        coordinator.show(rt, next_graph(alloc, committer)?);
        rebuilds.rebuild::<J, D, R, S>(rt, alloc, committer)?;
        coordinator.tell(rt, stand_of::<J, D, R>(committer, rebuilds.newest), 0);
    }
    Ok(round)
}

/// Commits what editors submit, until all of them have left, or all stop: which of the two it was. An `Err` is why the committer itself
/// stopped. The backups that are asked for are made between two rounds, at this place.
#[tactic(auto, using(crate::proofs::Settling::in_turn_first, crate::proofs::Settling::in_turn_settles, crate::proofs::Settling::queue_first))]
pub fn commit_all<J: BoardName, D: Disk, R: Wait + Drop, F: NewDevices, S: Threads + Wait + Sync>(
    rt: &S,
    alloc: Global,
    coordinator: &Coordinator<J>,
    committer: &mut Committer<D, R>,
    rebuilds: &mut RebuildSchedule,
    devices: &mut F,
) -> Result<bool, StopCause>
    requires opening { (posts_of committer.old).opening ≡ J.opening }
    requires fresh { IsFresh committer.old }
    requires shown { IsUpToDate committer.old }
    ensures settled { HasSettledFrom committer.old committer.new }
    ensures device { IsErrOf result StopCause.Device → HasLostDevice committer.old committer.new }

    // What was taken stays one list, whatever ended it: what is posted and due has the marks of settling the first of it, and each
    // generation serves the state that its number names.
    ensures listed { StaysListedSo InTurn committer.old committer.new }
    ensures posted { PostsAlong InTurn committer.old committer.new }
    // And so does the queue, and all that was taken is of sessions that have an editor.
    ensures queue { KeepsQueue committer.old committer.new }

    // Where nothing stopped the committer, that is the whole list, and the device stands for the state after it.
    ensures all { OnOk result (IsOnCourse InTurn committer.old committer.new) }
    ensures opening { OnOk result ((posts_of committer.new).opening ≡ J.opening) }
    // And where all editors have left, the newest generation is that of this state.
    ensures up_to_date { IfOk result (λ left. IsTrue left → IsUpToDate committer.new) }
{
    rebuilds.newest = Some(committer.store().count());
    for _ in rt.forever() {
        // What there is to do is read before the round, so that nothing is missed that comes behind it.
        let work = coordinator.work(rt);
        if work.stopped {
            return Ok(false);
        }
        back_up(rt, alloc, coordinator, committer, rebuilds.newest, devices);
        match turn::<J, D, R, S>(rt, alloc, coordinator, committer, rebuilds) {
            Ok(round) if round.taken > 0 => {}
            Ok(_) if work.editing == 0 => return Ok(true),
            Ok(_) => coordinator.await_work(rt, work.asked),
            Err(cause) => {
                coordinator.stop(rt, cause);
                return Err(cause);
            }
        }
    }
    Ok(false)
}

// Builds the first generation, and gives the coordinator that begins with it.
fn first_generation<J: BoardName, D: Disk, R: Wait + Drop, S: Threads + Wait + Sync>(
    rt: &S,
    alloc: Global,
    committer: &mut Committer<D, R>,
    rebuilds: &mut RebuildSchedule,
    editing: usize,
) -> Result<Coordinator<J>, StopCause>
    requires opening { (posts_of committer.old).opening ≡ J.opening }
    requires up { is_down (store_of committer.old) ≡ false }
    ensures only { OnlyRebuilds J.opening committer.old committer.new result }
    ensures shown { OnOk result (IsUpToDate committer.new) }
    ensures builds { rebuilds.new.builds ≡ rebuilds.old.builds }
{
    let mut graphs = Graphs::new();
    graphs.push(next_graph(alloc, committer)?);
    rebuilds.rebuild::<J, D, R, S>(rt, alloc, committer)?;
    let stand = stand_of::<J, D, R>(committer, rebuilds.newest);
    Ok(Coordinator::new(stand, graphs, editing))
}

/// The coordinator that a service begins with. Where generations are built in turn with rounds, it begins with the first one; and where
/// they are built beside them, without one.
pub fn begun<J: BoardName, D: Disk, R: Wait + Drop, S: Threads + Wait + Sync>(
    rt: &S,
    alloc: Global,
    committer: &mut Committer<D, R>,
    rebuilds: &mut RebuildSchedule,
    editing: usize,
) -> Result<Coordinator<J>, StopCause>
    requires opening { (posts_of committer.old).opening ≡ J.opening }
    requires up { is_down (store_of committer.old) ≡ false }
    requires bare { IsShown None committer.old }
    ensures only { OnlyRebuilds J.opening committer.old committer.new result }
    ensures shown { OnOk result (IsBegun rebuilds.new.builds committer.new) }
    ensures builds { rebuilds.new.builds ≡ rebuilds.old.builds }
{
    match rebuilds.builds {
        Builds::InTurn => first_generation::<J, D, R, S>(rt, alloc, committer, rebuilds, editing),
        Builds::Beside => {
            let stand = stand_of::<J, D, R>(committer, None);
            Ok(Coordinator::new(stand, Graphs::new(), editing))
        }
    }
}
