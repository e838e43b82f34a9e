// Events of the committer.
ghost use Rattle.std.specs.Prelude.{◌≡◌, ◌↔◌, List, IsTrue, IfOk, Some, true, false};
ghost use Rattle.std.specs.Arc.{arc_value};
ghost use Rattle.disk_trait.specs.Disk.{IsSameDevice};
ghost use Rattle.requests.specs.declared.request.Request.{Request as Asked};
ghost use Rattle.layout_2.specs.State.{State};
ghost use Rattle.scheme_builds.specs.Schemes.{IsSchemeOf};
ghost use Rattle.generations.specs.Notices.{notice_of};
ghost use Rattle.event_laws.specs.Happenings.{took};
ghost use Rattle.event_model.specs.Machines.{with_posted};
ghost use Rattle.event_model.specs.declared.event.Event.TheVariants as events;
ghost use Rattle.event_model.specs.Answers.{RebuildAnswers, newest_number, post, number_of};
ghost use Rattle.event_laws.specs.Listed.{IsListed};
ghost use Rattle.event_laws.specs.Ways.{AreOnWay};

use crate::room::add;
use crate::world::World;
use disk_trait::Disk;
use event_laws::{lists_law, ways_law};
use event_model::Reply;
use generations::Posting;
use graph_edits::Graph;
use group_commit::{DeskRefused, MOST_HELD, limits_law, settling_law};
use scheme_builds::scheme_of;
use schemes::Scheme;
use std::alloc::{AllocError, Global};
use std::sync::Arc;

impl<D: Disk> World<D> {
    ghost use Rattle.interleave.specs.WorldWords.{desk_of, lists_of, machine_of, world_store, world_view};
    ghost use Rattle.interleave.specs.Crashes.{WorldHappens};
    ghost use Rattle.interleave.specs.Desks.{DeskCommits};
    ghost use Rattle.interleave.specs.Events.{LeavesStore, WorldAnswers};

    /// The committer moves a request from the queue to the desk. It takes no memory.
    pub(crate) fn take(&mut self) -> Reply
        ensures store { world_store self.new ≡ world_store self.old }
        ensures lists { (more : List Asked) × (lists_of self.new ≡ took (lists_of self.old) more) }
        ensures number { number_of result ≡ 0 }
        ensures answers { WorldAnswers events.Take self.old result self.new }
    {
        if self.stored.taken >= self.stored.asked.len()
            || self.desk.due().is_some()
            || self.desk.held() >= MOST_HELD
        {
            return Reply::Idle;
        }
        // A desk with room takes one more.
        limits_law();
        let request = self.stored.asked[self.stored.taken].copy();
        let (session, ticket) = (request.session, request.ticket);
        self.desk.give(request);
        self.stored.taken += 1;
        Reply::Taken { session, ticket }
    }

    /// The committer commits what is held.
    pub(crate) fn commit(&mut self, alloc: Global) -> Reply
        ensures ran { IsSameDevice (world_view self.old) (world_view self.new) }
        ensures happens { WorldHappens self.old result self.new }
        ensures commits { DeskCommits (desk_of self.old) result (desk_of self.new) }
        ensures answers { WorldAnswers events.Commit self.old result self.new }
    {
        if self.desk.held() == 0 {
            return Reply::Idle;
        }
        if self.desk.store().is_down() {
            return Reply::NotCommitted(DeskRefused::Down);
        }
        if self.stored.groups.reserve(1).is_err() {
            return Reply::Memory;
        }
        // The marks are those of settling, and the accepted requests lead to the new state.
        settling_law();
        let group = (self.stored.done, self.stored.taken);
        match self.desk.commit(alloc) {
            Ok(accepted) => {
                add(&mut self.stored.groups, group);
                self.stored.done = self.stored.taken;
                Reply::Committed { accepted }
            }
            Err(DeskRefused::Device) => {
                add(&mut self.stored.groups, group);
                Reply::NotCommitted(DeskRefused::Device)
            }
            Err(DeskRefused::Worn) => {
                add(&mut self.stored.groups, group);
                Reply::NotCommitted(DeskRefused::Worn)
            }
            Err(DeskRefused::Down) => Reply::NotCommitted(DeskRefused::Down),
            Err(DeskRefused::Memory) => Reply::Memory,
        }
    }

    /// The committer posts what is due.
    pub(crate) fn post(&mut self) -> Reply
        ensures leaves { LeavesStore self.old result self.new }
        ensures answers { WorldAnswers events.Post self.old result self.new }
    {
        if self.stored.postings.reserve(1).is_err() {
            return Reply::Memory;
        }
        match self.desk.paid() {
            Some(posting) => {
                add(&mut self.stored.postings, posting);
                Reply::Posted
            }
            None => Reply::Idle,
        }
    }

    // What is due is posted, if there is room for it.
    fn post_due(&mut self) -> bool
        ensures store { world_store self.new ≡ world_store self.old }
        ensures lists { lists_of self.new ≡ lists_of self.old }
        ensures done { result ≡ true → machine_of self.new ≡ (post (machine_of self.old)).after }
        ensures not_done { result ≡ false → machine_of self.new ≡ machine_of self.old }
    {
        self.post() != Reply::Memory
    }

    // Whether the newest generation has this number.
    fn is_newest(&self, number: u64) -> bool
        ensures { IsTrue result ↔ (newest_number (machine_of self.now).postings ≡ Some number) }
    {
        match self.stored.newest() {
            Some(newest) => newest == number,
            None => false,
        }
    }

    // One posting more, if there is room for it.
    fn append(&mut self, posting: Posting) -> bool
        ensures store { world_store self.new ≡ world_store self.old }
        ensures lists { lists_of self.new ≡ lists_of self.old }
        ensures done { result ≡ true → machine_of self.new ≡ with_posted (machine_of self.old) (notice_of posting) }
        ensures not_done { result ≡ false → machine_of self.new ≡ machine_of self.old }
    {
        self.stored.postings.push(posting).is_ok()
    }

    /// Posts what is due, then builds a generation of the store's graph by landmark words and posts it under the store's count, unless
    /// the newest generation has this number already. Of the words the first count, one for each node, and for each that is missing
    /// the greatest.
    pub fn rebuild(&mut self, alloc: Global, words: &[u64]) -> Reply
        ensures leaves { LeavesStore self.old result self.new }
        ensures answers { RebuildAnswers words.now (machine_of self.old) result (machine_of self.new) }
        ensures listed { (first : State) → IsListed first (machine_of self.old) → IsListed first (machine_of self.new) }
        ensures ways { AreOnWay (machine_of self.old) → AreOnWay (machine_of self.new) }
    {
        // A rebuild keeps the lists and the ways of packets.
        lists_law();
        ways_law();
        self.build(alloc, words)
    }

    /// The same, without what follows from the answer.
    pub(crate) fn build(&mut self, alloc: Global, words: &[u64]) -> Reply
        ensures leaves { LeavesStore self.old result self.new }
        ensures answers { RebuildAnswers words.now (machine_of self.old) result (machine_of self.new) }
    {
        if self.desk.store().is_down() {
            return Reply::NotRebuilt;
        }
        if !self.post_due() {
            return Reply::Memory;
        }
        let generation = self.desk.store().count();
        if self.is_newest(generation) {
            return Reply::Rebuilt { generation };
        }
        let Ok(scheme) = shared_scheme(alloc, self.desk.store().graph(), words, generation) else {
            return Reply::Memory;
        };
        if self.append(Posting::Generation {
            number: generation,
            scheme,
        }) {
            Reply::Rebuilt { generation }
        } else {
            Reply::Memory
        }
    }
}

// The scheme of the graph by landmark words, to be shared.
fn shared_scheme(
    alloc: Global,
    graph: &Graph,
    words: &[u64],
    generation: u64,
) -> Result<Arc<Scheme, Global>, AllocError>
    ensures { IfOk result (λ scheme. IsSchemeOf graph.now words.now generation (arc_value scheme)) }
{
    let scheme = scheme_of(alloc, graph, words, generation, alloc)?;
    Ok(Arc::new(alloc, scheme)?)
}
