// The committer: rounds and rebuilds.
ghost use Rattle.std.specs.Prelude.{◌≡◌, ◌≢◌, ◌⊎◌, ◌≤◌, ◌<◌, ◌↔◌, ◌++◌, [], List, length, IsTrue, IfOk, OnOk, OnErr, is_some, IsErr, IsErrOf, Some, None, true, false};
ghost use Rattle.std.specs.Arc.{arc_value};
ghost use Rattle.requests.specs.Tickets.{Rises};
ghost use Rattle.requests.specs.declared.request.Request.{Request};
ghost use Rattle.layout_2.specs.State.{State, asked as asked_all};
ghost use Rattle.checkpoint.specs.Kept.{kept_props};
ghost use Rattle.checkpoint.specs.StoreWords.{state_of, view_of, is_down};
ghost use Rattle.schemes.specs.Tables.{tables};
ghost use Rattle.schemes.specs.Service.{Serves};
ghost use Rattle.generations.specs.declared.posting.Notice.TheVariants.{Built};
ghost use Rattle.intake.specs.Turns.{of, last_asked, AreWithin};
ghost use Rattle.intake.specs.Ends.{HasTaken};
ghost use Rattle.scheme_builds.specs.Schemes.{IsSchemeOf};
ghost use Rattle.group_commit.specs.DeskWords.{store_of as desk_store, held_of as desk_held, due_of as desk_due};
ghost use Rattle.group_commit.specs.Limits.{most_held};
ghost use Rattle.request_lists.specs.declared.builds.Builds.{Builds};
ghost use Rattle.request_lists.specs.declared.builds.Builds.TheVariants.{Beside};
ghost use Rattle.request_lists.specs.Lists.{IsAhead};
ghost use Rattle.committer.specs.Outboxes.{all_of, with_posted};
ghost use Rattle.committer.specs.Turns.{HoldsNoLater};
ghost use Rattle.committer.specs.Ties.{IsLed, IsTied, led_props};
ghost use Rattle.committer.specs.Rounds.{TellsUpTo};
ghost use Rattle.committer.specs.Crashes.{LeavesGroupWhole};
ghost use Rattle.committer.specs.Rebuilds.{IsNumbered};

use crate::outbox::{Offered, Outbox};
use crate::refused::{RebuildRefused, RoundRefused};
use checkpoint::Store;
use disk_trait::Disk;
use generations::{BoardWriter, Posting, Told};
use graph_edits::Graph;
use group_commit::{Desk, DeskRefused, MOST_HELD};
use intake::{Editor, Taker, Watcher};
use scheme_builds::scheme_of;
use schemes::Scheme;
use std::alloc::{AllocError, Allocator, Global};
use std::snapshot::Snapshot;
use std::sync::{Arc, Wait};

/// The one owner of a desk, of the front of a queue and of a board's writer.
#[derive(Drop)]
pub struct Committer<D: Disk, R: Wait + Drop> {
    desk: Desk<D>,
    taker: Taker,
    outbox: Outbox<R>,
    newest: Option<u64>,
    // The store at its beginning, for contracts alone.
    begun: Snapshot<Store<D>>,
    // What is due is at the outbox.
    ghost at_outbox: { is_some (desk_due desk) ≡ false },
    ghost same_starts: { taker.starts ≡ outbox.opening.starts },
    ghost tied: { IsTied outbox.opening (all_of outbox) newest (desk_held desk) taker.got
        (state_of (desk_store desk)) (is_down (desk_store desk)) } by { Prim.hlevel kept_props },
    // What was taken and isn't held led from its beginning to the store's state.
    ghost led: { IsLed (state_of begun.value) (desk_held desk) taker.got (state_of (desk_store desk)) } by { Prim.hlevel led_props },
    // A crash now leaves the state of the store, or the one with the whole group that is held.
    ghost whole: { IsTrue (view_of (desk_store desk)).keeps_model
        → LeavesGroupWhole (desk_store desk) (desk_held desk) } by { Prim.hlevel kept_props },
}

/// What a round did.
#[derive(Clone, Copy, Debug, PartialEq, Eq, Drop)]
pub struct Round {
    /// How many requests it took from the queue.
    pub taken: usize,
    /// How many changes it accepted, of the requests that it held or took.
    pub accepted: usize,
}

// Takes requests from the queue, as many as a desk holds.
fn fill<D: Disk, W: Wait>(rt: &W, taker: &mut Taker, desk: &mut Desk<D>) -> usize
    requires empty { desk_held desk.old ≡ [] }
    requires told { desk_due desk.old ≡ None }
    requires no_later { HoldsNoLater (state_of (desk_store desk.old)).tickets (desk_held desk.old)
        taker.old.starts taker.old.got }
    requires rises { Rises taker.old.starts (asked_all taker.old.got) }
    ensures store { desk_store desk.new ≡ desk_store desk.old }
    ensures due { desk_due desk.new ≡ None }
    ensures same { (taker.new.starts ≡ taker.old.starts) × (taker.new.queue ≡ taker.old.queue) }
    ensures front { taker.new.got ≡ taker.old.got ++ desk_held desk.new }
    ensures number { result ≡ length (desk_held desk.new) }
    ensures few { result ≤ most_held }
    ensures fewer { result < most_held → taker.old.empties < taker.new.empties }
    ensures taken { HasTaken taker.old taker.new }
    ensures rises { Rises taker.new.starts (asked_all taker.new.got) }
    ensures within { AreWithin (desk_held desk.new) }
{
    let mut taken: usize = 0;
    for _ in 0..MOST_HELD {
        let Some(request) = taker.take(rt) else {
            return taken;
        };
        desk.give(request);
        taken += 1;
    }
    taken
}

impl<D: Disk, R: Wait + Drop> Committer<D, R> {
    ghost use Rattle.committer.specs.CommitterWords.{begun_of, store_of, held_of, taker_of, queue_of, got_of, empties_of, posts_of, newest_of, taken, held_or_taken, settled};
    ghost use Rattle.committer.specs.Listed.{IsEarlier, IsListedFrom, StaysListed, StaysListedBegun};
    ghost use Rattle.committer.specs.Answers.{Takes, MayTakeFewer, StaysPut, asked_group, held_group, settled_group, HasCommitted, OwesMarks, KeepsGroup, IsWorn, LosesDevice, LeavesEither, StaysDown, StaysOwed, GoesOn, IsAtRest, FindsDue, HasRebuilt, LacksScheme, IsNotTaken, IsDueOrDropped};

    /// A committer of a desk, a queue and a board at their beginning.
    pub fn new(desk: Desk<D>, taker: Taker, writer: BoardWriter<R>) -> Committer<D, R>
        requires held { desk_held desk ≡ [] }
        requires due { desk_due desk ≡ None }
        requires up { is_down (desk_store desk) ≡ false }
        requires taken { taker.got ≡ [] }
        requires posted { writer.posted ≡ [] }
        requires kept { writer.kept ≡ [] }
        // Tickets and counts go on from where the store stands.
        requires taker_starts { taker.starts ≡ (state_of (desk_store desk)).tickets }
        requires board_starts { writer.opening.starts ≡ (state_of (desk_store desk)).tickets }
        requires board_count { writer.opening.count ≡ (state_of (desk_store desk)).count }
        ensures store { store_of result ≡ desk_store desk }
        ensures held { held_of result ≡ [] }
        ensures got { got_of result ≡ [] }
        ensures queue { queue_of result ≡ taker.queue }
        ensures taker { taker_of result ≡ taker }
        ensures posts { posts_of result ≡ record { opening = writer.opening; posted = []; due = [] } }
        ensures begun { begun_of result ≡ state_of (desk_store desk) }
        // From the store's state on nothing was taken or posted yet.
        ensures listed { (builds : Builds) → IsListedFrom builds (state_of (store_of result)) result }
    {
        let outbox = Outbox::new(writer);
        let begun = Snapshot::of(desk.store());
        Committer {
            desk,
            taker,
            outbox,
            newest: None,
            begun,
        }
    }

    /// The store.
    pub fn store(&self) -> &Store<D>
        ensures { result.now ≡ store_of self.now }
    {
        self.desk.store()
    }

    /// What was posted, for readers to learn. It takes no memory and waits for nobody.
    pub fn told(&self) -> Told
        ensures posted { result ≡ record { opening = (posts_of self.now).opening; log = (posts_of self.now).posted } }
        // How what is posted and due goes with the store, with what is held and with what was taken.
        ensures tied { IsTied (posts_of self.now).opening (all_of (posts_of self.now)) (newest_of self.now)
            (held_of self.now) (got_of self.now) (state_of (store_of self.now)) (is_down (store_of self.now)) }
        // No posted count is above the store's.
        ensures tells { TellsUpTo (state_of (store_of self.now)).count (posts_of self.now).posted }
    {
        self.outbox.told()
    }

    /// Posts what is due; takes up to [`MOST_HELD`] requests, unless a group is held; commits the group, and posts its marks. Nothing
    /// is written for a group of which no change is accepted, and a round that has no request posts no marks.
    pub fn round<W: Wait>(&mut self, alloc: Global, rt: &W) -> Result<Round, RoundRefused>
        // What is taken is the front of the queue, and of sessions that have an editor.
        ensures takes { Takes (held_of self.old) (taker_of self.old) (taker_of self.new) }
        ensures fewer { length (taken self.old self.new) < most_held → MayTakeFewer self.old self.new result }
        ensures number { IfOk result (λ round. round.taken ≡ length (taken self.old self.new)) }

        ensures ok { IfOk result (λ round. HasCommitted (asked_group self.old self.new) self.new round.accepted) }
        // Nothing is written where nothing is accepted.
        ensures idle { (settled self.old self.new).accepted ≡ [] → store_of self.new ≡ store_of self.old }

        // Every round on a store that went down is refused so.
        ensures down { IsErrOf result RoundRefused.Down ↔ (is_down (store_of self.old) ≡ true) }
        ensures down_leaves { IsErrOf result RoundRefused.Down → StaysDown self.old self.new }
        ensures stays_up { is_down (store_of self.old) ≡ false → ¬ (IsErrOf result RoundRefused.Device)
            → is_down (store_of self.new) ≡ false }

        ensures kept { IsErrOf result RoundRefused.Memory ⊎ IsErrOf result RoundRefused.Worn
            → KeepsGroup (asked_group self.old self.new) self.new }
        ensures worn { IsErrOf result RoundRefused.Worn → IsWorn (asked_group self.old self.new) self.new }
        ensures device { IsErrOf result RoundRefused.Device → LosesDevice (asked_group self.old self.new) self.new }
        // At what was due, or at the marks of what is committed.
        ensures board { IsErrOf result RoundRefused.Board
            → StaysOwed self.old self.new ⊎ OwesMarks (asked_group self.old self.new) self.new }

        ensures any_moment { LeavesEither (asked_group self.old self.new) self.new }
        ensures goes_on { GoesOn self.old self.new }
        ensures at_rest { IsAtRest self.new }
    {
        if self.desk.store().is_down() {
            let _paid = self.outbox.pay();
            return Err(RoundRefused::Down);
        }
        if !self.outbox.pay() {
            return Err(RoundRefused::Board);
        }
        let taken = self.take_up(rt);
        if self.desk.held() == 0 {
            return Ok(Round {
                taken: 0,
                accepted: 0,
            });
        }
        let accepted = self.commit(alloc)?;
        Ok(Round { taken, accepted })
    }

    // Takes requests from the queue, where no group is held.
    fn take_up<W: Wait>(&mut self, rt: &W) -> usize
        requires up { is_down (store_of self.old) ≡ false }
        ensures store { store_of self.new ≡ store_of self.old }
        ensures posts { posts_of self.new ≡ posts_of self.old }
        ensures held { held_of self.new ≡ held_or_taken self.old self.new }

        ensures takes { Takes (held_of self.old) (taker_of self.old) (taker_of self.new) }
        ensures number { result ≡ length (taken self.old self.new) }
        ensures begun { begun_of self.new ≡ begun_of self.old }
        ensures fewer { length (taken self.old self.new) < most_held
            → (held_of self.old ≢ []) ⊎ (empties_of self.old < empties_of self.new) }

        ensures listed { StaysListed self.old self.new }
    {
        if self.desk.held() > 0 {
            return 0;
        }
        fill(rt, &mut self.taker, &mut self.desk)
    }

    // Commits what is held and posts the marks, or that the device failed.
    fn commit(&mut self, alloc: Global) -> Result<usize, RoundRefused>
        requires some { held_of self.old ≢ [] }
        requires nothing_due { (posts_of self.old).due ≡ [] }
        requires up { is_down (store_of self.old) ≡ false }
        ensures taker { taker_of self.new ≡ taker_of self.old }

        ensures ok { IfOk result (HasCommitted (held_group self.old) self.new) }
        ensures idle { (settled_group (held_group self.old)).accepted ≡ [] → store_of self.new ≡ store_of self.old }

        ensures not_down { ¬ (IsErrOf result RoundRefused.Down) }
        ensures kept { IsErrOf result RoundRefused.Memory ⊎ IsErrOf result RoundRefused.Worn
            → KeepsGroup (held_group self.old) self.new }
        ensures worn { IsErrOf result RoundRefused.Worn → IsWorn (held_group self.old) self.new }
        ensures device { IsErrOf result RoundRefused.Device → LosesDevice (held_group self.old) self.new }
        ensures board { IsErrOf result RoundRefused.Board → OwesMarks (held_group self.old) self.new }
        ensures stays_up { ¬ (IsErrOf result RoundRefused.Device) → is_down (store_of self.new) ≡ false }

        ensures any_moment { LeavesEither (held_group self.old) self.new }
        ensures goes_on { GoesOn self.old self.new }
    {
        match self.desk.commit(alloc) {
            Ok(accepted) => {
                let Some(marks) = self.desk.paid() else {
                    unreachable!()
                };
                if self.outbox.tell(marks) {
                    Ok(accepted)
                } else {
                    Err(RoundRefused::Board)
                }
            }
            Err(DeskRefused::Device) => {
                let Some(down) = self.desk.paid() else {
                    unreachable!()
                };
                let _posted = self.outbox.tell(down);
                Err(RoundRefused::Device)
            }
            Err(DeskRefused::Memory) => Err(RoundRefused::Memory),
            Err(DeskRefused::Worn) => Err(RoundRefused::Worn),
            Err(DeskRefused::Down) => unreachable!(),
        }
    }

    /// Builds a scheme of the store's graph by landmark words, and posts it under the store's count, unless the newest generation
    /// has this number already. Of the words the first count, one for each node, and for each that is missing the greatest. Nothing
    /// of the scratch stays.
    pub fn rebuild<A: Allocator + Clone>(
        &mut self,
        alloc: Global,
        words: &[u64],
        scratch: A,
    ) -> Result<u64, RebuildRefused>
        ensures ok { IfOk result (HasRebuilt words.now self.old self.new) }
        ensures down { IsErrOf result RebuildRefused.Down ↔ (is_down (store_of self.old) ≡ true) }
        ensures down_leaves { IsErrOf result RebuildRefused.Down → posts_of self.new ≡ posts_of self.old }
        ensures memory { IsErrOf result RebuildRefused.Memory → LacksScheme self.old self.new }
        ensures board { IsErrOf result RebuildRefused.Board → IsNotTaken words.now self.old self.new }

        ensures stays { StaysPut self.old self.new }
        ensures listed { StaysListed self.old self.new }
    {
        let Some(number) = self.generation_due()? else {
            return Ok(self.desk.store().count());
        };
        let Ok(scheme) = shared_scheme(alloc, self.desk.store().graph(), words, number, scratch)
        else {
            return Err(RebuildRefused::Memory);
        };
        self.announce(number, scheme)
    }

    /// The number under which a generation of the store is due, and none where the newest one has it. What is due to the board is posted
    /// first. [`Committer::announce`] takes the generation, whoever builds it.
    ///
    /// It is refused as `Down` where the device has failed, and as `Board` where the board doesn't take what is due to it. Either leaves all
    /// as it was.
    pub fn generation_due(&mut self) -> Result<Option<u64>, RebuildRefused>
        ensures ok { IfOk result (FindsDue self.old self.new) }
        ensures down { IsErrOf result RebuildRefused.Down ↔ (is_down (store_of self.old) ≡ true) }
        ensures memory { ¬ (IsErrOf result RebuildRefused.Memory) }
        ensures board { IsErrOf result RebuildRefused.Board → (posts_of self.old).due ≢ [] }
        ensures leaves { OnErr result (posts_of self.new ≡ posts_of self.old) }

        ensures stays { StaysPut self.old self.new }
        ensures listed { StaysListed self.old self.new }
    {
        if self.desk.store().is_down() {
            return Err(RebuildRefused::Down);
        }
        if !self.outbox.pay() {
            return Err(RebuildRefused::Board);
        }
        let number = self.desk.store().count();
        if self.newest == Some(number) {
            return Ok(None);
        }
        Ok(Some(number))
    }

    /// Offers a generation of the store's graph, under the number that [`Committer::generation_due`] gave.
    ///
    /// It is refused as `Board` alone, where the board doesn't take it: then the generation is due and a later call posts it, or, where no
    /// memory is there to keep it, it is dropped and its number is due again.
    pub fn announce(
        &mut self,
        number: u64,
        scheme: Arc<Scheme, Global>,
    ) -> Result<u64, RebuildRefused>
        requires nothing_due { (posts_of self.old).due ≡ [] }
        requires up { is_down (store_of self.old) ≡ false }
        requires number { number ≡ (state_of (store_of self.old)).count }
        requires news { ¬ (IsNumbered number (all_of (posts_of self.old))) }
        requires serves { Serves (state_of (store_of self.old)).graph (tables (arc_value scheme)) }
        ensures number { IfOk result (λ n. n ≡ number) }
        ensures posted { OnOk result
            (posts_of self.new ≡ with_posted (posts_of self.old) (Built number (arc_value scheme))) }
        ensures only_board { IsErr result → IsErrOf result RebuildRefused.Board }
        ensures board { IsErrOf result RebuildRefused.Board
            → IsDueOrDropped (Built number (arc_value scheme)) self.old self.new }

        ensures stays { StaysPut self.old self.new }
        // What was taken stays one list, where the scheme has the number too.
        ensures listed { (arc_value scheme).generation ≡ number → StaysListed self.old self.new }
    {
        self.offer_generation(number, scheme)
    }

    /// Offers a generation that was built beside the rounds: its scheme serves the graph that the store had when it had this count, the
    /// state to which the first so many of the settled requests led from the committer's beginning.
    ///
    /// It is refused as `Board` alone, as by [`Committer::announce`].
    pub fn announce_earlier(
        &mut self,
        number: u64,
        scheme: Arc<Scheme, Global>,
    ) -> Result<u64, RebuildRefused>
        requires nothing_due { (posts_of self.old).due ≡ [] }
        requires up { is_down (store_of self.old) ≡ false }
        requires ahead { IsAhead number (all_of (posts_of self.old)) }
        requires earlier { IsEarlier (begun_of self.old) self.old number (arc_value scheme) }
        ensures number { IfOk result (λ n. n ≡ number) }
        ensures posted { OnOk result
            (posts_of self.new ≡ with_posted (posts_of self.old) (Built number (arc_value scheme))) }
        ensures only_board { IsErr result → IsErrOf result RebuildRefused.Board }
        ensures board { IsErrOf result RebuildRefused.Board
            → IsDueOrDropped (Built number (arc_value scheme)) self.old self.new }

        ensures stays { StaysPut self.old self.new }
        // What was taken stays one list, from its beginning on.
        ensures listed { StaysListedBegun self.old self.new }
    {
        self.offer_generation(number, scheme)
    }

    // Offers a generation under a number that the store has reached; where that is its count, the scheme serves its graph.
    fn offer_generation(
        &mut self,
        number: u64,
        scheme: Arc<Scheme, Global>,
    ) -> Result<u64, RebuildRefused>
        requires nothing_due { (posts_of self.old).due ≡ [] }
        requires up { is_down (store_of self.old) ≡ false }
        requires reached { number ≤ (state_of (store_of self.old)).count }
        requires ahead { IsAhead number (all_of (posts_of self.old)) }
        requires serves { number ≡ (state_of (store_of self.old)).count
            → Serves (state_of (store_of self.old)).graph (tables (arc_value scheme)) }
        ensures number { IfOk result (λ n. n ≡ number) }
        ensures posted { OnOk result
            (posts_of self.new ≡ with_posted (posts_of self.old) (Built number (arc_value scheme))) }
        ensures only_board { IsErr result → IsErrOf result RebuildRefused.Board }
        ensures board { IsErrOf result RebuildRefused.Board
            → IsDueOrDropped (Built number (arc_value scheme)) self.old self.new }

        ensures stays { StaysPut self.old self.new }
        ensures earlier { (first : State) → IsEarlier first self.old number (arc_value scheme)
            → IsListedFrom Beside first self.old → IsListedFrom Beside first self.new }
    {
        match self.outbox.offer(Posting::Generation { number, scheme }) {
            Offered::Posted => {
                self.newest = Some(number);
                Ok(number)
            }
            Offered::Due => {
                self.newest = Some(number);
                Err(RebuildRefused::Board)
            }
            Offered::Dropped => Err(RebuildRefused::Board),
        }
    }

    /// Publishes what was posted once more, without a posting, so that both copies of the board have it, and the oldest generation that
    /// it pushed out is let go.
    ///
    /// It is refused as `Board` alone, where a copy can't take it up.
    pub fn refresh(&mut self) -> Result<(), RebuildRefused>
        requires nothing_due { (posts_of self.old).due ≡ [] }
        ensures posts { posts_of self.new ≡ posts_of self.old }
        ensures only_board { IsErr result → IsErrOf result RebuildRefused.Board }

        ensures stays { StaysPut self.old self.new }
        ensures listed { StaysListed self.old self.new }
    {
        if self.outbox.publish_again() {
            return Ok(());
        }
        Err(RebuildRefused::Board)
    }
}

impl<D: Disk, R: Wait + Drop> Committer<D, R> {
    ghost use Rattle.committer.specs.CommitterWords.{store_of, held_of, taker_of, queue_of, got_of, empties_of, posts_of};
    ghost use Rattle.committer.specs.Listed.{StaysListed};

    /// The store, without what is held and due.
    pub fn into_store(self) -> Store<D>
        ensures { result ≡ store_of self }
    {
        self.desk.into_store()
    }

    /// Ends an editor: it submits no more, and its watcher is left. What was taken, followed by what waits, has just the requests
    /// that it submitted, each once, in its order.
    pub fn end(&mut self, editor: Editor) -> Watcher
        requires { editor.queue ≡ queue_of self.old }
        ensures watcher { result
            ≡ record { session = editor.session; last = last_asked editor.put; known = editor.known } }
        ensures made { (taker_of self.new).made ≡ (taker_of self.old).made }
        ensures ended { (taker_of self.new).ended ≡ Some (editor.session, editor.put) }
        ensures empties { empties_of self.new ≡ empties_of self.old }
        ensures whole { (waits : List Request) × (editor.put ≡ of editor.session (got_of self.new ++ waits)) }
        ensures store { store_of self.new ≡ store_of self.old }
        ensures same { (held_of self.new ≡ held_of self.old) × ((got_of self.new ≡ got_of self.old)
            × ((queue_of self.new ≡ queue_of self.old) × (posts_of self.new ≡ posts_of self.old))) }
        ensures listed { StaysListed self.old self.new }
    {
        self.taker.end(editor)
    }
}

// A scheme of the graph by landmark words, to be shared.
fn shared_scheme<A: Allocator + Clone>(
    alloc: Global,
    graph: &Graph,
    words: &[u64],
    number: u64,
    scratch: A,
) -> Result<Arc<Scheme, Global>, AllocError>
    ensures { IfOk result (λ scheme. IsSchemeOf graph.now words.now number (arc_value scheme)) }
{
    let scheme = scheme_of(alloc, graph, words, number, scratch)?;
    Ok(Arc::new(alloc, scheme)?)
}
