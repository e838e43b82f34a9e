//! The desk: requests are held, settled in order, and committed as one group.
ghost use Rattle.std.specs.Prelude.{◌≡◌, ◌≢◌, ◌≤◌, ◌<◌, ◌↔◌, ◌++◌, [], ◌∷◌, length, option_copied, IsTrue, IfOk, None, false, true};
ghost use Rattle.disk_trait.specs.Disk.{AtMostCalls, IsSameDevice, Unchanged};
ghost use Rattle.requests.specs.Tickets.{sessions, last_of};
ghost use Rattle.layout_2.specs.State.{AreInTurn};
ghost use Rattle.checkpoint.specs.StoreWords.{state_of, nodes_of, view_of, is_down, IsWhereItWas};
ghost use Rattle.group_commit.specs.Limits.{most_held};
ghost use Rattle.group_commit.specs.Postings.{AreMarksDue, IsDownDue};
ghost use Rattle.group_commit.specs.Turns.{in_turn_prop};

use crate::limits::MOST_HELD;
use crate::refused::DeskRefused;
use crate::rolling::commit_rolling;
use crate::settling::settle_all;
use crate::turns::last_ticket;
use arrayvec::ArrayVec;
use checkpoint::{Store, WORN_LIMIT};
use disk_trait::{CrashDisk, Disk, Plan};
use generations::Posting;
use requests::{Request, SESSIONS};
use std::alloc::Global;

/// The one owner of a store. It holds up to [`MOST_HELD`] requests, and has at most one posting to tell.
#[derive(Drop)]
pub struct Desk<D: Disk> {
    store: Store<D>,
    held: ArrayVec<Request, MOST_HELD>,
    due: Option<Posting>,
    ghost few: { length held.items ≤ most_held },
    // Each of the held requests may be taken after those before it.
    ghost in_turn: { AreInTurn (state_of store).tickets held.items } by { in_turn_prop (state_of store).tickets held.items },
    // The marks of a group are told before another is held.
    ghost told_first: { AreMarksDue due → held.items ≡ [] },
    ghost lost: { IsDownDue due → is_down store ≡ true },
}

impl<D: Disk> Desk<D> {
    ghost use Rattle.group_commit.specs.DeskWords.{store_of, held_of, due_of, settled_of, IsNextHere};
    ghost use Rattle.group_commit.specs.Groups.{IsGroupCommitted, RefusesGroup, AtMostCallsWithRoom, SettlesWholly, KeepsStateHeld};

    /// A desk that holds nothing and has nothing to tell. No call of the store has met a failure of its device.
    pub fn new(store: Store<D>) -> Desk<D>
        requires { is_down store ≡ false }
        ensures store { store_of result ≡ store }
        ensures held { held_of result ≡ [] }
        ensures due { due_of result ≡ None }
    {
        Desk {
            store,
            held: ArrayVec::new(),
            due: None,
        }
    }

    /// Takes a request in, behind those that are held. Its session is there, and its ticket is above that session's last one, in the
    /// store or held, and within the limit: see [`Desk::is_next`].
    pub fn give(&mut self, request: Request)
        requires room { length (held_of self.old) < most_held }
        requires told { due_of self.old ≡ None }
        requires next { IsNextHere self.old request }
        ensures held { held_of self.new ≡ held_of self.old ++ request ∷ [] }
        ensures store { store_of self.new ≡ store_of self.old }
        ensures due { due_of self.new ≡ None }
    {
        self.held.push(request);
    }

    /// Whether a request may be given: whether its session is there, and its ticket is above that session's last one, in the store or
    /// held, and within the limit.
    pub fn is_next(&self, request: &Request) -> bool
        ensures { IsTrue result ↔ IsNextHere self.now request.now }
    {
        (request.session as usize) < SESSIONS
            && last_ticket(&self.store.starts(), self.held.as_slice(), request.session)
                < request.ticket
            && request.ticket <= WORN_LIMIT
    }

    /// A session's last ticket in the store, 0 where it has none. Held requests aren't there yet, and refused ones never are.
    pub fn resume(&self, session: u8) -> u64
        requires { session < sessions }
        ensures { result ≡ last_of (state_of (store_of self.now)).tickets session }
    {
        self.store.resume(session)
    }

    /// The last ticket of each session in the store. It takes no memory.
    pub fn starts(&self) -> [u64; SESSIONS]
        ensures { result ≡ (state_of (store_of self.now)).tickets }
    {
        self.store.starts()
    }

    /// How many requests are held.
    pub fn held(&self) -> usize
        ensures same { result ≡ length (held_of self.now) }
        ensures few { result ≤ most_held }
    {
        self.held.len()
    }

    /// Settles the held requests in order, commits the changes that are accepted as one record, and has their marks to tell. A roll
    /// goes before it where the journal has no room. The answer is how many are accepted; where none is, nothing is written.
    pub fn commit(&mut self, alloc: Global) -> Result<usize, DeskRefused>
        requires { held_of self.old ≢ [] }
        ensures ok { IfOk result (λ accepted. IsGroupCommitted self.old self.new accepted) }

        ensures refused { RefusesGroup self.old self.new result }

        // Nothing is written where nothing is accepted.
        ensures idle { (settled_of self.old).accepted ≡ [] → store_of self.new ≡ store_of self.old }
        ensures nodes { nodes_of (store_of self.new) ≡ nodes_of (store_of self.old) }

        ensures ran { IsSameDevice (view_of (store_of self.old)) (view_of (store_of self.new)) }
        // A record takes four calls of the device at most, and a roll before it six.
        ensures calls { AtMostCalls 10 (view_of (store_of self.old)) (view_of (store_of self.new)) }
        ensures calls_with_room { AtMostCallsWithRoom 4 self.old self.new }

        // A crash at any moment of the call leaves the old state, or the new one with the whole group.
        ensures any_moment { SettlesWholly self.old self.new }
        // Where the group stays held, it leaves the old state alone.
        ensures keeps_state { KeepsStateHeld self.old self.new result }
    {
        if self.store.is_down() {
            return Err(DeskRefused::Down);
        }
        let settled = settle_all(alloc, &self.store, self.held.as_slice())?;
        let accepted = settled.accepted.len();
        match commit_rolling(alloc, &mut self.store, &settled.accepted) {
            Ok(()) => {
                self.held.clear();
                self.due = Some(Posting::Marks(settled.marks));
                Ok(accepted)
            }
            Err(DeskRefused::Device) => {
                self.due = Some(Posting::Down);
                Err(DeskRefused::Device)
            }
            Err(DeskRefused::Memory) => Err(DeskRefused::Memory),
            Err(DeskRefused::Worn) => Err(DeskRefused::Worn),
            Err(DeskRefused::Down) => unreachable!(),
        }
    }

    /// What is to be told, until [`Desk::paid`].
    pub fn due(&self) -> Option<&Posting>
        ensures lends { option_copied result ≡ due_of self.now }
        ensures told_first { AreMarksDue (due_of self.now) → held_of self.now ≡ [] }
        ensures lost { IsDownDue (due_of self.now) → is_down (store_of self.now) ≡ true }
    {
        self.due.as_ref()
    }

    /// What was due is told. It is given out, for whoever posts it.
    pub fn paid(&mut self) -> Option<Posting>
        ensures given { result ≡ due_of self.old }
        ensures due { due_of self.new ≡ None }
        ensures store { store_of self.new ≡ store_of self.old }
        ensures held { held_of self.new ≡ held_of self.old }
    {
        self.due.take()
    }

    /// The store.
    pub fn store(&self) -> &Store<D>
        ensures { result.now ≡ store_of self.now }
    {
        &self.store
    }

    /// The store, without what is held and due.
    pub fn into_store(self) -> Store<D>
        ensures { result ≡ store_of self }
    {
        self.store
    }
}

impl<D: CrashDisk> Desk<D> {
    ghost use Rattle.group_commit.specs.DeskWords.{store_of, held_of, due_of};

    /// From now on calls of the device fail by this plan, in place of the one before: they are counted from 1, from here on. All else
    /// stays, on the disk too. It takes no memory.
    pub fn arm(&mut self, plan: Plan)
        ensures state { state_of (store_of self.new) ≡ state_of (store_of self.old) }
        ensures down { is_down (store_of self.new) ≡ is_down (store_of self.old) }
        ensures at { IsWhereItWas (store_of self.old) (store_of self.new) }
        ensures same { Unchanged (view_of (store_of self.old)) (view_of (store_of self.new)) }
        ensures held { held_of self.new ≡ held_of self.old }
        ensures due { due_of self.new ≡ due_of self.old }
    {
        self.store.arm(plan);
    }
}
