//! Requests settled one after another, over a graph that isn't touched.
ghost use Rattle.std.specs.Prelude.{◌≡◌, ◌+◌, ◌≤◌, ◌<◌, ◌^◌, ◌++◌, ◌∷◌, [], List, length, IfOk, OnOk, IsSome, Some};
ghost use Rattle.graph_edits.specs.Changes.{fold};
ghost use Rattle.requests.specs.declared.request.Request.{Request};
ghost use Rattle.layout_2.specs.State.{State, after, changes_of, AreInTurn};
ghost use Rattle.checkpoint.specs.StoreWords.{state_of};
ghost use Rattle.group_commit.specs.Limits.{most_held};
ghost use Rattle.group_commit.specs.Settling.{settle};

use checkpoint::Store;
use disk_trait::Disk;
use generations::{Mark, Verdict};
use graph_edits::{EditRefused, Overlay};
use requests::Request;
use std::alloc::{AllocError, Global};

/// What became of the requests so far.
#[derive(Drop)]
pub(crate) struct Settling {
    /// How many changes are in the graph, with those that are accepted.
    count: u64,
    /// A mark for each request.
    pub(crate) marks: Vec<Mark>,
    /// The requests that are accepted.
    pub(crate) accepted: Vec<Request>,
}

impl Settling {
    ghost use Rattle.group_commit.specs.Seen.{seen};

    /// Nothing is settled yet; there is room for so many requests.
    fn new(alloc: Global, count: u64, room: usize) -> Result<Settling, AllocError>
        requires { room ≤ most_held }
        ensures count { IfOk result (λ settling. settling.count ≡ count) }
        ensures marks { IfOk result (λ settling. settling.marks.items ≡ []) }
        ensures accepted { IfOk result (λ settling. settling.accepted.items ≡ []) }
    {
        Ok(Settling {
            count,
            marks: Vec::with_capacity(alloc, room)?,
            accepted: Vec::with_capacity(alloc, room)?,
        })
    }

    /// Settles one request more.
    fn add(&mut self, overlay: &mut Overlay<'_>, request: &Request) -> Result<(), AllocError>
        requires { self.old.count + 1 < 2 ^ 64 }
        ensures settled { OnOk result ((s : State) (rs : List Request)
            → settle s rs ≡ seen s.tickets self.old overlay.old
            → settle s (rs ++ request.now ∷ []) ≡ seen s.tickets self.new overlay.new) }
        ensures count { OnOk result (self.new.count ≤ self.old.count + 1) }
    {
        match overlay.apply(&request.change) {
            Ok(()) => {
                self.count += 1;
                let count = self.count;
                self.marks
                    .push(mark_of(request, Verdict::Accepted { count }))?;
                self.accepted.push(request.copy())?;
                Ok(())
            }
            Err(EditRefused::Op { index, code }) => {
                self.marks
                    .push(mark_of(request, Verdict::Refused { op: index, code }))?;
                Ok(())
            }
            Err(EditRefused::Memory) => Err(AllocError),
        }
    }
}

// The mark of a request with this verdict.
fn mark_of(request: &Request, verdict: Verdict) -> Mark
    ensures { result ≡ record { session = request.now.session; ticket = request.now.ticket; verdict = verdict } }
{
    Mark {
        session: request.session,
        ticket: request.ticket,
        verdict,
    }
}

/// Settles requests in order, from where the store stands. The store isn't touched.
pub(crate) fn settle_all<D: Disk>(
    alloc: Global,
    store: &Store<D>,
    requests: &[Request],
) -> Result<Settling, AllocError>
    requires few { length requests.now ≤ most_held }
    requires in_turn { AreInTurn (state_of store.now).tickets requests.now }
    ensures marks { IfOk result (λ r. r.marks.items ≡ (settle (state_of store.now) requests.now).marks) }
    ensures accepted { IfOk result (λ r. r.accepted.items ≡ (settle (state_of store.now) requests.now).accepted) }
    ensures leads { IfOk result (λ r.
        after (state_of store.now) r.accepted.items ≡ Some (settle (state_of store.now) requests.now).state) }
    ensures takes { IfOk result (λ r. IsSome (fold (state_of store.now).graph (changes_of r.accepted.items))) }
    ensures in_turn { IfOk result (λ r. AreInTurn (state_of store.now).tickets r.accepted.items) }
    ensures few { IfOk result (λ r. length r.accepted.items ≤ length requests.now) }
{
    let mut settling = Settling::new(alloc, store.count(), requests.len())?;
    let mut overlay = Overlay::over(alloc, store.graph());
    for request in requests {
        settling.add(&mut overlay, request)?;
    }
    Ok(settling)
}
