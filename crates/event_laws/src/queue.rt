//! What the lists of a run keep: the requests that were let in, their marks, and the postings.
//!
//! # What it is
//!
//! The crate `event_model` says what a list of events may be answered. This module says what follows for the lists that are stored then,
//! without a disk. Whoever runs events and answers them so has these laws for nothing.
//!
//! # The contract
//!
//! `IsListed first m` (specs/Listed.antt) says what the machine `m` keeps in a life that opened to the state `first`. The requests that
//! were let in stand in one list, in each session's order, and its tickets rise from the opened ones. The first of them are settled:
//! the store's state is that after these, and what was told, posted or due, has just their marks. The list of all that was told is
//! lawful, by the board's own definition. Each posted generation is durable (specs/Durable.antt of `request_lists`): what was posted before it has the
//! marks of just the requests of which its graph has the accepted changes, and its scheme serves that graph.
//!
//! | Law | What it says |
//! |---|---|
//! | [`lists_law`] | a life begins so; each answer keeps it, and so does a run; the postings alone are lawful, and their generations durable |
//! | [`queue_law`] | what was asked is what replies let in, in their order; what was taken is the front of it, in the order of the replies |
//! | [`acknowledged_law`] | an Accepted mark that was posted is one of the marks of the first requests, of as many as lead to a state whose count is at least the store's; so each prefix state ([`crate::crashes`]) that holds all that commits answered Ok for has all that is acknowledged; and one that holds all that they had answered for by an earlier moment of a run has all that was acknowledged by that moment |
//! | [`tickets_law`] | the lists are those of a life in a chain of lives ([`crate::exactly_once`]); a ticket is refused as already in only where it is at most the last accepted one of its session in the store, and a ticket that is at most that is let in by no reply |
//!
//! ```rust
//! ghost use Rattle.layout_2.specs.State.{State};
//! ghost use Rattle.event_model.specs.Machines.{Machine};
//! ghost use Rattle.event_laws.specs.Listed.{IsListed};
//! ghost use Rattle.generations.specs.Lawful.{IsLawful};
//!
//! use event_laws::lists_law;
//!
//! /// What a listed machine posted is lawful.
//! pub fn posts_lawfully()
//!     ensures { (first : State) (m : Machine) → IsListed first m → IsLawful first.tickets first.count m.postings }
//! {
//!     lists_law();
//! }
//! ```
ghost use Rattle.event_laws.specs.QueueLaws.{BeginsListed, AnswersKeep, RebuildKeeps, RunKeeps, PostingsAreLawful, PostingsAreDurable, QueueKeeps, TakesInOrder, AcknowledgedAreIn, PrefixHoldsAcknowledged, AcknowledgedStay, IsOneLife, AlreadyInIsIn, InIsRefused};

/// A life begins with lists that are kept; what answers an event keeps them, a rebuild does, and so does a run; and then the postings
/// are lawful, and each generation among them is durable.
pub fn lists_law()
    ensures begins { BeginsListed }
    ensures answers { AnswersKeep }
    ensures rebuild { RebuildKeeps }
    ensures run { RunKeeps }
    ensures lawful { PostingsAreLawful }
    ensures durable { PostingsAreDurable }
{}

/// The queue keeps its history: what was asked in all are the requests that replies let in, in their order, and what was taken is the
/// front of these, as the replies say.
pub fn queue_law()
    ensures asked { QueueKeeps }
    ensures taken { TakesInOrder }
{}

/// What is acknowledged is in every state after some of the taken requests whose count is at least the store's, and so in each prefix
/// state that holds all that commits answered Ok for. It stays in as a run goes on: what was acknowledged by an earlier moment is in
/// every state after some of the requests taken up to now whose count is at least what the store's was then.
pub fn acknowledged_law()
    ensures states { AcknowledgedAreIn }
    ensures prefixes { PrefixHoldsAcknowledged }
    ensures later { AcknowledgedStay }
{}

/// The lists are those of a life that others may follow. A ticket is refused as already in only where it is at most the last accepted
/// one of its session in the store; and a ticket that is at most that adds nothing, and is refused so unless the session is busy or
/// isn't there, or memory ran out.
pub fn tickets_law()
    ensures life { IsOneLife }
    ensures already_in { AlreadyInIsIn }
    ensures is_in { InIsRefused }
{}
