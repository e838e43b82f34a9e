//! Exactly once over crashes: what follows for the accepted changes of several lives of a device, from tickets that rise.
//!
//! # What it is
//!
//! A life of a device is what happened between an opening and the next one. It leaves some of its accepted changes on the device,
//! and the next life begins with the state after these. Joined, lives that follow one another give one list: of each life those
//! of its changes with which the next one began, and of the last one those for which a commit answered Ok. There is no code here:
//! the module says what that list is (specs/LaterLives.antt), and proves what holds of it (specs/OnceLaws.antt).
//!
//! # The contract
//!
//! What the crate above cites is [`exactly_once_laws`]. Its premise is a chain: each life began with a last ticket for each
//! session, let in requests in turn from there, told no mark but those of answered groups, and the next life opened to the
//! state after some of its requests that has all that a commit answered Ok for. Then, in the joined list of these lives and of
//! each beginning of them, each session's ticket stands at most once, and only above the session's last one on the first disk;
//! one that is acknowledged stands there exactly once; each life opens to the last tickets of what is in by then, so that
//! `resume` answers them; none of these is let in again; and each ticket of the list is refused, by any board of the life, as
//! `Busy` where the session's last change isn't settled on that board, and else as `AlreadyIn`.
//!
//! Two laws tie this to the calls of an opening: a request that a board lets in leaves the requests in turn, and where a
//! session isn't busy on a board, the last accepted ticket that the board has of it is the store's.
ghost use Rattle.event_laws.specs.OnceLaws.{ExactlyOnce, LetInTurn, FreeShowsLast};

/// Of lives that follow one another, and of each beginning of them, the joined list has each session's ticket at most once, and
/// an acknowledged one exactly once; a request that a board lets in leaves requests in turn; and where a session isn't busy
/// on a board, the board has the last ticket of it that is in. It does nothing: its contract is the laws.
pub fn exactly_once_laws()
    ensures exactly_once { ExactlyOnce }
    ensures let_in_turn { LetInTurn }
    ensures free_shows_last { FreeShowsLast }
{}
