// What a board says of a session's last change, and of its next one.
ghost use Rattle.std.specs.Prelude.{◌≡◌};
ghost use Rattle.intake.specs.Outcomes.{outcome_in, outcome_on, refusal_on, standing_on};

use generations::{Board, Mark, Verdict};
use graph_edits::Code;
use requests::WORN_LIMIT;
use thiserror::Error;

/// What became of the last change that a session submitted, as far as a board says.
#[derive(Clone, Copy, Debug, PartialEq, Eq, Drop)]
pub enum Outcome {
    /// None was submitted yet.
    Nothing,
    /// It is in the graph and on the device; with it, `count` changes are.
    Accepted { ticket: u64, count: u64 },
    /// Nothing of it is in the graph: its op at the place `op`, counted from 0, is the first that is refused.
    Refused { ticket: u64, op: usize, code: Code },
    /// It isn't settled, and the device has failed.
    Down,
    /// It isn't settled.
    Waiting,
}

/// What became of the last change that a session submitted, as far as a board says, with the mark itself.
#[derive(Clone, Copy, Debug, PartialEq, Eq, Drop)]
pub enum Standing {
    /// None was submitted yet.
    Nothing,
    /// It is settled, and has this mark: it is in the graph and on the device, or nothing of it is.
    Settled(Mark),
    /// It isn't settled, and the device has failed.
    Down,
    /// It isn't settled.
    Waiting,
}

impl Standing {
    /// What it says without the mark's session.
    pub fn outcome(&self) -> Outcome
        ensures { result ≡ outcome_in self.now }
    {
        match *self {
            Standing::Nothing => Outcome::Nothing,
            Standing::Settled(mark) => {
                let ticket = mark.ticket;
                match mark.verdict {
                    Verdict::Accepted { count } => Outcome::Accepted { ticket, count },
                    Verdict::Refused { op, code } => Outcome::Refused { ticket, op, code },
                }
            }
            Standing::Down => Outcome::Down,
            Standing::Waiting => Outcome::Waiting,
        }
    }
}

/// Why a change isn't submitted. The tests stand in the order of the board's, the session's and the queue's; the numbers are
/// those of the calls' table.
#[derive(Clone, Copy, Debug, PartialEq, Eq, Drop, Error)]
pub enum SubmitRefused {
    /// The board can't be looked at.
    #[error("the board gave no look")]
    BoardShut = 3,
    /// By what the board shows the session's last change is still open.
    #[error("the last change of the session is still open")]
    Busy = 1,
    /// The ticket is at most the session's last accepted one on the board as looked at, or its start.
    #[error("the ticket is in already")]
    AlreadyIn = 5,
    /// The ticket is at most the last one that was submitted in this opening.
    #[error("the ticket was submitted before")]
    OldTicket = 6,
    /// The ticket is past the worn limit.
    #[error("the ticket is past its limit")]
    Worn = 4,
    /// No place of the queue was free.
    #[error("the queue is full")]
    QueueFull = 2,
}

/// What a board says of the last ticket that a session submitted in this opening, none where it submitted nothing.
pub fn standing_of(board: &Board, session: u8, last: Option<u64>) -> Standing
    ensures { result ≡ standing_on board.now session last }
{
    let Some(last) = last else {
        return Standing::Nothing;
    };
    match board.mark(session) {
        Some(mark) if mark.ticket == last => Standing::Settled(mark),
        _ if board.is_down() => Standing::Down,
        _ => Standing::Waiting,
    }
}

/// The same without the mark's session.
pub fn outcome_of(board: &Board, session: u8, last: Option<u64>) -> Outcome
    ensures { result ≡ outcome_on board.now session last }
{
    standing_of(board, session, last).outcome()
}

/// Why a session may not submit a change under this ticket, by a board, the queue aside. `start` is where its tickets start, and
/// `last` the last one that it submitted in this opening.
pub fn refusal_of(
    board: &Board,
    session: u8,
    start: u64,
    last: Option<u64>,
    ticket: u64,
) -> Option<SubmitRefused>
    ensures { result ≡ refusal_on board.now session start last ticket }
{
    if matches!(
        outcome_of(board, session, last),
        Outcome::Down | Outcome::Waiting
    ) {
        return Some(SubmitRefused::Busy);
    }
    if ticket <= board.accepted(session) {
        return Some(SubmitRefused::AlreadyIn);
    }
    if ticket <= last.unwrap_or(start) {
        return Some(SubmitRefused::OldTicket);
    }
    if ticket > WORN_LIMIT {
        return Some(SubmitRefused::Worn);
    }
    None
}
