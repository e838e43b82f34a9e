// What is refused.
ghost use Rattle.std.specs.Prelude.{◌≡◌};
ghost use Rattle.forwarders.specs.Answers.{named};
ghost use Rattle.forwarders.specs.ByteAnswers.{in_turn};

use thiserror::Error;

/// Why a forwarder gives no address, no packet or no move, in the order in which the cases are tested.
#[derive(Clone, Copy, Debug, PartialEq, Eq, Drop, Error)]
pub enum Refused {
    /// The board gave no look.
    #[error("the board gave no look")]
    BoardShut = 6,
    /// No generation of this number stands on the shelf as looked at.
    #[error("generation gone")]
    GenerationGone = 5,
    /// A node isn't below the number of nodes.
    #[error("no node")]
    NoNode = 1,
    /// No tree leads to the destination.
    #[error("unreachable")]
    Unreachable = 2,
    /// The packet isn't one that this node can carry on.
    #[error("stray packet")]
    Stray = 3,
    /// The packet has no hop left.
    #[error("no hop left")]
    Spent = 4,
}

/// Why a forwarder gives no move for bytes, in the order in which the cases are tested.
#[derive(Clone, Copy, Debug, PartialEq, Eq, Drop, Error)]
pub enum BytesRefused {
    /// There are more or fewer bytes than a packet has.
    #[error("bad length")]
    BadLength = 7,
    /// There are more ports than a label has room for.
    #[error("bad count")]
    BadCount = 8,
    /// A place for a port that isn't used isn't 0.
    #[error("bad padding")]
    BadPadding = 9,
    #[error("the board gave no look")]
    BoardShut = 6,
    #[error("generation gone")]
    GenerationGone = 5,
    #[error("no node")]
    NoNode = 1,
    #[error("unreachable")]
    Unreachable = 2,
    #[error("stray packet")]
    Stray = 3,
    #[error("no hop left")]
    Spent = 4,
}

/// A scheme's refusal, as a forwarder's.
pub(crate) fn named_by(refused: schemes::Refused) -> Refused
    ensures { result ≡ named refused }
{
    match refused {
        schemes::Refused::NoNode => Refused::NoNode,
        schemes::Refused::Unreachable => Refused::Unreachable,
        schemes::Refused::Stray => Refused::Stray,
        schemes::Refused::Spent => Refused::Spent,
    }
}

/// A refusal of a packet, as one of its bytes.
pub(crate) fn in_turn_by(refused: Refused) -> BytesRefused
    ensures { result ≡ in_turn refused }
{
    match refused {
        Refused::BoardShut => BytesRefused::BoardShut,
        Refused::GenerationGone => BytesRefused::GenerationGone,
        Refused::NoNode => BytesRefused::NoNode,
        Refused::Unreachable => BytesRefused::Unreachable,
        Refused::Stray => BytesRefused::Stray,
        Refused::Spent => BytesRefused::Spent,
    }
}
