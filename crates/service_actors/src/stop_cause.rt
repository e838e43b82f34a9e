// Why the threads of a service stop.
ghost use Rattle.std.specs.Prelude.{◌≡◌};

use std::alloc::{AllocError, AllocFailed};
use thiserror::Error;

/// Why the threads of a service stop. The device is open then, and its landmark words fit it.
#[derive(Clone, Copy, Debug, PartialEq, Eq, Drop, Error)]
pub enum StopCause {
    /// A call of the device failed.
    #[error("a call of the device failed")]
    Device,
    /// The count, the epoch or a session's ticket stands at its limit.
    #[error("the count, the epoch or a session's ticket stands at its limit")]
    Worn,
    /// Memory ran out.
    #[error("memory ran out")]
    Memory,
    /// The board took no posting.
    #[error("the board took no posting")]
    Board,
    /// The system made no thread.
    #[error("the system made no thread")]
    NoThread,
    /// Two parts of the service disagree. No run is known that ends so.
    #[error("two parts of the service disagree")]
    Internal,
}

impl From<AllocError> for StopCause {
    ghost use Rattle.service_actors.specs.declared.stop_cause.StopCause.TheVariants.{Memory};

    ghost from_gives = { λ _ e. e ≡ Memory };

    fn from(_: AllocError) -> Self {
        StopCause::Memory
    }
}

impl<T: Drop> From<AllocFailed<T>> for StopCause {
    ghost use Rattle.service_actors.specs.declared.stop_cause.StopCause.TheVariants.{Memory};

    ghost from_gives = { λ _ e. e ≡ Memory };

    fn from(_: AllocFailed<T>) -> Self {
        StopCause::Memory
    }
}
