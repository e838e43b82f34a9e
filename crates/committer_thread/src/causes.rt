// Why the committer's thread stops, and all others with it, where a round or a rebuild is refused.
ghost use Rattle.std.specs.Prelude.{◌≡◌};
ghost use Rattle.committer_thread.specs.Causes.{rebuild_cause, round_cause};

use committer::{RebuildRefused, RoundRefused};
use service_actors::StopCause;

// Of a round. After the first failure of a device no round is asked for, so `Down` is the device's too.
pub(crate) fn cause_of_round(refused: RoundRefused) -> StopCause
    ensures { result ≡ round_cause refused }
{
    match refused {
        RoundRefused::Device | RoundRefused::Down => StopCause::Device,
        RoundRefused::Memory => StopCause::Memory,
        RoundRefused::Board => StopCause::Board,
        RoundRefused::Worn => StopCause::Worn,
    }
}

// Of a rebuild, and of what is posted of one.
pub(crate) fn cause_of_rebuild(refused: RebuildRefused) -> StopCause
    ensures { result ≡ rebuild_cause refused }
{
    match refused {
        RebuildRefused::Memory => StopCause::Memory,
        RebuildRefused::Down => StopCause::Device,
        RebuildRefused::Board => StopCause::Board,
    }
}
