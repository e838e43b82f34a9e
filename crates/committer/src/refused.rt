// Why a round or a rebuild is refused.

use thiserror::Error;

/// Why a round is refused. `Down` is tested first, then what is due (`Board`); the rest is the commit's answer, and `Board` behind it.
#[derive(Clone, Copy, Debug, PartialEq, Eq, Drop, Error)]
pub enum RoundRefused {
    /// A call of the device failed. The group stays held; a later opening finds all of it, or nothing.
    #[error("a call of the device failed")]
    Device = 1,
    /// The device failed before.
    #[error("the device failed before")]
    Down = 2,
    /// Memory ran out. The group stays held, and nothing of it is on the device.
    #[error("out of memory")]
    Memory = 3,
    /// The board took no posting. It waits for the next call; no commit is undone.
    #[error("the board took no posting")]
    Board = 4,
    /// Numbers have run out: the count has no room for the group, or a roll is needed and there is no epoch after this one. The
    /// group stays held, and nothing of it is on the device.
    #[error("the count or the epoch is at its limit")]
    Worn = 5,
}

/// Why a rebuild is refused.
#[derive(Clone, Copy, Debug, PartialEq, Eq, Drop, Error)]
pub enum RebuildRefused {
    /// Memory ran out, or the scratch did: there is no scheme.
    #[error("out of memory")]
    Memory = 1,
    /// The device failed before.
    #[error("the device failed before")]
    Down = 2,
    /// The board took no posting, or one of its copies didn't take up what was posted.
    #[error("the board took no posting")]
    Board = 3,
}
