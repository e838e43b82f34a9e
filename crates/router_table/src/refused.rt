// Why there is no table.
use std::alloc::AllocError;
use thiserror::Error;

/// Why a scheme gives no table of a node, in the order in which the cases are tested.
#[derive(Clone, Copy, Debug, PartialEq, Eq, Drop, Error)]
pub enum TableRefused {
    /// The node isn't below the number of nodes.
    #[error("no node")]
    NoNode = 1,
    /// There was no memory for the table.
    #[error("out of memory")]
    Memory = 2,
    /// The scheme's lists of the node aren't in order. The tests meet no built scheme that is so.
    #[error("not in order")]
    NotInOrder = 3,
}

/// Why bytes are read as no table, in the order in which the cases are tested.
#[derive(Clone, Copy, Debug, PartialEq, Eq, Drop, Error)]
pub enum ReadRefused {
    /// The letters of a table don't stand in front.
    #[error("no table")]
    NoTable = 1,
    /// The table is of another version.
    #[error("version not known")]
    UnknownVersion = 2,
    /// There are fewer bytes than the counts in them say.
    #[error("cut short")]
    CutShort = 3,
    /// There are more bytes than the counts in them say.
    #[error("too long")]
    TooLong = 4,
    /// The digest isn't that of the bytes before it.
    #[error("damaged")]
    Damaged = 5,
    /// The form is right, but no table in order is spelled so: perhaps a list doesn't ascend, or a value is past its limit.
    #[error("not in order")]
    NotInOrder = 6,
    /// There was no memory for the table.
    #[error("out of memory")]
    Memory = 7,
}

impl From<AllocError> for TableRefused {
    ghost use Rattle.std.specs.Prelude.{◌≡◌};
    ghost use Rattle.router_table.specs.declared.refused.TableRefused.TheVariants.{Memory as NoMemory};

    ghost from_gives = { λ _ e. e ≡ NoMemory };

    fn from(_error: AllocError) -> TableRefused {
        TableRefused::Memory
    }
}

impl From<AllocError> for ReadRefused {
    ghost use Rattle.std.specs.Prelude.{◌≡◌};
    ghost use Rattle.router_table.specs.declared.refused.ReadRefused.TheVariants.{Memory as ReadMemory};

    ghost from_gives = { λ _ e. e ≡ ReadMemory };

    fn from(_error: AllocError) -> ReadRefused {
        ReadRefused::Memory
    }
}
