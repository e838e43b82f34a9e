//! Why words are no task.
ghost use Rattle.std.specs.Prelude.{◌≡◌};

use std::alloc::{AllocError, AllocFailed};
use thiserror::Error;

/// Why words are no task, in the order of the tests. Memory can run out at any of them.
#[derive(Clone, Copy, Debug, PartialEq, Eq, Drop, Error)]
pub enum WordsRefused {
    /// They are no command, or a number among them is out of its range.
    #[error("usage")]
    Usage,
    /// What stands behind `--words` is of none of the forms.
    #[error("words not understood")]
    Words,
    /// A word in the place of an OP isn't one.
    #[error("op not understood")]
    Op,
    /// There are more OPs than a change may have.
    #[error("change too long")]
    TooLong,
    /// Memory ran out.
    #[error("out of memory")]
    Memory,
}

impl From<AllocError> for WordsRefused {
    ghost use Rattle.command_line.specs.declared.refused.WordsRefused.TheVariants.{Memory};

    ghost from_gives = { λ _ e. e ≡ Memory };

    fn from(_: AllocError) -> Self {
        WordsRefused::Memory
    }
}

impl<T: Drop> From<AllocFailed<T>> for WordsRefused {
    ghost use Rattle.command_line.specs.declared.refused.WordsRefused.TheVariants.{Memory};

    ghost from_gives = { λ _ e. e ≡ Memory };

    fn from(_: AllocFailed<T>) -> Self {
        WordsRefused::Memory
    }
}
