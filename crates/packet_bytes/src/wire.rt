//! What is spelled in bytes.
ghost use Rattle.std.specs.Prelude.{◌≡◌, List, Option, None, Some, ℕ, MatchResult};
ghost use Rattle.packet_bytes.specs.declared.wire.WireRefused.{WireRefused};

use thiserror::Error;

/// Why bytes are refused, in the order in which the cases are tested.
#[derive(Clone, Copy, Debug, PartialEq, Eq, Drop, Error)]
pub enum WireRefused {
    /// There are more or fewer bytes than each spelling has.
    #[error("bad length")]
    BadLength = 1,
    /// An address's flag is neither 0 nor 1, or it is 0 and a later byte isn't.
    #[error("bad flag")]
    BadFlag = 4,
    /// There are more ports than a label has room for.
    #[error("bad count")]
    BadCount = 2,
    /// A place for a port that isn't used isn't 0.
    #[error("bad padding")]
    BadPadding = 3,
}

/// A value that has one spelling in bytes. Contracts see the spelling as a list.
pub trait Wire: Sized {
    /// An array of as many bytes as each spelling has.
    type Bytes;

    // The bytes of an array, in order.
    ghost bytes_in: { Self.Bytes → List ℕ };

    // That bytes are the spelling of a value, whose numbers fit their places.
    ghost Spells: { List ℕ → Self → Type 0 };

    // Why bytes are no spelling, if they are none.
    ghost refusal: { List ℕ → Option WireRefused };

    /// The spelling.
    fn to_bytes(&self) -> Self::Bytes
        ensures { Spells (bytes_in result) self.now };

    /// The value whose spelling the bytes are, or the first case that refuses them.
    fn from_bytes(bytes: &[u8]) -> Result<Self, WireRefused>
        ensures { MatchResult result (λ value. (refusal bytes.now ≡ None) × Spells bytes.now value)
            (λ refused. refusal bytes.now ≡ Some refused) };
}
