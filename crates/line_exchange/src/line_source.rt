// Where the lines of a service come from.
use crate::line_fault::LineFault;
use crate::messages::{Ask, Stream};

/// Where the lines of a service come from. The reader's thread asks for one after the other.
pub trait LineSource<J: Stream> {
    ghost use Rattle.std.specs.Prelude.{◌≡◌, ◌+◌, ℕ, IfErr, IfOk, IfSome, None};
    ghost use Rattle.line_exchange.specs.Prints.{AreAllLines};
    ghost use Rattle.line_exchange.specs.Reads.{MayFailSo};

    /// The first so many lines were given.
    ghost has_given: { Self → ℕ → Type 0 };

    /// What the line at this place asks for. None where no line is left.
    fn next_ask(&mut self, place: u64) -> Result<Option<Ask<J>>, LineFault>
        requires { has_given self.old place }
        ensures given { IfOk result (λ o. IfSome o (λ ask. has_given self.new (place + 1))) }
        ensures end { IfOk result (λ o. o ≡ None → AreAllLines J.input place) }
        ensures failed { IfErr result (λ why. MayFailSo J.input why) };
}
