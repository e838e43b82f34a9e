//! How a run of the program ends.
ghost use Rattle.std.specs.Prelude.{◌≡◌, ◌≤◌, IsTrue};
ghost use Rattle.command_output.specs.declared.fault.Fault.{Fault};
ghost use Rattle.commands.specs.Runs.{IsToldSo, status_in};

use command_output::{Ended, Fault, FaultWriter};

/// How a run of the program ended.
#[derive(Clone, Copy, Debug, PartialEq, Eq, Drop)]
pub enum Outcome {
    /// The answer was printed.
    Answered(Ended),
    /// A fault ended it, and was told.
    Told(Fault),
    /// A fault ended it, and telling it failed.
    Untold(Fault),
}

impl Outcome {
    /// The program's exit status.
    pub fn status(self) -> u8
        ensures value { result ≡ status_in self }
        ensures few { result ≤ 2 }
    {
        match self {
            Outcome::Answered(ended) => ended.status(),
            Outcome::Told(fault) => fault.status(),
            Outcome::Untold(fault) => fault.status(),
        }
    }
}

/// Tells a fault, where one ended the run.
pub(crate) fn told<E: FaultWriter>(err: &mut E, ended: Result<Ended, Fault>) -> Outcome
    ensures told { IsToldSo ended (E.contents err.old) (E.contents err.new) result }

    ensures untold { (fault : Fault) → result ≡ Outcome.Untold fault → IsTrue (E.has_failed err.new) }
{
    match ended {
        Ok(ended) => Outcome::Answered(ended),
        Err(fault) => match err.tell(fault) {
            Ok(()) => Outcome::Told(fault),
            Err(_) => Outcome::Untold(fault),
        },
    }
}
