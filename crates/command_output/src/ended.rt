//! How a command ends that no fault ends.
ghost use Rattle.std.specs.Prelude.{◌≡◌, ◌≤◌};
ghost use Rattle.command_output.specs.Faults.{status_at};

/// How a command ended that no fault ended.
#[derive(Clone, Copy, Debug, PartialEq, Eq, Drop)]
pub enum Ended {
    /// What was asked for is done.
    Done,
    /// The answer is no: a change that is refused, a node that can't be reached, a check that fails.
    Refused,
}

impl Ended {
    /// The program's exit status.
    pub fn status(self) -> u8
        ensures value { result ≡ status_at self }
        ensures done { result ≡ 0 → self ≡ Ended.Done }
        ensures refused { result ≡ 1 → self ≡ Ended.Refused }
        ensures few { result ≤ 1 }
    {
        match self {
            Ended::Done => 0,
            Ended::Refused => 1,
        }
    }
}
