//! What commands answer, and how that is printed.
ghost use Rattle.std.specs.Prelude.{◌≡◌, List, Ok, ℕ};
ghost use Rattle.std.specs.String.{string_bytes};
ghost use Rattle.command_output.specs.Lines.{line};
ghost use Rattle.command_output.specs.declared.ended.Ended.{Ended};
ghost use Rattle.command_output.specs.declared.ended.Ended.TheVariants.{Done};
ghost use Rattle.file_commands.specs.Copies.{copied_text};
ghost use Rattle.file_commands.specs.Printed.{ended_by, verdict_text};
ghost use Rattle.file_commands.specs.Runs.{EndsAfter};
ghost use Rattle.file_commands.specs.Uses.{stream};

use crate::copying::Copied;
use command_output::{AcceptedLine, Ended, Fault, RefusedLine, print_line, print_text};
use generations::Verdict;
use std::io::Write;

/// What a command answers of its device.
pub(crate) trait Answer: Drop {
    /// How a command ends that answers it.
    ghost ended: { Self → Ended };

    /// What it prints.
    ghost text: { Self → List ℕ };

    /// Prints it.
    fn print<O: Write>(self, out: &mut O) -> Result<Ended, Fault>
        ensures { EndsAfter (Ok self) ended text (stream O.contents out.old out.new) result };
}

/// Prints what was answered of a device, which comes back, or hands on the fault.
pub(crate) fn printed<A: Answer, D, O: Write>(
    out: &mut O,
    answered: (Result<A, Fault>, D),
) -> (Result<Ended, Fault>, D)
    ensures ends { EndsAfter answered.0 A.ended A.text (stream O.contents out.old out.new) result.0 }
    ensures back { result.1 ≡ answered.1 }
{
    let (answer, disk) = answered;
    match answer {
        Ok(answer) => (answer.print(out), disk),
        Err(fault) => (Err(fault), disk),
    }
}

impl Answer for String {
    ghost ended = { λ text. Done };

    ghost text = { string_bytes };

    fn print<O: Write>(self, out: &mut O) -> Result<Ended, Fault> {
        print_text(out, self.as_str())?;
        Ok(Ended::Done)
    }
}

impl Answer for Verdict {
    ghost ended = { ended_by };

    ghost text = { λ verdict. line (verdict_text verdict) };

    fn print<O: Write>(self, out: &mut O) -> Result<Ended, Fault> {
        match self {
            Verdict::Accepted { count } => {
                print_line(out, AcceptedLine { count })?;
                Ok(Ended::Done)
            }
            Verdict::Refused { op, code } => {
                print_line(out, RefusedLine { op, code })?;
                Ok(Ended::Refused)
            }
        }
    }
}

impl Answer for Copied {
    ghost ended = { λ copied. Done };

    ghost text = { λ copied. line (copied_text copied.count copied.edges) };

    fn print<O: Write>(self, out: &mut O) -> Result<Ended, Fault> {
        print_line(out, self)?;
        Ok(Ended::Done)
    }
}
