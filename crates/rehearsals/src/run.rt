//! Running a rehearsal.
ghost use Rattle.std.specs.Prelude.{◌≡◌, IfOk, IsErrOf};
ghost use Rattle.std.specs.String.{string_bytes};
ghost use Rattle.disk_trait.specs.Memory.{mem_view};
ghost use Rattle.layout_2.specs.State.{first_state};
ghost use Rattle.layout_2.specs.Standing.{StandsFor};
ghost use Rattle.life_chain.specs.Words.{IsLeftByWord};
ghost use Rattle.rehearsals.specs.Rehearsed.{IsOutOfRange, IsRehearsed, IsReported};

use crate::asked::Rehearsal;
use crate::report::report_text;
use checkpoint::{DEVICE_LEN, FormatRefused, format};
use disk_trait::{Disk, MemDisk};
use life_chain::{Life, LivesReport, lives_in_memory};
use std::alloc::{AllocError, Global};
use thiserror::Error;

/// Why a rehearsal isn't run.
#[derive(Clone, Copy, Debug, PartialEq, Eq, Drop, Error)]
pub enum RehearseRefused {
    /// A device can't have so many nodes.
    #[error("node count out of range")]
    Nodes,
    /// Memory ran out.
    #[error("out of memory")]
    Memory,
}

impl From<AllocError> for RehearseRefused {
    ghost use Rattle.rehearsals.specs.declared.run.RehearseRefused.TheVariants.{Memory};

    ghost from_gives = { λ _ e. e ≡ Memory };

    fn from(_: AllocError) -> Self {
        RehearseRefused::Memory
    }
}

/// Runs the lives on a device that is made for them, and answers the lines of the report: of all lives but the last, which only opens,
/// all that they were answered, and of that one what it found.
pub fn rehearse(alloc: Global, rehearsal: &Rehearsal) -> Result<String, RehearseRefused>
    ensures printed { IfOk result (λ text. IsRehearsed ⟦<MemDisk as Disk>⟧ rehearsal.now (string_bytes text)) }
    ensures nodes { IsErrOf result RehearseRefused.Nodes → IsOutOfRange rehearsal.now.nodes }
{
    let report = run_lives(alloc, rehearsal.nodes, &rehearsal.lives)?;
    let whole = rehearsal.lives.len().saturating_sub(1);
    Ok(report_text(alloc, whole, &report)?)
}

/// Runs these lives on a device in memory that is made for them, and answers their report.
pub fn run_lives(alloc: Global, nodes: u16, lives: &[Life]) -> Result<LivesReport, RehearseRefused>
    ensures reported { IfOk result (λ report.
        (left : MemDisk) × IsReported ⟦<MemDisk as Disk>⟧ IsLeftByWord nodes lives.now report left) }
    ensures nodes { IsErrOf result RehearseRefused.Nodes → IsOutOfRange nodes }
{
    let disk = formatted_device(alloc, nodes)?;
    let (report, _) = lives_in_memory(alloc, disk, lives);
    Ok(report?)
}

/// A device in memory, formatted for so many nodes.
pub fn formatted_device(alloc: Global, nodes: u16) -> Result<MemDisk, RehearseRefused>
    ensures formatted { IfOk result (λ disk. StandsFor (first_state nodes) (mem_view disk).content) }
    ensures nodes { IsErrOf result RehearseRefused.Nodes → IsOutOfRange nodes }
{
    let mut disk = MemDisk::new(alloc, DEVICE_LEN)?;
    match format(&mut disk, nodes) {
        Ok(()) => Ok(disk),
        Err(FormatRefused::BadSize) => Err(RehearseRefused::Nodes),
        Err(_) => Err(RehearseRefused::Memory),
    }
}
