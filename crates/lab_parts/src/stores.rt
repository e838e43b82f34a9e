//! What a device holds.
ghost use Rattle.std.specs.Prelude.{IfOk};
ghost use Rattle.layout_2.specs.Loading.{state_of};
ghost use Rattle.lab_parts.specs.States.{Holds};

use command_output::Fault;
use disk_trait::Disk;
use layout_2::{Loaded, OpenRefused, load};
use std::alloc::Global;

/// What a device holds, or what is told of one that is refused. It is only read.
#[tactic(auto, using(crate::proofs::Loading::holds_loaded))]
pub fn loaded_of<D: Disk>(alloc: Global, disk: &mut D) -> Result<Loaded, Fault>
    ensures { IfOk result (λ loaded. Holds (D.view disk.old) (D.view disk.new) (state_of loaded)) }
{
    match load(alloc, disk) {
        Ok(loaded) => Ok(loaded),
        Err(OpenRefused::NotFormatted) => Err(Fault::NotFormatted),
        Err(OpenRefused::BadVersion) => Err(Fault::LayoutNotKnown),
        Err(OpenRefused::Damaged) => Err(Fault::Damaged),
        Err(OpenRefused::Device) => Err(Fault::Device),
        Err(OpenRefused::Memory) => Err(Fault::Memory),
    }
}
