//! Opening: what stands on a device.
ghost use Rattle.std.specs.Prelude.{IfOk, IfErr};
ghost use Rattle.layout_1.specs.Loading.{IsLoaded, IsNotLoaded};

use crate::form::Layout1;
use disk_trait::Disk;
use graph_edits::Change;
use layout_reader::OpenRefused;
use std::alloc::Global;

/// What stands on a device: the state, and the slot, the checkpoint and the journal that it comes from. There are no tickets.
pub type Loaded = layout_reader::Loaded<Change, ()>;

/// What stands on a device. It syncs, and writes nothing.
pub fn load<D: Disk>(alloc: Global, disk: &mut D) -> Result<Loaded, OpenRefused>
    ensures ok { IfOk result (IsLoaded (D.view disk.old) (D.view disk.new)) }
    ensures refused { IfErr result (IsNotLoaded (D.view disk.old) (D.view disk.new)) }
{
    layout_reader::load::<Layout1, D>(alloc, disk)
}
