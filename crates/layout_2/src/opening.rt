//! Opening: what stands on a device.
ghost use Rattle.std.specs.Prelude.{◌≡◌, ◌<◌, IfOk, IfErr};
ghost use Rattle.layout_2.specs.Layout.{journal_of};
ghost use Rattle.layout_2.specs.Loading.{IsLoaded, IsNotLoaded};

use crate::form::Layout2;
use crate::layout::SIZES;
use disk_trait::Disk;
use journal::Area;
use layout_reader::OpenRefused;
use requests::{Request, SESSIONS};
use std::alloc::Global;

/// What stands on a device: the state, and the slot, the checkpoint and the journal that it comes from. `tickets` is the last ticket of
/// each session.
pub type Loaded = layout_reader::Loaded<Request, [u64; SESSIONS]>;

/// Where a slot's journal stands.
pub fn journal_area(slot: usize) -> Area
    requires { slot < 2 }
    ensures { result ≡ journal_of slot }
{
    SIZES.journal_area(slot)
}

/// What stands on a device. It syncs, and writes nothing.
pub fn load<D: Disk>(alloc: Global, disk: &mut D) -> Result<Loaded, OpenRefused>
    ensures ok { IfOk result (IsLoaded (D.view disk.old) (D.view disk.new)) }
    ensures refused { IfErr result (IsNotLoaded (D.view disk.old) (D.view disk.new)) }
{
    layout_reader::load::<Layout2, D>(alloc, disk)
}
