//! Reading the header.
ghost use Rattle.std.specs.Prelude.{◌≡◌, ◌≤◌, ◌<◌, length, IsTrue, IfOk, IfErr, OnOk};
ghost use Rattle.disk_trait.specs.Disk.{bytes_at};
ghost use Rattle.layout_reader.specs.Sizes.{device_len, version, header};
ghost use Rattle.layout_reader.specs.Refusals.{HasLayout};
ghost use Rattle.layout_reader.specs.Reading.{IsRead};
ghost use Rattle.layout_reader.specs.Loading.{IsNotLoaded};

use crate::form::Layout;
use crate::layout::HEADER_LEN;
use crate::reading::{header_nodes, read_array};
use crate::refusals::OpenRefused;
use disk_trait::Disk;

/// The number of nodes that the header names.
pub(crate) fn read_header<L: Layout, D: Disk>(disk: &mut D) -> Result<u16, OpenRefused>
    ensures read { OnOk result (IsRead (D.view disk.old) (D.view disk.new)) }
    ensures long { IfOk result (λ nodes. length (D.view disk.old).content ≡ device_len L.form.sizes) }
    ensures size { IfOk result (λ nodes. (1 ≤ nodes) × (nodes ≤ L.form.sizes.most_nodes)) }
    ensures ok { IsTrue (D.view disk.old).keeps_model
        → IfOk result (λ nodes. bytes_at (D.view disk.old).content 0 10 ≡ header L.form.sizes nodes) }
    ensures this_version { IsTrue (D.view disk.old).keeps_model
        → OnOk result (HasLayout (version L.form.sizes) (D.view disk.old).content) }
    ensures refused { IfErr result (IsNotLoaded L.form (D.view disk.old) (D.view disk.new)) }
{
    let sizes = L::sizes();
    let len = disk.len();
    if len < HEADER_LEN {
        return Err(OpenRefused::NotFormatted);
    }
    let front = read_array::<D, 10>(disk, 0)?;
    let nodes = header_nodes(&front, sizes.digit)?;
    if len != sizes.device_len() || nodes < 1 || nodes > sizes.most_nodes {
        return Err(OpenRefused::Damaged);
    }
    Ok(nodes)
}
