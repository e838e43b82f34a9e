//! Writing a whole state at once: a count and a network, as a fresh device holds them.
ghost use Rattle.std.specs.Prelude.{◌≡◌, ◌≤◌, ◌<◌, ◌+◌, ℕ, List, length, false, IsTrue, OnOk, OnErr, IsErrOf};
ghost use Rattle.disk_trait.specs.Disk.{MayLeave, AtMostCalls, IsSameDevice, IsSettled, LeavesOnly, IsTornFrom, bytes_at};
ghost use Rattle.layout_2.specs.Layout.{checkpoint_room, device_len, slot_room, slots_start, worn_limit};
ghost use Rattle.layout_2.specs.State.{AreTickets, state_with};
ghost use Rattle.checkpoint.specs.Whole.{without_tickets, IsAllForeign, IsShut, IsWriting, IsWritten};
ghost use Rattle.checkpoint.specs.Written.{IsNowWritten, WritesWholly};

use crate::formatting::header_of;
use crate::roll::text_of;
use crate::store::Store;
use disk_trait::{DeviceFault, Disk, close, publish};
use graph_edits::Graph;
use layout_2::layout::{FIRST_EPOCH, SLOT_ROOM, SLOTS_START};
use requests::SESSIONS;
use std::alloc::Global;
use thiserror::Error;

/// Why a state isn't written. Tested in the order Memory, Device.
#[derive(Clone, Copy, Debug, PartialEq, Eq, Drop, Error)]
pub enum WriteRefused {
    /// A call of the device failed.
    #[error("a call of the device failed")]
    Device = 2,
    /// Memory ran out before anything was written.
    #[error("out of memory")]
    Memory = 3,
}

// Puts bytes from `at` on, and syncs: at most two calls of the device.
fn put_synced<D: Disk>(disk: &mut D, at: usize, bytes: &[u8]) -> Result<(), DeviceFault>
    requires { at + length bytes.now ≤ length (D.view disk.old).content }
    ensures ran { IsSameDevice (D.view disk.old) (D.view disk.new) }
    ensures fault { OnErr result ((D.view disk.old).failures < (D.view disk.new).failures) }
    ensures no_failure { OnOk result ((D.view disk.new).failures ≡ (D.view disk.old).failures) }
    ensures calls { AtMostCalls 2 (D.view disk.old) (D.view disk.new) }

    ensures any_moment { IsTrue (D.view disk.old).keeps_model
        → LeavesOnly (D.view disk.old) (D.view disk.new) (IsTornFrom (D.view disk.old) at (length bytes.now)) }
    ensures settled { IsTrue (D.view disk.old).keeps_model → OnOk result (IsSettled (D.view disk.new)) }
    ensures there { IsTrue (D.view disk.old).keeps_model
        → OnOk result (bytes_at (D.view disk.new).content at (length bytes.now) ≡ bytes.now) }
{
    disk.write_at(at, bytes)?;
    disk.sync()?;
    Ok(())
}

// Closes both slots' gates: at most four calls of the device.
fn shut_slots<D: Disk>(disk: &mut D) -> Result<(), DeviceFault>
    requires { length (D.view disk.old).content ≡ device_len }
    ensures ran { IsSameDevice (D.view disk.old) (D.view disk.new) }
    ensures fault { OnErr result ((D.view disk.old).failures < (D.view disk.new).failures) }
    ensures no_failure { OnOk result ((D.view disk.new).failures ≡ (D.view disk.old).failures) }
    ensures calls { AtMostCalls 4 (D.view disk.old) (D.view disk.new) }

    ensures any_moment { IsTrue (D.view disk.old).keeps_model
        → LeavesOnly (D.view disk.old) (D.view disk.new) (IsTornFrom (D.view disk.old) slots_start (slot_room + 1)) }
    ensures ok { IsTrue (D.view disk.old).keeps_model
        → OnOk result ((image : List ℕ) → MayLeave (D.view disk.new) image → IsShut image) }
{
    close(disk, SLOTS_START)?;
    close(disk, SLOTS_START + SLOT_ROOM)?;
    Ok(())
}

// Puts a whole device behind its gates: they are closed first, then the header is put, then the text of
// slot 0, whose gate is opened last.
fn put_whole<D: Disk>(disk: &mut D, nodes: u16, text: &[u8]) -> Result<(), DeviceFault>
    requires long { length (D.view disk.old).content ≡ device_len }
    requires text { length text.now ≡ checkpoint_room }
    ensures ran { IsSameDevice (D.view disk.old) (D.view disk.new) }
    ensures fault { OnErr result ((D.view disk.old).failures < (D.view disk.new).failures) }
    ensures no_failure { OnOk result ((D.view disk.new).failures ≡ (D.view disk.old).failures) }
    ensures calls { AtMostCalls 10 (D.view disk.old) (D.view disk.new) }

    ensures any_moment { IsTrue (D.view disk.old).keeps_model → IsAllForeign (D.view disk.old)
        → LeavesOnly (D.view disk.old) (D.view disk.new) (IsWriting nodes text.now) }
    ensures ok { IsTrue (D.view disk.old).keeps_model
        → OnOk result ((image : List ℕ) → MayLeave (D.view disk.new) image → IsWritten nodes text.now image) }
{
    shut_slots(disk)?;
    put_synced(disk, 0, &header_of(nodes))?;
    publish(disk, SLOTS_START, text)
}

// Makes a device hold this count, this network and these last tickets, as `write_state` does.
fn write_with<D: Disk>(
    alloc: Global,
    disk: &mut D,
    count: u64,
    graph: &Graph,
    tickets: &[u64; SESSIONS],
) -> Result<(), WriteRefused>
    requires long { length (D.view disk.old).content ≡ device_len }
    requires count { count ≤ worn_limit }
    ensures no_failure { OnOk result ((D.view disk.new).failures ≡ (D.view disk.old).failures) }
    ensures ok { OnOk result (AreTickets tickets.now
        → IsNowWritten (state_with count graph.now tickets.now) (D.view disk.old) (D.view disk.new)) }

    ensures memory { IsErrOf result WriteRefused.Memory → disk.new ≡ disk.old }
    ensures device { IsErrOf result WriteRefused.Device → (D.view disk.old).failures < (D.view disk.new).failures }

    ensures ran { IsSameDevice (D.view disk.old) (D.view disk.new) }
    ensures calls { AtMostCalls 10 (D.view disk.old) (D.view disk.new) }

    ensures any_moment { AreTickets tickets.now
        → WritesWholly (state_with count graph.now tickets.now) (D.view disk.old) (D.view disk.new) }
{
    graph.sound();
    let text = match text_of(alloc, FIRST_EPOCH, count, graph, tickets) {
        Ok(text) => text,
        Err(_) => return Err(WriteRefused::Memory),
    };
    match put_whole(disk, graph.nodes(), &text) {
        Ok(()) => Ok(()),
        Err(_) => Err(WriteRefused::Device),
    }
}

/// Makes a device hold this count and this network, as a fresh device does: in slot 0, with the first
/// epoch, an empty journal and all last tickets 0 (`fresh`). Whatever it held before is lost. At most
/// ten calls of the device.
///
/// Where no image that a crash may leave of the device at entry has the front of this layout, as on a
/// new device of zeros, a crash at any moment leaves an image that stands for nothing or for the whole
/// state (`any_moment`). It needs one buffer, of the size of a checkpoint's area.
///
/// Errors, in the order in which they are tested: `Memory`, before any write, leaves the device as it
/// was; `Device`, where a call of the device failed.
pub fn write_state<D: Disk>(
    alloc: Global,
    disk: &mut D,
    count: u64,
    graph: &Graph,
) -> Result<(), WriteRefused>
    requires long { length (D.view disk.old).content ≡ device_len }
    requires count { count ≤ worn_limit }
    ensures ok { OnOk result (IsNowWritten (without_tickets count graph.now) (D.view disk.old) (D.view disk.new)) }

    ensures memory { IsErrOf result WriteRefused.Memory → disk.new ≡ disk.old }
    ensures device { IsErrOf result WriteRefused.Device → (D.view disk.old).failures < (D.view disk.new).failures }

    ensures ran { IsSameDevice (D.view disk.old) (D.view disk.new) }
    ensures calls { AtMostCalls 10 (D.view disk.old) (D.view disk.new) }

    ensures any_moment { WritesWholly (without_tickets count graph.now) (D.view disk.old) (D.view disk.new) }
{
    write_with(alloc, disk, count, graph, &[0; SESSIONS])
}

impl<D: Disk> Store<D> {
    ghost use Rattle.checkpoint.specs.StoreWords.{is_down, state_of, view_of};

    /// Makes another device hold this store's count, network and last tickets, as a device that has just been written does:
    /// in slot 0, with the first epoch and an empty journal. What that device held before is lost; the store's own stays as
    /// it is, and gets no call. At most ten calls of the other device, and one buffer, of the size of a checkpoint's area.
    ///
    /// That the whole state is there is said of the store of a device that keeps the model and hasn't failed. Where no image
    /// that a crash may leave of the other device at entry has the front of this layout, a crash at any moment leaves of it
    /// an image that stands for nothing or for the whole state (`any_moment`).
    ///
    /// Errors as those of [`write_state`].
    pub fn write_to<N: Disk>(&self, alloc: Global, other: &mut N) -> Result<(), WriteRefused>
        requires { length (N.view other.old).content ≡ device_len }
        ensures no_failure { OnOk result ((N.view other.new).failures ≡ (N.view other.old).failures) }
        ensures ok { IsTrue (view_of self.now).keeps_model → is_down self.now ≡ false
            → OnOk result (IsNowWritten (state_of self.now) (N.view other.old) (N.view other.new)) }

        ensures memory { IsErrOf result WriteRefused.Memory → other.new ≡ other.old }
        ensures device { IsErrOf result WriteRefused.Device → (N.view other.old).failures < (N.view other.new).failures }

        ensures ran { IsSameDevice (N.view other.old) (N.view other.new) }
        ensures calls { AtMostCalls 10 (N.view other.old) (N.view other.new) }

        ensures any_moment { IsTrue (view_of self.now).keeps_model → is_down self.now ≡ false
            → WritesWholly (state_of self.now) (N.view other.old) (N.view other.new) }
    {
        write_with(alloc, other, self.count, &self.graph, &self.tickets)
    }
}
