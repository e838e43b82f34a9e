//! Making a device ready.
ghost use Rattle.std.specs.Prelude.{◌≡◌, ◌≢◌, ◌≤◌, ◌<◌, ◌+◌, ◌↔◌, ◌∷◌, ℕ, length, get_or, IsTrue, OnOk, OnErr, IsErr, IsErrOf};
ghost use Rattle.disk_trait.specs.Disk.{AtMostCalls, IsSameDevice, IsSettled, Torn, overwritten, bytes_at};
ghost use Rattle.layout_2.specs.Layout.{device_len, most_nodes, edges_start, header, journal_start, slot_start};
ghost use Rattle.layout_reader.specs.Heads.{head_text};
ghost use Rattle.layout_reader.specs.Refusals.{header_len};
ghost use Rattle.layout_2.specs.State.{first_state};
ghost use Rattle.layout_2.specs.Standing.{StandsFor};
ghost use Rattle.checkpoint.specs.Formatting.{first_slot, with_front, with_gates, formatted};
ghost use Rattle.checkpoint.specs.Formatted.{IsFormatted};

use crate::refusals::FormatRefused;
use byteorder::{BigEndian, ByteOrder};
use disk_trait::{DeviceFault, Disk};
use layout_2::layout::{
    CHECKPOINT_ROOM, CLOSED_GATE, DEVICE_LEN, EDGES_START, FIRST_EPOCH, HEAD_LEN, HEADER_LEN,
    MAGIC, MOST_NODES, OPEN_GATE, SLOT_ROOM, SLOTS_START, VERSION,
};

// The front of a device.
pub(crate) fn header_of(nodes: u16) -> [u8; HEADER_LEN]
    ensures { result ≡ header nodes }
{
    let mut front = [0; HEADER_LEN];
    front[..6].copy_from_slice(&MAGIC);
    front[6..8].copy_from_slice(&VERSION);
    BigEndian::write_u16(&mut front[8..10], nodes);
    front
}

// An open gate and the head of a checkpoint of no changes and no edges.
fn first_head(nodes: u16) -> [u8; HEAD_LEN]
    ensures { result ≡ 1 ∷ head_text 1 0 nodes 0 }
{
    let mut head = [0; HEAD_LEN];
    head[0] = OPEN_GATE;
    BigEndian::write_u64(&mut head[1..9], FIRST_EPOCH);
    BigEndian::write_u16(&mut head[17..19], nodes);
    head
}

// They, and tickets 0 behind them.
fn first_checkpoint(nodes: u16) -> [u8; EDGES_START]
    ensures { result ≡ first_slot nodes }
{
    let mut text = [0; EDGES_START];
    text[..HEAD_LEN].copy_from_slice(&first_head(nodes));
    text
}

// Puts bytes from `at` on.
fn put<D: Disk>(disk: &mut D, at: usize, bytes: &[u8]) -> Result<(), DeviceFault>
    requires { at + length bytes.now ≤ length (D.view disk.old).content }
    ensures written { IsTrue (D.view disk.old).keeps_model
        → OnOk result ((D.view disk.new).content ≡ overwritten (D.view disk.old).content at bytes.now) }
    ensures there { IsTrue (D.view disk.old).keeps_model
        → OnOk result (bytes_at (D.view disk.new).content at (length bytes.now) ≡ bytes.now) }
    ensures elsewhere { IsTrue (D.view disk.old).keeps_model
        → OnOk result (Torn at (length bytes.now) (D.view disk.old).content (D.view disk.new).content) }

    ensures fault { OnErr result ((D.view disk.old).failures < (D.view disk.new).failures) }
    ensures no_failure { OnOk result ((D.view disk.new).failures ≡ (D.view disk.old).failures) }

    ensures ran { IsSameDevice (D.view disk.old) (D.view disk.new) }
    ensures calls { AtMostCalls 1 (D.view disk.old) (D.view disk.new) }
{
    disk.write_at(at, bytes)
}

// Puts the header, and an open slot.
fn put_front<D: Disk>(disk: &mut D, nodes: u16) -> Result<(), DeviceFault>
    requires { length (D.view disk.old).content ≡ device_len }
    ensures written { IsTrue (D.view disk.old).keeps_model
        → OnOk result ((D.view disk.new).content ≡ with_front nodes (D.view disk.old).content) }
    ensures header { IsTrue (D.view disk.old).keeps_model
        → OnOk result (bytes_at (D.view disk.new).content 0 header_len ≡ header nodes) }
    ensures slot { IsTrue (D.view disk.old).keeps_model
        → OnOk result (bytes_at (D.view disk.new).content (slot_start 0) edges_start ≡ first_slot nodes) }

    ensures fault { OnErr result ((D.view disk.old).failures < (D.view disk.new).failures) }
    ensures no_failure { OnOk result ((D.view disk.new).failures ≡ (D.view disk.old).failures) }

    ensures ran { IsSameDevice (D.view disk.old) (D.view disk.new) }
    ensures calls { AtMostCalls 2 (D.view disk.old) (D.view disk.new) }
{
    put(disk, 0, &header_of(nodes))?;
    put(disk, SLOTS_START, &first_checkpoint(nodes))?;
    Ok(())
}

// Closes the first gate of the open slot's journal, and the other slot.
fn put_gates<D: Disk>(disk: &mut D) -> Result<(), DeviceFault>
    requires { length (D.view disk.old).content ≡ device_len }
    ensures written { IsTrue (D.view disk.old).keeps_model
        → OnOk result ((D.view disk.new).content ≡ with_gates (D.view disk.old).content) }
    ensures journal { IsTrue (D.view disk.old).keeps_model
        → OnOk result (get_or (D.view disk.new).content (journal_start 0) 1 ≡ 0) }
    ensures other { IsTrue (D.view disk.old).keeps_model
        → OnOk result (get_or (D.view disk.new).content (slot_start 1) 0 ≡ 0) }
    ensures below { IsTrue (D.view disk.old).keeps_model
        → OnOk result ((from n : ℕ) → from + n ≤ journal_start 0
        → bytes_at (D.view disk.new).content from n ≡ bytes_at (D.view disk.old).content from n) }

    ensures fault { OnErr result ((D.view disk.old).failures < (D.view disk.new).failures) }
    ensures no_failure { OnOk result ((D.view disk.new).failures ≡ (D.view disk.old).failures) }

    ensures ran { IsSameDevice (D.view disk.old) (D.view disk.new) }
    ensures calls { AtMostCalls 2 (D.view disk.old) (D.view disk.new) }
{
    put(disk, SLOTS_START + CHECKPOINT_ROOM, &[CLOSED_GATE])?;
    put(disk, SLOTS_START + SLOT_ROOM, &[CLOSED_GATE])?;
    Ok(())
}

// Puts all that a fresh device has, and syncs.
fn put_all<D: Disk>(disk: &mut D, nodes: u16) -> Result<(), DeviceFault>
    requires long { length (D.view disk.old).content ≡ device_len }
    requires some { 1 ≤ nodes }
    requires few { nodes ≤ most_nodes }
    ensures written { IsTrue (D.view disk.old).keeps_model
        → OnOk result ((D.view disk.new).content ≡ formatted nodes (D.view disk.old).content) }
    ensures ok { IsTrue (D.view disk.old).keeps_model
        → OnOk result (StandsFor (first_state nodes) (D.view disk.new).content) }
    ensures settled { IsTrue (D.view disk.old).keeps_model → OnOk result (IsSettled (D.view disk.new)) }

    ensures fault { OnErr result ((D.view disk.old).failures < (D.view disk.new).failures) }
    ensures no_failure { OnOk result ((D.view disk.new).failures ≡ (D.view disk.old).failures) }

    ensures ran { IsSameDevice (D.view disk.old) (D.view disk.new) }
    ensures calls { AtMostCalls 5 (D.view disk.old) (D.view disk.new) }
{
    put_front(disk, nodes)?;
    put_gates(disk)?;
    disk.sync()?;
    Ok(())
}

/// Makes a device hold a network of so many nodes and no edges, and no session's ticket. It takes no
/// memory, and has at most five calls of the device. It writes the header, head and tickets of slot 0,
/// the gate of that slot's first record and the gate of slot 1; each other byte stays (`written`). After
/// a call of the device that failed some of these bytes may be there, even all: whether it holds a store isn't said.
pub fn format<D: Disk>(disk: &mut D, n: u16) -> Result<(), FormatRefused>
    ensures ok { OnOk result (IsFormatted n (D.view disk.old) (D.view disk.new)) }

    ensures bad_size { IsErrOf result FormatRefused.BadSize ↔ (¬ ((1 ≤ n) × (n ≤ most_nodes))) }
    ensures bad_length { IsErrOf result FormatRefused.BadLength
        ↔ ((1 ≤ n) × (n ≤ most_nodes) × (length (D.view disk.old).content ≢ device_len)) }
    ensures device { IsErrOf result FormatRefused.Device → (D.view disk.old).failures < (D.view disk.new).failures }
    ensures untouched { IsErr result → ¬ (IsErrOf result FormatRefused.Device) → disk.new ≡ disk.old }

    ensures ran { IsSameDevice (D.view disk.old) (D.view disk.new) }
    ensures calls { AtMostCalls 5 (D.view disk.old) (D.view disk.new) }
{
    if n < 1 || n > MOST_NODES {
        return Err(FormatRefused::BadSize);
    }
    if disk.len() != DEVICE_LEN {
        return Err(FormatRefused::BadLength);
    }
    match put_all(disk, n) {
        Ok(()) => Ok(()),
        Err(_) => Err(FormatRefused::Device),
    }
}
