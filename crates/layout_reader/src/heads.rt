//! The heads of the two slots, and which slot is in use.
ghost use Rattle.std.specs.Prelude.{◌≡◌, ◌≤◌, ◌<◌, ◌+◌, ◌*◌, ◌^◌, ◌↔◌, ℕ, List, length, IsTrue, IfOk, IfErr, IfSome, OnOk, OnErr, None};
ghost use Rattle.std.specs.Int.{w16, w32, w64, to_be_bytes};
ghost use Rattle.disk_trait.specs.Disk.{IsSameDevice, OnlyRead};
ghost use Rattle.layout_reader.specs.Refusals.{IsFormatFault, IsFrontFault};
ghost use Rattle.layout_reader.specs.Reading.{IsRead, IsNotRead};
ghost use Rattle.layout_reader.specs.Heads.{head_text, start_of, HasNoNewest};
ghost use Rattle.layout_reader.specs.Choosing.{HasHead, HaveHeads, IsChosen, IsChoice};

use crate::layout::{OPEN_GATE, SLOTS_START};
use crate::reading::read_array;
use crate::refusals::OpenRefused;
use disk_trait::{DeviceFault, Disk};

/// What stands before the edges of a slot's checkpoint.
#[derive(Clone, Copy, Drop)]
pub struct SlotHead {
    pub gate: u8,
    pub epoch: u64,
    pub count: u64,
    pub nodes: u16,
    pub edges: u32,
}

/// The slot in use, and the other slot's gate byte.
#[derive(Clone, Copy, Drop)]
pub struct Chosen {
    pub slot: usize,
    pub head: SlotHead,
    pub other_gate: u8,
}

/// The number that 8 bytes spell.
pub fn u64_of(bytes: &[u8]) -> u64
    requires { length bytes.now ≡ 8 }
    ensures { to_be_bytes w64 result ≡ bytes.now }
{
    u64::from_be_bytes([
        bytes[0], bytes[1], bytes[2], bytes[3], bytes[4], bytes[5], bytes[6], bytes[7],
    ])
}

fn u32_of(bytes: &[u8]) -> u32
    requires { length bytes.now ≡ 4 }
    ensures { to_be_bytes w32 result ≡ bytes.now }
{
    u32::from_be_bytes([bytes[0], bytes[1], bytes[2], bytes[3]])
}

fn u16_of(bytes: &[u8]) -> u16
    requires { length bytes.now ≡ 2 }
    ensures { to_be_bytes w16 result ≡ bytes.now }
{
    u16::from_be_bytes([bytes[0], bytes[1]])
}

// The head with this gate byte and these bytes behind it.
fn head_of(gate: u8, behind: &[u8]) -> SlotHead
    requires { length behind.now ≡ 22 }
    ensures gate { result.gate ≡ gate }
    ensures text { behind.now ≡ head_text result.epoch result.count result.nodes result.edges }
{
    let (epoch, rest) = behind.split_at(8);
    let (count, rest) = rest.split_at(8);
    let (nodes, edges) = rest.split_at(2);
    SlotHead {
        gate,
        epoch: u64_of(epoch),
        count: u64_of(count),
        nodes: u16_of(nodes),
        edges: u32_of(edges),
    }
}

fn read_head<D: Disk>(disk: &mut D, room: usize, slot: usize) -> Result<SlotHead, DeviceFault>
    requires slot { slot < 2 }
    requires room { room < 2 ^ 32 }
    requires within { start_of room slot + 23 ≤ length (D.view disk.old).content }
    ensures ran { IsSameDevice (D.view disk.old) (D.view disk.new) }
    ensures reads { IsTrue (D.view disk.old).keeps_model → OnlyRead (D.view disk.old) (D.view disk.new) }
    ensures no_failure { OnOk result ((D.view disk.new).failures ≡ (D.view disk.old).failures) }
    ensures fault { OnErr result ((D.view disk.old).failures < (D.view disk.new).failures) }
    ensures head { IsTrue (D.view disk.old).keeps_model
        → IfOk result (λ head. HasHead room slot head (D.view disk.old).content) }
{
    let bytes = read_array::<D, 23>(disk, SLOTS_START + room * slot)?;
    Ok(head_of(bytes[0], &bytes[1..]))
}

// Whether a slot is open and the other closed or older.
fn is_newest(head: &SlotHead, other: &SlotHead) -> bool
    ensures { IsTrue result ↔ ((head.now.gate ≡ 1) × (other.now.gate ≡ 1 → other.now.epoch < head.now.epoch)) }
{
    head.gate == OPEN_GATE && (other.gate != OPEN_GATE || other.epoch < head.epoch)
}

// The slot in use, by the heads of both.
fn choose(first: SlotHead, second: SlotHead) -> Option<Chosen>
    ensures slot { IfSome result (λ c. c.slot < 2) }
    ensures choice { (room : ℕ) (image : List ℕ) → HaveHeads room first second image → IsChoice room result image }
{
    if is_newest(&first, &second) {
        return Some(Chosen {
            slot: 0,
            head: first,
            other_gate: second.gate,
        });
    }
    if is_newest(&second, &first) {
        return Some(Chosen {
            slot: 1,
            head: second,
            other_gate: first.gate,
        });
    }
    None
}

/// The slot in use of two of so many bytes each: the open one of greater epoch. Damaged where there is none.
pub fn choose_slot<D: Disk>(disk: &mut D, room: usize) -> Result<Chosen, OpenRefused>
    requires room { room < 2 ^ 32 }
    requires within { start_of room 1 + 23 ≤ length (D.view disk.old).content }
    ensures read { OnOk result (IsRead (D.view disk.old) (D.view disk.new)) }
    ensures not_read { IfErr result (IsNotRead (D.view disk.old) (D.view disk.new)) }
    ensures slot { IfOk result (λ c. c.slot < 2) }
    ensures ok { IsTrue (D.view disk.old).keeps_model
        → IfOk result (λ c. IsChosen room c (D.view disk.old).content) }
    ensures later { IfErr result (λ e. ¬ (IsFrontFault e)) }
    ensures refused { IsTrue (D.view disk.old).keeps_model
        → IfErr result (λ e. IsFormatFault e → HasNoNewest room (D.view disk.old).content) }
{
    let first = read_head(disk, room, 0)?;
    let second = read_head(disk, room, 1)?;
    match choose(first, second) {
        Some(chosen) => Ok(chosen),
        None => Err(OpenRefused::Damaged),
    }
}
