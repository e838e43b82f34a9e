//! Looking at what an opening passes over.
ghost use Rattle.std.specs.Prelude.{◌≡◌, ◌≢◌, ◌≤◌, ◌<◌, ◌+◌, ◌^◌, ◌↔◌, IfErr, IfOk, IsTrue, OnOk, get_or, length};
ghost use Rattle.layout_2.specs.Layout.{device_len, journal_of};
ghost use Rattle.layout_2.specs.Loading.{IsNotRead, IsRead};
ghost use Rattle.device_suspects.specs.Looking.{GoesOnFrom, LeadsElsewhere, StandsThere};
ghost use Rattle.device_suspects.specs.Suspects.{AreListed, AreSuspects, GoOn, HidesRecords, IsNewer, IsTold, gate_behind, number_in};

use crate::suspect::Suspects;
use disk_trait::{Disk, MemDisk};
use journal::{Area, Journal, ScanRefused};
use layout_2::layout::{OPEN_GATE, SIZES};
use layout_2::{OpenRefused, journal_area, load};
use layout_reader::{read_array, read_bytes, u64_of};
use requests::{Request, SESSIONS};
use std::alloc::Global;

// Where the epoch and the count stand behind a slot's gate.
const EPOCH_AT: usize = 1;

const COUNT_AT: usize = 9;

// Whether the first of requests has a ticket above the last one of its session.
fn is_newer(tickets: &[u64; SESSIONS], requests: &[Request]) -> bool
    ensures { IsTrue result ↔ IsNewer tickets.now requests.now }
{
    match requests.first() {
        Some(request) => {
            let session = request.session as usize;
            session < SESSIONS && tickets[session] < request.ticket
        }
        None => false,
    }
}

// The requests that the journal of a slot lists, or nothing where it is none.
fn listed_in<D: Disk>(
    alloc: Global,
    disk: &mut D,
    slot: usize,
) -> Result<Option<Vec<Request>>, OpenRefused>
    requires slot { slot < 2 }
    requires long { length (D.view disk.old).content ≡ device_len }
    ensures read { OnOk result (IsRead (D.view disk.old) (D.view disk.new)) }
    ensures not_read { IfErr result (IsNotRead (D.view disk.old) (D.view disk.new)) }
    ensures listed { IsTrue (D.view disk.old).keeps_model
        → IfOk result (λ found. AreListed (journal_of slot) (D.view disk.old).content found) }
{
    match Journal::<Request>::scan(alloc, disk, journal_area(slot)) {
        Ok((_, requests)) => Ok(Some(requests)),
        Err(ScanRefused::Damaged) => Ok(None),
        Err(ScanRefused::Device) => Err(OpenRefused::Device),
        Err(ScanRefused::Memory) => Err(OpenRefused::Memory),
    }
}

// The byte at a place.
fn byte_at<D: Disk>(disk: &mut D, at: usize) -> Result<u8, OpenRefused>
    requires { at + 1 ≤ length (D.view disk.old).content }
    ensures read { OnOk result (IsRead (D.view disk.old) (D.view disk.new)) }
    ensures not_read { IfErr result (IsNotRead (D.view disk.old) (D.view disk.new)) }
    ensures byte { IsTrue (D.view disk.old).keeps_model
        → IfOk result (λ byte. byte ≡ get_or (D.view disk.old).content at 0) }
{
    let bytes = read_array::<D, 1>(disk, at)?;
    Ok(bytes[0])
}

// The number of 8 bytes from a place on.
fn number_at<D: Disk>(disk: &mut D, at: usize) -> Result<u64, OpenRefused>
    requires { at + 8 ≤ length (D.view disk.old).content }
    ensures read { OnOk result (IsRead (D.view disk.old) (D.view disk.new)) }
    ensures not_read { IfErr result (IsNotRead (D.view disk.old) (D.view disk.new)) }
    ensures number { IsTrue (D.view disk.old).keeps_model
        → IfOk result (λ number. number ≡ number_in at (D.view disk.old).content) }
{
    let bytes = read_array::<D, 8>(disk, at)?;
    Ok(u64_of(&bytes))
}

// The requests of bytes that begin with the gate of a record, or nothing where they are no records.
fn listed_of(alloc: Global, bytes: &[u8]) -> Result<Option<Vec<Request>>, OpenRefused>
    requires some { 1 ≤ length bytes.now }
    requires small { length bytes.now < 2 ^ 32 }
    ensures listed { IfOk result (λ found. AreListed (record { start = 0; room = length bytes.now }) bytes.now found) }
    ensures memory { IfErr result (λ why. why ≡ OpenRefused.Memory) }
{
    let Ok(mut disk) = MemDisk::new(alloc, bytes.len()) else {
        return Err(OpenRefused::Memory);
    };
    if disk.write_at(0, bytes).is_err() {
        return Err(OpenRefused::Memory);
    }
    let area = Area {
        start: 0,
        room: bytes.len(),
    };
    match Journal::<Request>::scan(alloc, &mut disk, area) {
        Ok((_, requests)) => Ok(Some(requests)),
        Err(ScanRefused::Damaged) => Ok(None),
        Err(ScanRefused::Device | ScanRefused::Memory) => Err(OpenRefused::Memory),
    }
}

// Whether the gate behind the first record of these bytes is open.
fn goes_on(bytes: &[u8]) -> bool
    ensures { IsTrue result ↔ (gate_behind bytes.now ≡ 1) }
{
    if bytes.len() < 5 {
        return false;
    }
    let len = u32::from_be_bytes([bytes[1], bytes[2], bytes[3], bytes[4]]) as usize;
    match bytes.get(5 + len) {
        Some(gate) => *gate == OPEN_GATE,
        None => false,
    }
}

// What stands in the slot that isn't in use.
#[derive(Drop)]
struct OtherSlot {
    gate: u8,
    epoch: u64,
    count: u64,
    // What its journal lists, or nothing where it is none.
    requests: Option<Vec<Request>>,
}

// What stands in a slot.
fn read_slot<D: Disk>(alloc: Global, disk: &mut D, slot: usize) -> Result<OtherSlot, OpenRefused>
    requires slot { slot < 2 }
    requires long { length (D.view disk.old).content ≡ device_len }
    ensures read { OnOk result (IsRead (D.view disk.old) (D.view disk.new)) }
    ensures not_read { IfErr result (IsNotRead (D.view disk.old) (D.view disk.new)) }
    ensures stands { IsTrue (D.view disk.old).keeps_model
        → IfOk result (λ other. StandsThere other slot (D.view disk.old).content) }
{
    let at = SIZES.slot_start(slot);
    let gate = byte_at(disk, at)?;
    let epoch = number_at(disk, at + EPOCH_AT)?;
    let count = number_at(disk, at + COUNT_AT)?;
    let requests = listed_in(alloc, disk, slot)?;
    Ok(OtherSlot {
        gate,
        epoch,
        count,
        requests,
    })
}

impl OtherSlot {
    // Whether its epoch isn't one less than this one, where it is open.
    fn is_epoch_apart(&self, epoch: u64) -> bool
        ensures { IsTrue result ↔ ((self.now.gate ≡ 1) × (self.now.epoch + 1 ≢ epoch)) }
    {
        self.gate == OPEN_GATE && (epoch == 0 || self.epoch != epoch - 1)
    }

    // Whether its count and its requests don't lead to this count, where it is open.
    fn is_count_apart(&self, count: u64) -> bool
        ensures { IsTrue result ↔ ((self.now.gate ≡ 1) × LeadsElsewhere self.now.count self.now.requests count) }
    {
        if self.gate != OPEN_GATE {
            return false;
        }
        match &self.requests {
            Some(requests) => { count < self.count || count - self.count != requests.len() as u64 }
            None => true,
        }
    }

    // Whether its gate is closed, and its requests go on from these tickets.
    fn hides(&self, tickets: &[u64; SESSIONS]) -> bool
        ensures { IsTrue result ↔ ((self.now.gate ≢ 1) × GoesOnFrom tickets.now self.now.requests) }
    {
        if self.gate == OPEN_GATE {
            return false;
        }
        match &self.requests {
            Some(requests) => is_newer(tickets, requests),
            None => false,
        }
    }
}

// A place, where something is so.
fn told(at: usize, is_so: bool) -> Option<usize>
    ensures { IsTold result at (IsTrue is_so) }
{
    if is_so { Some(at) } else { None }
}

// Whether there are requests that go on from these tickets, and bytes with another record behind their first.
fn are_behind(tickets: &[u64; SESSIONS], requests: &Option<Vec<Request>>, bytes: &[u8]) -> bool
    ensures { IsTrue result ↔ (GoesOnFrom tickets.now requests.now × (gate_behind bytes.now ≡ 1)) }
{
    match requests {
        Some(requests) => is_newer(tickets, requests) && goes_on(bytes),
        None => false,
    }
}

// Whether bytes are records, more than one, that go on from these tickets.
#[tactic(auto, using(crate::proofs::Listed::goes_on))]
fn go_on(alloc: Global, tickets: &[u64; SESSIONS], bytes: &[u8]) -> Result<bool, OpenRefused>
    requires some { 1 ≤ length bytes.now }
    requires small { length bytes.now < 2 ^ 32 }
    ensures on { IfOk result (λ is_so. IsTrue is_so ↔ GoOn tickets.now bytes.now) }
    ensures memory { IfErr result (λ why. why ≡ OpenRefused.Memory) }
{
    let requests = listed_of(alloc, bytes)?;
    Ok(are_behind(tickets, &requests, bytes))
}

// The place of the gate that stands so far from an area's front, where it hides records that go on from these tickets.
fn hidden_records<D: Disk>(
    alloc: Global,
    disk: &mut D,
    area: Area,
    end: usize,
    tickets: &[u64; SESSIONS],
) -> Result<Option<usize>, OpenRefused>
    requires end { end < area.room }
    requires small { area.room < 2 ^ 32 }
    requires low { area.start + area.room < 2 ^ 64 }
    requires within { area.start + area.room ≤ length (D.view disk.old).content }
    ensures read { OnOk result (IsRead (D.view disk.old) (D.view disk.new)) }
    ensures not_read { IfErr result (IsNotRead (D.view disk.old) (D.view disk.new)) }
    ensures told { IsTrue (D.view disk.old).keeps_model
        → IfOk result (λ found. IsTold found (area.start + end) (HidesRecords area end tickets.now (D.view disk.old).content)) }
{
    let at = area.start + end;
    let mut bytes = read_bytes(alloc, disk, at, area.room - end)?;
    bytes[0] = OPEN_GATE;
    let is_so = go_on(alloc, tickets, &bytes)?;
    Ok(told(at, is_so))
}

/// What is on a device that no crash leaves. It syncs, reads, and writes nothing.
pub fn suspects_of<D: Disk>(alloc: Global, disk: &mut D) -> Result<Suspects, OpenRefused>
    ensures read { OnOk result (IsRead (D.view disk.old) (D.view disk.new)) }
    ensures not_read { IfErr result (IsNotRead (D.view disk.old) (D.view disk.new)) }
    ensures suspects { IsTrue (D.view disk.old).keeps_model
        → IfOk result (λ suspects. AreSuspects suspects (D.view disk.old).content) }
{
    let loaded = load(alloc, disk)?;
    let other = read_slot(alloc, disk, 1 - loaded.slot)?;
    let area = loaded.journal.area();
    let end = area.room - loaded.journal.room_left() - 1;
    let record = hidden_records(alloc, disk, area, end, &loaded.tickets)?;
    let other_at = SIZES.slot_start(1 - loaded.slot);
    let count_at = SIZES.slot_start(loaded.slot) + COUNT_AT;
    Ok(Suspects {
        epoch: told(other_at + EPOCH_AT, other.is_epoch_apart(loaded.epoch)),
        count: told(count_at, other.is_count_apart(loaded.base_count)),
        slot: told(other_at, other.hides(&loaded.tickets)),
        record,
    })
}
