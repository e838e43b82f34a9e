//! Opening: what stands on a device.
ghost use Rattle.std.specs.Prelude.{◌≡◌, ◌≤◌, ◌<◌, ◌+◌, length, IsTrue, IfOk, IfErr, OnOk, IsErrOf, Some, None};
ghost use Rattle.graph_edits.specs.Changes.{fold_within};
ghost use Rattle.requests.specs.Tickets.{worn_limit};
ghost use Rattle.journal.specs.Records.{Spells};
ghost use Rattle.layout_reader.specs.Sizes.{device_len, version};
ghost use Rattle.layout_reader.specs.State.{changes_of};
ghost use Rattle.layout_reader.specs.Refusals.{IsFormatFault, IsFrontFault, HasLayout};
ghost use Rattle.layout_reader.specs.Reading.{IsRead, IsNotRead};
ghost use Rattle.layout_reader.specs.Slots.{LeadsNowhere};
ghost use Rattle.layout_reader.specs.Loading.{held_by, HasAsBase, ComesFrom, FitTogether, IsLoaded, IsNotLoaded};

use crate::base::read_base;
use crate::checkpoint::Checkpoint;
use crate::form::Layout;
use crate::header::read_header;
use crate::heads::choose_slot;
use crate::loaded::Loaded;
use crate::refusals::OpenRefused;
use disk_trait::Disk;
use graph_edits::{EditRefused, Graph};
use journal::{Journal, ScanRefused};
use requests::WORN_LIMIT;
use std::alloc::Global;
use std::snapshot::Snapshot;

// Takes the entries in order, each once.
fn apply_all<L: Layout>(
    graph: &mut Graph,
    tickets: &mut L::Tickets,
    entries: &[L::Entry],
) -> Result<(), OpenRefused>
    ensures graph { OnOk result
        (fold_within L.form.sizes.most_edges graph.old (changes_of L.form entries.now) ≡ Some graph.new) }
    ensures tickets { OnOk result (tickets.new ≡ L.form.tickets_after tickets.old entries.now) }
    ensures in_turn { OnOk result (L.form.AreInTurn tickets.old entries.now) }
    ensures damaged { IsErrOf result OpenRefused.Damaged → L.form.AreInTurn tickets.old entries.now
        → fold_within L.form.sizes.most_edges graph.old (changes_of L.form entries.now) ≡ None }
    ensures others { ¬ (IsErrOf result OpenRefused.NotFormatted)
        × ¬ (IsErrOf result OpenRefused.BadVersion) × ¬ (IsErrOf result OpenRefused.Device) }
    ensures later { IfErr result (λ e. ¬ (IsFrontFault e)) }
{
    for entry in entries {
        if !L::take_ticket(tickets, entry) {
            return Err(OpenRefused::Damaged);
        }
        match L::replay(graph, entry) {
            Ok(()) => {}
            Err(EditRefused::Op { .. }) => return Err(OpenRefused::Damaged),
            Err(EditRefused::Memory) => return Err(OpenRefused::Memory),
        }
    }
    Ok(())
}

// What stands there, once the slot in use and its checkpoint are read.
fn load_records<L: Layout, D: Disk>(
    alloc: Global,
    disk: &mut D,
    checkpoint: Checkpoint<L::Tickets>,
) -> Result<Loaded<L::Entry, L::Tickets>, OpenRefused>
    requires long { length (D.view disk.old).content ≡ device_len L.form.sizes }
    requires slot { checkpoint.chosen.slot < 2 }
    requires count { checkpoint.chosen.head.count ≤ worn_limit }
    ensures read { OnOk result (IsRead (D.view disk.old) (D.view disk.new)) }
    ensures not_read { IfErr result (IsNotRead (D.view disk.old) (D.view disk.new)) }
    ensures later { IfErr result (λ e. ¬ (IsFrontFault e)) }
    ensures comes { IfOk result (ComesFrom checkpoint) }
    ensures parts { IfOk result (FitTogether L.form) }
    ensures spells { IsTrue (D.view disk.old).keeps_model
        → IfOk result (λ l. Spells L.entries l.journal.area l.journal.groups (D.view disk.old).content) }
    ensures refused { IsTrue (D.view disk.old).keeps_model
        → IfErr result (λ e. IsFormatFault e
        → LeadsNowhere L.form checkpoint.chosen.slot (held_by checkpoint) (D.view disk.old).content) }
{
    let Checkpoint {
        chosen,
        graph: base,
        tickets: base_tickets,
    } = checkpoint;
    let area = L::sizes().journal_area(chosen.slot);
    let (journal, entries) = match Journal::<L::Entry>::scan(alloc, disk, area) {
        Ok(scanned) => scanned,
        Err(ScanRefused::Damaged) => return Err(OpenRefused::Damaged),
        Err(ScanRefused::Device) => return Err(OpenRefused::Device),
        Err(ScanRefused::Memory) => return Err(OpenRefused::Memory),
    };
    let base_count = chosen.head.count;
    if WORN_LIMIT - base_count < entries.len() as u64 {
        return Err(OpenRefused::Damaged);
    }
    let snapshot = Snapshot::of(&base);
    let snapshot_tickets = Snapshot::of(&base_tickets);
    let mut graph = base;
    let mut tickets = base_tickets;
    apply_all::<L>(&mut graph, &mut tickets, &entries)?;
    Ok(Loaded {
        journal,
        slot: chosen.slot,
        epoch: chosen.head.epoch,
        other_gate: chosen.other_gate,
        base_count,
        base: snapshot,
        base_tickets: snapshot_tickets,
        count: base_count + entries.len() as u64,
        graph,
        tickets,
    })
}

// The slot in use, and the network and tickets of its checkpoint.
fn read_checkpoint<L: Layout, D: Disk>(
    alloc: Global,
    disk: &mut D,
) -> Result<Checkpoint<L::Tickets>, OpenRefused>
    ensures read { OnOk result (IsRead (D.view disk.old) (D.view disk.new)) }
    ensures long { OnOk result (length (D.view disk.old).content ≡ device_len L.form.sizes) }
    ensures slot { IfOk result (λ c. c.chosen.slot < 2) }
    ensures count { IfOk result (λ c. c.chosen.head.count ≤ worn_limit) }
    ensures has_base { IsTrue (D.view disk.old).keeps_model
        → IfOk result (λ c. HasAsBase L.form c (D.view disk.old).content) }
    ensures this_version { IsTrue (D.view disk.old).keeps_model
        → OnOk result (HasLayout (version L.form.sizes) (D.view disk.old).content) }
    ensures refused { IfErr result (IsNotLoaded L.form (D.view disk.old) (D.view disk.new)) }
{
    let nodes = read_header::<L, D>(disk)?;
    let sizes = L::sizes();
    let chosen = choose_slot(disk, sizes.slot_room())?;
    let (graph, tickets) = read_base::<L, D>(alloc, disk, nodes, chosen)?;
    Ok(Checkpoint {
        chosen,
        graph,
        tickets,
    })
}

/// What stands on a device of this layout. It syncs, and writes nothing.
pub fn load<L: Layout, D: Disk>(
    alloc: Global,
    disk: &mut D,
) -> Result<Loaded<L::Entry, L::Tickets>, OpenRefused>
    ensures ok { IfOk result (IsLoaded L.form (D.view disk.old) (D.view disk.new)) }
    ensures refused { IfErr result (IsNotLoaded L.form (D.view disk.old) (D.view disk.new)) }
{
    disk.sync()?;
    let checkpoint = read_checkpoint::<L, D>(alloc, disk)?;
    load_records::<L, D>(alloc, disk, checkpoint)
}
