//! What makes a layout.
ghost use Rattle.std.specs.Prelude.{◌≡◌, ◌≤◌, ◌<◌, ◌+◌, ◌↔◌, [], ◌∷◌, ℕ, List, length, IsTrue, Ok, IfOk, IfErr, OnOk};
ghost use Rattle.disk_trait.specs.Disk.{bytes_at};
ghost use Rattle.graph_edits.specs.Changes.{after_within, IsRefusedAs};
ghost use Rattle.journal.specs.Forms.{EntryForm};
ghost use Rattle.journal.specs.Records.{Spells};
ghost use Rattle.journal.specs.declared.area.Area.{Area};
ghost use Rattle.layout_reader.specs.Forms.{LayoutForm, IsLayoutForm, SpellsNoTickets};
ghost use Rattle.layout_reader.specs.Sizes.{AreSizes};
ghost use Rattle.layout_reader.specs.Refusals.{IsFormatFault, IsFrontFault};
ghost use Rattle.layout_reader.specs.Reading.{IsRead, IsNotRead};

use crate::refusals::OpenRefused;
use crate::sizes::Sizes;
use disk_trait::Disk;
use graph_edits::{EditRefused, Graph};
use journal::Entry;

/// A layout: its sizes, the entries of its journal, and the tickets that its checkpoints hold, `()` where there are none.
///
/// Whoever writes an impl gives the form of it and proves what a form keeps. Reading, standing and its laws then follow.
pub trait Layout {
    /// What the records of a journal list.
    type Entry: Entry;
    /// What stands between a checkpoint's head and its edges.
    type Tickets: Copy + Drop;

    /// The form of the entries' texts.
    ghost entries: { EntryForm Self.Entry };

    /// The form of the layout.
    ghost form: { LayoutForm entries Self.Tickets };

    /// The sizes.
    fn sizes() -> Sizes
        ensures are { result ≡ form.sizes }
        ensures fit { AreSizes form.sizes };

    /// The tickets whose text begins at `at`. Damaged where none have this text.
    fn read_tickets<D: Disk>(disk: &mut D, at: usize) -> Result<Self::Tickets, OpenRefused>
        requires { at + form.sizes.tickets_len ≤ length (D.view disk.old).content }
        ensures read { OnOk result (IsRead (D.view disk.old) (D.view disk.new)) }
        ensures not_read { IfErr result (IsNotRead (D.view disk.old) (D.view disk.new)) }
        ensures later { IfErr result (λ e. ¬ (IsFrontFault e)) }
        ensures are { IfOk result (λ tickets. form.AreTickets tickets) }
        ensures text { IsTrue (D.view disk.old).keeps_model
            → IfOk result (λ tickets. form.tickets_text tickets
            ≡ bytes_at (D.view disk.old).content at form.sizes.tickets_len) }
        ensures refused { IsTrue (D.view disk.old).keeps_model
            → IfErr result (λ e. IsFormatFault e
            → SpellsNoTickets form (bytes_at (D.view disk.old).content at form.sizes.tickets_len)) };

    /// Takes the ticket of an entry, where the entry may come next. Else it answers false.
    fn take_ticket(tickets: &mut Self::Tickets, entry: &Self::Entry) -> bool
        ensures in_turn { IsTrue result ↔ form.AreInTurn tickets.old (entry.now ∷ []) }
        ensures taken { IsTrue result → tickets.new ≡ form.tickets_after tickets.old (entry.now ∷ []) };

    /// Makes the change of an entry in the graph itself. Where an op is refused, or memory is, the graph isn't used any more.
    fn replay(graph: &mut Graph, entry: &Self::Entry) -> Result<(), EditRefused>
        ensures ok { OnOk result (after_within form.sizes.most_edges graph.old (form.change_of entry.now)
            ≡ Ok graph.new) }
        ensures refused { IfErr result
            (IsRefusedAs (after_within form.sizes.most_edges graph.old (form.change_of entry.now))) };

    /// The form of the entries' texts is theirs.
    ghost same_entries: { (area : Area) (groups : List (List Self.Entry)) (image : List ℕ)
        → Spells Self.Entry.form area groups image ↔ Spells entries area groups image };

    /// What a form keeps holds of this one.
    ghost is_form: { IsLayoutForm form };
}
