//! Layout 1, as the reader of `layout_reader` takes it.
ghost use Rattle.std.specs.Prelude.{◌≡◌};
ghost use Rattle.journal.specs.ChangeForm.{change_form};
ghost use Rattle.layout_1.specs.Form.{layout_form};
ghost use Rattle.layout_1.specs.FormLaws.{layout_is_form};

use crate::layout::{MOST_EDGES, SIZES};
use disk_trait::Disk;
use graph_edits::{Change, EditRefused, Graph};
use layout_reader::{Layout, OpenRefused, Sizes};

/// The layout whose journal lists changes, and whose checkpoints hold no tickets.
pub struct Layout1;

impl Layout for Layout1 {
    type Entry = Change;

    type Tickets = ();

    ghost entries = { change_form };

    ghost form = { layout_form };

    fn sizes() -> Sizes {
        SIZES
    }

    fn read_tickets<D: Disk>(_disk: &mut D, _at: usize) -> Result<(), OpenRefused> {
        Ok(())
    }

    fn take_ticket(_tickets: &mut (), _change: &Change) -> bool {
        true
    }

    fn replay(graph: &mut Graph, change: &Change) -> Result<(), EditRefused> {
        graph.apply_within(change, MOST_EDGES)
    }

    ghost same_entries = { λ _ _ _. (λ spells. spells, λ spells. spells) };

    ghost is_form = { layout_is_form };
}
