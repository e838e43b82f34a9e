//! Layout 2, as the reader of `layout_reader` takes it.
ghost use Rattle.std.specs.Prelude.{◌≡◌};
ghost use Rattle.journal.specs.RequestForm.{request_form};
ghost use Rattle.layout_2.specs.Form.{layout_form};
ghost use Rattle.layout_2.specs.FormLaws.{layout_is_form};

use crate::layout::{SIZES, TICKETS_LEN};
use crate::tickets::{are_sound, is_next, tickets_of};
use disk_trait::Disk;
use graph_edits::{EditRefused, Graph};
use layout_reader::{Layout, OpenRefused, Sizes, read_array};
use requests::{Request, SESSIONS};

/// The layout whose journal lists requests, and whose checkpoints hold the last ticket of each session.
pub struct Layout2;

impl Layout for Layout2 {
    type Entry = Request;

    type Tickets = [u64; SESSIONS];

    ghost entries = { request_form };

    ghost form = { layout_form };

    fn sizes() -> Sizes {
        SIZES
    }

    fn read_tickets<D: Disk>(disk: &mut D, at: usize) -> Result<[u64; SESSIONS], OpenRefused> {
        let text = read_array::<D, TICKETS_LEN>(disk, at)?;
        let tickets = tickets_of(&text);
        if !are_sound(&tickets) {
            return Err(OpenRefused::Damaged);
        }
        Ok(tickets)
    }

    fn take_ticket(tickets: &mut [u64; SESSIONS], request: &Request) -> bool {
        if !is_next(tickets, request) {
            return false;
        }
        tickets[request.session as usize] = request.ticket;
        true
    }

    fn replay(graph: &mut Graph, request: &Request) -> Result<(), EditRefused> {
        graph.replay(&request.change)
    }

    ghost same_entries = { λ _ _ _. (λ spells. spells, λ spells. spells) };

    ghost is_form = { layout_is_form };
}
