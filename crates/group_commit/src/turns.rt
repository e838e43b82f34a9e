//! The tickets of held requests.
ghost use Rattle.std.specs.Prelude.{◌≡◌, ◌<◌};
ghost use Rattle.requests.specs.Tickets.{sessions, last_of, tickets_after};
ghost use Rattle.layout_2.specs.State.{asked, AreInTurn};

use requests::{Request, SESSIONS};

/// A session's last ticket after these requests, where the sessions began with these.
pub(crate) fn last_ticket(starts: &[u64; SESSIONS], requests: &[Request], session: u8) -> u64
    requires there { session < sessions }
    requires in_turn { AreInTurn starts.now requests.now }
    ensures { result ≡ last_of (tickets_after starts.now (asked requests.now)) session }
{
    let mut last = starts[session as usize];
    for request in requests {
        if request.session == session {
            last = request.ticket;
        }
    }
    last
}
