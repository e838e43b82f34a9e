//! The last ticket of each session.
ghost use Rattle.std.specs.Prelude.{◌≡◌, ◌<◌, ◌*◌, ◌^◌, ◌↔◌, length, IsTrue};
ghost use Rattle.std.specs.List.{AllByRecursion};
ghost use Rattle.layout_2.specs.Layout.{sessions};
ghost use Rattle.layout_2.specs.Tickets.{tickets_text, IsNext, AreTickets};

use crate::layout::{TICKET_LEN, WORN_LIMIT};
use arrayvec::ArrayVec;
use layout_reader::u64_of;
use requests::{Request, SESSIONS};

/// The last tickets that the bytes list.
pub(crate) fn tickets_of(bytes: &[u8]) -> [u64; SESSIONS]
    requires { length bytes.now ≡ 8 * sessions }
    ensures text { tickets_text result ≡ bytes.now }
    ensures words { AllByRecursion (λ ticket. ticket < 2 ^ 64) result }
{
    let mut tickets = ArrayVec::<u64, SESSIONS>::new();
    let mut rest = bytes;
    for _ in 0..SESSIONS {
        let (front, behind) = rest.split_at(TICKET_LEN);
        tickets.push(u64_of(front));
        rest = behind;
    }
    match tickets.into_inner() {
        Ok(tickets) => tickets,
        Err(_) => unreachable!(),
    }
}

/// Whether each is within the limit.
pub(crate) fn are_sound(tickets: &[u64; SESSIONS]) -> bool
    ensures { IsTrue result ↔ AreTickets tickets.now }
{
    tickets.iter().all(|ticket| *ticket <= WORN_LIMIT)
}

/// Whether a request's session is there, and its ticket is above the session's last one and within the limit.
pub(crate) fn is_next(tickets: &[u64; SESSIONS], request: &Request) -> bool
    ensures { IsTrue result ↔ IsNext tickets.now request.now }
{
    let session = request.session as usize;
    session < SESSIONS && tickets[session] < request.ticket && request.ticket <= WORN_LIMIT
}
