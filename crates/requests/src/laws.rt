// The laws of tickets.
ghost use Rattle.std.specs.Prelude.{◌≡◌};
ghost use Rattle.requests.specs.Tickets.{sessions, worn_limit};
ghost use Rattle.requests.specs.Laws.{StaysWide, TicketsInParts, RisesInParts, BeginningRises, NextRises, EachOnce, LastIsGreatest, NoneLater};

use crate::limits::{SESSIONS, WORN_LIMIT};

/// The limits are the numbers of the definitions; pairs rise part by part; a beginning of rising pairs rises;
/// one more with a later ticket rises; a session's ticket stands among rising pairs at most once; a session's
/// last ticket is its greatest; and a session whose last ticket is still the one that it began with has none.
pub fn ticket_laws()
    ensures sessions { SESSIONS ≡ sessions }
    ensures worn_limit { WORN_LIMIT ≡ worn_limit }
    ensures stays_wide { StaysWide }
    ensures tickets_in_parts { TicketsInParts }
    ensures rises_in_parts { RisesInParts }
    ensures beginning_rises { BeginningRises }
    ensures next_rises { NextRises }
    ensures each_once { EachOnce }
    ensures last_is_greatest { LastIsGreatest }
    ensures none_later { NoneLater }
{}
