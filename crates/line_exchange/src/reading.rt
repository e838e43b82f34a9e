// The reader's thread.
ghost use Rattle.std.specs.Prelude.{◌≡◌, ◌≢◌, IfErr, IfSome};
ghost use Rattle.generations.specs.Beginnings.{Beginning};
ghost use Rattle.line_exchange.specs.OneList.{AnswersBy};
ghost use Rattle.line_exchange.specs.Reads.{IsReadEnd};

use crate::exchange::LineQueues;
use crate::line_fault::LineFault;
use crate::line_source::LineSource;
use crate::messages::{Answered, Ask, Stream};
use generations::History;
use live_lines::{Answer, Asked};
use packet_ways::BoardName;
use std::marker::PhantomData;
use std::sync::Wait;

// Who answers a line.
#[derive(Clone, Copy, Drop)]
enum Owner {
    Session(u8),
    Forwarder,
    Waiter,
    Tables,
    // The reader's own.
    Reader,
}

fn owned_by(asked: &Asked) -> Owner {
    match asked {
        Asked::Edit { session, .. } | Asked::Resume { session } => Owner::Session(*session),
        Asked::Route { .. } | Asked::Address { .. } => Owner::Forwarder,
        Asked::Launch { .. } | Asked::Hop { .. } => Owner::Forwarder,
        Asked::State | Asked::Wait | Asked::Backup { .. } | Asked::Metrics => Owner::Waiter,
        Asked::Tables { .. } => Owner::Tables,
        Asked::Unread(_) | Asked::NoSession => Owner::Reader,
        Asked::NotOps | Asked::NotUnderstood => Owner::Reader,
    }
}

// The answer to a line that is the reader's own.
fn answer_of(asked: Asked) -> Option<Answer>
    ensures { IfSome result (λ answer. (known : Beginning) → AnswersBy known asked answer) }
{
    match asked {
        Asked::Unread(refused) => Some(Answer::Unread(refused)),
        Asked::NoSession => Some(Answer::NoSession),
        Asked::NotOps => Some(Answer::NotOps),
        Asked::NotUnderstood => Some(Answer::NotUnderstood),
        _ => None,
    }
}

// A line that is the reader's own, answered.
fn answered<J: Stream, B: BoardName>(ask: Ask<J>, known: History) -> Option<Answered<J, B>>
    requires { known.opening ≡ B.opening }
{
    let Ask {
        place,
        asked,
        behind: _,
        of,
    } = ask;
    let answer = answer_of(asked)?;
    Some(Answered {
        place,
        answer,
        known,
        noted: None,
        of,
        at: PhantomData,
    })
}

// Hands a line to whoever answers it: those that are forwarders' in turn. What goes by tables is behind the last line that waits for them.
fn deal<J: Stream, B: BoardName, R: Wait>(
    rt: &R,
    exchange: &LineQueues<J, B>,
    ask: Ask<J>,
    turn: &mut usize,
    behind: &mut u64,
) -> Result<(), LineFault>
    ensures { IfErr result (λ why. why ≢ LineFault.Failed) }
{
    let mut ask = ask;
    ask.behind = *behind;
    if let Asked::Wait = ask.asked {
        *behind = ask.place.saturating_add(1);
    }
    let put = match owned_by(&ask.asked) {
        Owner::Session(session) => match exchange.sessions.get(session as usize) {
            Some(mailbox) => mailbox.put(rt, ask),
            None => return Err(LineFault::Internal),
        },
        Owner::Forwarder => match exchange.forwarders.get(*turn) {
            Some(mailbox) => {
                *turn = next_turn(*turn, exchange.forwarders.len());
                mailbox.put(rt, ask)
            }
            None => return Err(LineFault::Internal),
        },
        Owner::Waiter => exchange.waiter.put(rt, ask),
        Owner::Tables => exchange.tables.put(rt, ask),
        Owner::Reader => match answered(ask, exchange.known.again()) {
            Some(answered) => {
                let _put = exchange.answers.put(rt, answered);
                return Ok(());
            }
            None => return Err(LineFault::Internal),
        },
    };
    match put {
        Ok(()) => Ok(()),
        Err(_) => Err(LineFault::Memory),
    }
}

// The forwarder whose turn is next, of so many.
fn next_turn(turn: usize, count: usize) -> usize {
    match turn.checked_add(1) {
        Some(next) if next < count => next,
        _ => 0,
    }
}

// Reads one line after the other, and hands each to whoever answers it. How many lines there were, or none where no answers are
// taken any more.
fn read_each<J: Stream, B: BoardName, L: LineSource<J> + Drop, R: Wait>(
    rt: &R,
    exchange: &LineQueues<J, B>,
    source: L,
) -> Result<Option<u64>, LineFault>
    requires { L.has_given source 0 }
    ensures { IsReadEnd J.input result }
{
    let mut source = source;
    let mut place: u64 = 0;
    let mut turn: usize = 0;
    let mut behind: u64 = 0;
    for _ in rt.forever() {
        if !exchange.answers.await_room(rt, place) {
            return Ok(None);
        }
        let Some(ask) = source.next_ask(place)? else {
            return Ok(Some(place));
        };
        deal(rt, exchange, ask, &mut turn, &mut behind)?;
        let Some(next) = place.checked_add(1) else {
            return Ok(None);
        };
        place = next;
        exchange.read_to(place);
    }
    Ok(None)
}

/// Reads one line after the other, and hands each to whoever answers it, until no line is left or no answers are taken any more.
/// Then no more lines come. How many there were, or none where no answers were taken any more.
pub fn read_lines<J: Stream, B: BoardName, L: LineSource<J> + Drop, R: Wait>(
    rt: &R,
    exchange: &LineQueues<J, B>,
    source: L,
) -> Result<Option<u64>, LineFault>
    requires { L.has_given source 0 }
    ensures { IsReadEnd J.input result }
{
    let end = read_each(rt, exchange, source);
    exchange.close(rt);
    end
}
