//! The lives that a rehearsal asks for.
ghost use Rattle.std.specs.Prelude.{◌≡◌, [], IfOk, IfSome, None};
ghost use Rattle.rehearsal_syntax.specs.Grammar.{IsEvent, IsLife, IsRehearsal, StandFrom};
ghost use Rattle.rehearsal_syntax.specs.declared.stage.Stage.{Stage};
ghost use Rattle.rehearsals.specs.Asked.{AreAsked, AskFor, IsEventOf, IsOpening, IsSetAs};

use disk_trait::Plan;
use event_model::Event;
use life_chain::Life;
use rehearsal_syntax::{LifeLine, RehearsalLine};
use std::alloc::{AllocError, Global};

/// A device and its lives. The last of them only opens.
#[derive(Drop)]
pub struct Rehearsal {
    pub nodes: u16,
    pub lives: Vec<Life>,
}

/// What these lines ask for, and behind it a life that only opens. `None` where there is no line.
pub fn lives_of(
    alloc: Global,
    mut lines: Vec<RehearsalLine>,
) -> Result<Option<Rehearsal>, AllocError>
    requires { IsRehearsal lines.items }
    ensures asked { IfOk result (λ o. IfSome o (λ asked. AreAsked asked.nodes lines.items asked.lives.items)) }
    ensures none { IfOk result (λ o. o ≡ None → lines.items ≡ []) }
{
    if lines.is_empty() {
        return Ok(None);
    }
    let RehearsalLine::Device(nodes) = lines.remove(0) else {
        return Ok(None);
    };
    let lives = lives_behind(alloc, nodes, lines)?;
    Ok(Some(Rehearsal { nodes, lives }))
}

// The lives that the lines behind `device` ask for. They are gone through from the back, so that a life's events are all there when it
// is made.
fn lives_behind(
    alloc: Global,
    nodes: u16,
    mut lines: Vec<RehearsalLine>,
) -> Result<Vec<Life>, AllocError>
    requires { StandFrom (Stage.Made nodes) lines.items }
    ensures { IfOk result (λ lives. AskFor nodes lines.items [] lives.items) }
{
    let mut lives = Vec::new(alloc);
    lives.push(opening(alloc))?;
    let mut events = Vec::new(alloc);
    while let Some(line) = lines.pop() {
        match line {
            RehearsalLine::Life(life) => {
                events.reverse();
                lives.push(life_of(alloc, nodes, life, events)?)?;
                events = Vec::new(alloc);
            }
            line => events.push(event_of(alloc, nodes, line)?)?,
        }
    }
    lives.reverse();
    Ok(lives)
}

// A life that only opens.
fn opening(alloc: Global) -> Life
    ensures { IsOpening result }
{
    Life {
        sessions: 1,
        capacity: 1,
        words: Vec::new(alloc),
        events: Vec::new(alloc),
        plan: Plan::None,
        word: 0,
    }
}

// The life of a line, with these events.
fn life_of(
    alloc: Global,
    nodes: u16,
    life: LifeLine,
    events: Vec<Event>,
) -> Result<Life, AllocError>
    requires { IsLife nodes life }
    ensures set { IfOk result (λ made. IsSetAs nodes life made) }
    ensures events { IfOk result (λ made. made.events.items ≡ events.items) }
{
    Ok(Life {
        sessions: life.sessions as usize,
        capacity: life.places as usize,
        words: life.words.of_nodes(alloc, nodes)?,
        events,
        plan: life.plan,
        word: life.crash,
    })
}

// The event of a line that is one.
fn event_of(alloc: Global, nodes: u16, line: RehearsalLine) -> Result<Event, AllocError>
    requires { IsEvent nodes line }
    ensures { IfOk result (λ event. IsEventOf nodes line event) }
{
    match line {
        RehearsalLine::Device(_) | RehearsalLine::Life(_) => unreachable!(),
        RehearsalLine::Submit(session, ticket, change) => Ok(Event::Submit {
            session,
            ticket,
            change,
        }),
        RehearsalLine::Look(session, at) => Ok(Event::Look { session, at }),
        RehearsalLine::Take => Ok(Event::Take),
        RehearsalLine::Commit => Ok(Event::Commit),
        RehearsalLine::Post => Ok(Event::Post),
        RehearsalLine::Rebuild(words) => Ok(Event::Rebuild {
            words: words.of_nodes(alloc, nodes)?,
        }),
        RehearsalLine::Launch(from, to, at) => Ok(Event::Launch { from, to, at }),
        RehearsalLine::Hop(packet, at) => Ok(Event::Hop { packet, at }),
    }
}
