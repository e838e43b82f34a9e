// The thread that answers how a service stands, in words and in figures, and asks for backups.
ghost use Rattle.std.specs.Prelude.{◌≡◌, IfOk, IfSome};
ghost use Rattle.line_exchange.specs.OneList.{AnswersBy};
ghost use Rattle.packet_ways.specs.Standing.{IsNewest};

use crate::workplace::Workplace;
use generations::History;
use line_exchange::{Answered, Ask, Stream};
use live_lines::{Answer, Asked, CommitFigures, KINDS, Metrics};
use packet_ways::BoardName;
use service_actors::{Backed, ServiceState, StopCause, TimeSpan, Timings};
use std::alloc::{AllocError, Global};
use std::marker::PhantomData;
use std::sync::Wait;

// How the service stands, once so many changes and this generation are told, and the newest generation. None where all stop.
fn standing_from<J: Stream, B: BoardName, R: Wait>(
    here: &Workplace<J, B, R>,
    count: u64,
    generation: u64,
) -> Option<(ServiceState<B>, u64)>
    ensures { IfSome result (λ r. IsNewest r.0.stand.told r.1) }
{
    for _ in here.rt.forever() {
        let standing = here.coordinator.standing(here.rt);
        match standing.stand.generation {
            Some(newest) if count <= standing.stand.count && generation <= newest => {
                return Some((standing, newest));
            }
            _ if standing.stopped => return None,
            _ => here.coordinator.await_news(here.rt, standing.turn),
        }
    }
    None
}

// What is answered of how the service stands, and what was told by then.
fn state_of<B: BoardName>(standing: &ServiceState<B>, newest: u64) -> (Answer, History)
    requires { IsNewest standing.now.stand.told newest }
    ensures answers { AnswersBy result.1 Asked.State result.0 }
    ensures named { result.1.opening ≡ B.opening }
{
    let answer = Answer::State {
        count: standing.stand.count,
        generation: newest,
        queue: standing.queue,
    };
    (answer, standing.stand.told.told().history())
}

// The same of the newest generation.
fn waited_of<B: BoardName>(standing: &ServiceState<B>, newest: u64) -> (Answer, History)
    requires { IsNewest standing.now.stand.told newest }
    ensures answers { AnswersBy result.1 Asked.Wait result.0 }
    ensures named { result.1.opening ≡ B.opening }
{
    let answer = Answer::Waited { generation: newest };
    (answer, standing.stand.told.told().history())
}

// What is answered of a backup, and what was told when it was made.
fn backed_of<B: BoardName>(backed: &Backed<B>) -> (Answer, History)
    ensures answers { (file : _) → AnswersBy result.1 (Asked.Backup file) result.0 }
    ensures named { result.1.opening ≡ B.opening }
{
    let stand = &backed.stand;
    let known = stand.told.told().history();
    match backed.end {
        Ok(()) => (Answer::BackedUp { count: stand.count }, known),
        Err(refused) => (Answer::NoBackup(refused), known),
    }
}

// What a monitor is told, but for what the printer counts, and what was told by then.
fn metrics_of<B: BoardName>(
    alloc: Global,
    standing: &ServiceState<B>,
    newest: u64,
    timings: &Timings,
) -> Result<(Answer, History), AllocError>
    requires { IsNewest standing.now.stand.told newest }
    ensures answers { IfOk result (λ r. AnswersBy r.1 Asked.Metrics r.0) }
    ensures named { IfOk result (λ r. r.1.opening ≡ B.opening) }
{
    let TimeSpan {
        least,
        median,
        greatest,
    } = timings.span();
    let metrics = Metrics {
        answers: 0,
        counted: [0; KINDS],
        count: standing.stand.count,
        generation: newest,
        queue: standing.queue,
        commits: CommitFigures {
            count: timings.commits,
            least,
            median,
            greatest,
        },
        build: timings.build,
        waiting: 0,
    };
    let boxed = Box::new(alloc, metrics)?;
    Ok((Answer::Metrics(boxed), standing.stand.told.told().history()))
}

// The same of how the service stands now. Without memory all stop.
fn measured<J: Stream, B: BoardName, R: Wait>(
    here: &Workplace<J, B, R>,
    standing: &ServiceState<B>,
    newest: u64,
) -> Option<(Answer, History)>
    requires { IsNewest standing.now.stand.told newest }
    ensures answers { IfSome result (λ r. AnswersBy r.1 Asked.Metrics r.0) }
    ensures named { IfSome result (λ r. r.1.opening ≡ B.opening) }
{
    let timings = here.coordinator.timings(here.rt);
    match metrics_of(here.alloc, standing, newest, &timings) {
        Ok(told) => Some(told),
        Err(_) => {
            here.coordinator.stop(here.rt, StopCause::Memory);
            None
        }
    }
}

// The answer to a line that is the waiter's, and what was told by then. Without one all stop.
fn answer_of<J: Stream, B: BoardName, R: Wait>(
    here: &Workplace<J, B, R>,
    asked: Asked,
) -> Option<(Answer, History)>
    ensures answers { IfSome result (λ r. AnswersBy r.1 asked r.0) }
    ensures named { IfSome result (λ r. r.1.opening ≡ B.opening) }
{
    let first = here.coordinator.standing(here.rt);
    match asked {
        Asked::State => {
            let (now, newest) = standing_from(here, first.reached, first.seen)?;
            Some(state_of(&now, newest))
        }
        Asked::Wait => {
            let (now, newest) = standing_from(here, 0, first.reached.max(first.stand.count))?;
            Some(waited_of(&now, newest))
        }
        Asked::Metrics => {
            let (now, newest) = standing_from(here, first.reached, first.seen)?;
            measured(here, &now, newest)
        }
        Asked::Backup { file } => {
            let backed = here.coordinator.ask_backup(here.rt, file)?;
            Some(backed_of(&backed))
        }
        _ => {
            here.coordinator.stop(here.rt, StopCause::Internal);
            None
        }
    }
}

// A line, answered. Without an answer all stop.
fn answered<J: Stream, B: BoardName, R: Wait>(
    here: &Workplace<J, B, R>,
    ask: Ask<J>,
) -> Option<Answered<J, B>> {
    let Ask {
        place,
        asked,
        behind: _,
        of,
    } = ask;
    let (answer, known) = answer_of(here, asked)?;
    Some(Answered {
        place,
        answer,
        known,
        noted: None,
        of,
        at: PhantomData,
    })
}

// Answers lines, until no more comes or all stop.
fn answer_each<J: Stream, B: BoardName, R: Wait>(here: &Workplace<J, B, R>) {
    for _ in here.rt.forever() {
        let Some(ask) = here.exchange.waiter.take(here.rt) else {
            return;
        };
        if !here.exchange.answers.await_turn(here.rt, ask.place) {
            return;
        }
        let Some(answered) = answered(here, ask) else {
            return;
        };
        let _put = here.exchange.answers.put(here.rt, answered);
    }
}

/// Answers the lines that ask how the service stands or for a backup, each once all lines before it are taken to be printed, until no
/// more comes or all stop. Then it leaves, as an editor does: the committer goes on until then.
pub fn wait_lines<J: Stream, B: BoardName, R: Wait>(here: &Workplace<J, B, R>) {
    answer_each(here);
    here.coordinator.leave(here.rt);
}
