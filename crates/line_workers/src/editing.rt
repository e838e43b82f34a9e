// An editor's thread.
ghost use Rattle.std.specs.Prelude.{◌≡◌, ◌≢◌, [], IfSome, length};
ghost use Rattle.put_lines.specs.Lines.{lines_of_session};
ghost use Rattle.service_actors.specs.Edited.{IsSameEditor};
ghost use Rattle.live_lines.specs.Answers.{FitsAsked, generation_gone};
ghost use Rattle.line_exchange.specs.OneList.{IsSaidBy};
ghost use Rattle.line_workers.specs.Submits.{ComesBack, HasPutFor, NotesAnswer};

use crate::workplace::Workplace;
use generations::{Mark, Verdict};
use graph_edits::Change;
use line_exchange::{Answered, Ask, Noted, NotedLine, Stream};
use live_lines::{Answer, Asked};
use packet_ways::BoardName;
use put_lines::PutLine;
use service_actors::{EditEnd, SessionEditor, StopCause};
use std::marker::PhantomData;
use std::sync::Wait;

// The answer to a mark. Whoever asks from now on how many changes are accepted finds this one counted.
fn marked<J: Stream, B: BoardName, R: Wait>(here: &Workplace<J, B, R>, mark: &Mark) {
    match mark.verdict {
        Verdict::Accepted { count } => here.coordinator.reach(here.rt, count),
        Verdict::Refused { op: _, code: _ } => {}
    }
}

// The answer to an edit. Without one all stop.
fn edited<J: Stream, B: BoardName, R: Wait>(
    here: &Workplace<J, B, R>,
    editor: SessionEditor<B>,
    session: u8,
    ticket: Option<u64>,
    change: Change,
) -> Option<(SessionEditor<B>, Answer)>
    ensures fits { IfSome result (λ r. FitsAsked (Asked.Edit session ticket change) r.1) }
    ensures said { IfSome result (λ r. ∥ IsSaidBy r.0.editor.known (Asked.Edit session ticket change) r.1 ∥₁) }
    ensures same { IfSome result (λ r. IsSameEditor editor.editor r.0.editor) }
    ensures put { IfSome result (λ r. HasPutFor (Asked.Edit session ticket change) r.1 editor.editor r.0.editor) }
    ensures never { IfSome result (λ r. r.1 ≢ generation_gone) }
{
    if session != editor.session() {
        here.coordinator.stop(here.rt, StopCause::Internal);
        return None;
    }
    let named = ticket.is_some();
    let (editor, ticket, end) = editor.edit(here.rt, here.coordinator, ticket, change)?;
    match end {
        EditEnd::Settled(mark) => {
            marked(here, &mark);
            Some((editor, Answer::Settled(mark)))
        }
        EditEnd::PastLimit => {
            here.coordinator.stop(here.rt, StopCause::Worn);
            None
        }
        EditEnd::AlreadyIn if named => Some((editor, Answer::AlreadyIn { session, ticket })),
        EditEnd::RefusedBefore { op, code } if named => {
            let answer = Answer::RefusedBefore {
                session,
                ticket,
                op,
                code,
            };
            Some((editor, answer))
        }
        EditEnd::OldTicket if named => Some((editor, Answer::OldTicket { session, ticket })),
        // The ticket behind the last one is new.
        _ => {
            here.coordinator.stop(here.rt, StopCause::Internal);
            None
        }
    }
}

// The answer to a line that is an editor's. Without one all stop.
fn answer_of<J: Stream, B: BoardName, R: Wait>(
    here: &Workplace<J, B, R>,
    editor: SessionEditor<B>,
    asked: Asked,
) -> Option<(SessionEditor<B>, Answer)>
    ensures fits { IfSome result (λ r. FitsAsked asked r.1) }
    ensures said { IfSome result (λ r. ∥ IsSaidBy r.0.editor.known asked r.1 ∥₁) }
    ensures same { IfSome result (λ r. IsSameEditor editor.editor r.0.editor) }
    ensures put { IfSome result (λ r. HasPutFor asked r.1 editor.editor r.0.editor) }
    ensures never { IfSome result (λ r. r.1 ≢ generation_gone) }
{
    match asked {
        Asked::Edit {
            session,
            ticket,
            change,
        } => edited(here, editor, session, ticket, change),
        Asked::Resume { session } => {
            let ticket = editor.accepted();
            Some((editor, Answer::Resumed { session, ticket }))
        }
        _ => {
            here.coordinator.stop(here.rt, StopCause::Internal);
            None
        }
    }
}

#[tactic(auto, using(crate::proofs::Submitting::next_there))]
// The line of a verdict of this session, noted behind those before it, and what is noted then. None where it can't be.
fn noted_with<J: Stream, B: BoardName, R: Wait>(
    here: &Workplace<J, B, R>,
    noted: &Noted,
    session: u8,
    place: u64,
    answer: &Answer,
) -> Option<(Option<NotedLine<J>>, Noted)>
    requires book { noted.now.lines.book ≡ J.book }
    requires number { noted.now.number ≡ length (lines_of_session session noted.now.lines.lines) }
    ensures { IfSome result (λ r. NotesAnswer session place answer.now noted.now r.1) }
{
    match answer {
        Answer::Settled(mark) => {
            if mark.session != session {
                return None;
            }
            let line = PutLine {
                session: mark.session,
                ticket: mark.ticket,
                place,
            };
            let number = noted.number.checked_add(1)?;
            let lines = noted.lines.add(&here.exchange.book, &line, noted.number)?;
            let told = NotedLine {
                line,
                number: noted.number,
                lines: lines.again(),
                of: PhantomData,
            };
            Some((Some(told), Noted { number, lines }))
        }
        _ => {
            let same = Noted {
                number: noted.number,
                lines: noted.lines.again(),
            };
            Some((None, same))
        }
    }
}

// A line, answered, and noted where that put a request. Without an answer all stop.
fn answered<J: Stream, B: BoardName, R: Wait>(
    here: &Workplace<J, B, R>,
    editor: SessionEditor<B>,
    noted: &Noted,
    ask: Ask<J>,
) -> Option<(SessionEditor<B>, Noted, Answered<J, B>)>
    requires book { noted.now.lines.book ≡ J.book }
    requires number { noted.now.number ≡ length (lines_of_session editor.editor.session noted.now.lines.lines) }
    ensures same { IfSome result (λ r. IsSameEditor editor.editor r.0.editor) }
    ensures fits { IfSome result (λ r. FitsAsked ask.asked r.2.answer) }
    ensures put { IfSome result (λ r. HasPutFor ask.asked r.2.answer editor.editor r.0.editor) }
    ensures noted { IfSome result (λ r. NotesAnswer editor.editor.session ask.place r.2.answer noted.now r.1) }
{
    let Ask {
        place,
        asked,
        behind: _,
        of,
    } = ask;
    let session = editor.session();
    let (editor, answer) = answer_of(here, editor, asked)?;
    let Some((line, more)) = noted_with(here, noted, session, place, &answer) else {
        here.coordinator.stop(here.rt, StopCause::Internal);
        return None;
    };
    let answered = Answered {
        place,
        answer,
        known: editor.known(),
        noted: line,
        of,
        at: PhantomData,
    };
    Some((editor, more, answered))
}

// Answers one line after the other. The editor comes back, unless all stop, with what it noted of the lines by which it put requests.
fn answer_each<J: Stream, B: BoardName, R: Wait>(
    here: &Workplace<J, B, R>,
    editor: SessionEditor<B>,
) -> Option<(SessionEditor<B>, Noted)>
    requires { editor.editor.put ≡ [] }
    ensures { IfSome result (λ r. ComesBack J.book J.input J.editors editor.editor r.0.editor r.1) }
{
    let Some(mailbox) = here.exchange.sessions.get(editor.session() as usize) else {
        here.coordinator.stop(here.rt, StopCause::Internal);
        return None;
    };
    let mut editor = editor;
    let mut noted = Noted {
        number: 0,
        lines: here.exchange.book.begin(),
    };
    for _ in here.rt.forever() {
        let Some(ask) = mailbox.take(here.rt) else {
            return Some((editor, noted));
        };
        let Some((back, more, answered)) = answered(here, editor, &noted, ask) else {
            return None;
        };
        editor = back;
        noted = more;
        let _put = here.exchange.answers.put(here.rt, answered);
    }
    unreachable!()
}

/// Answers the lines that are a session's, one after the other, until no more comes or all stop. The editor comes back, unless all
/// stop, with what it noted: which line put which of its requests.
pub fn edit_lines<J: Stream, B: BoardName, R: Wait>(
    here: &Workplace<J, B, R>,
    editor: SessionEditor<B>,
) -> Option<(SessionEditor<B>, Noted)>
    requires { editor.editor.put ≡ [] }
    ensures { IfSome result (λ r. ComesBack J.book J.input J.editors editor.editor r.0.editor r.1) }
{
    let back = answer_each(here, editor);
    here.coordinator.leave(here.rt);
    back
}
