// An editor that takes its changes one at a time, as they are asked for.
ghost use Rattle.std.specs.Prelude.{◌≡◌, ◌≢◌, [], IfSome, Some};
ghost use Rattle.generations.specs.declared.posting.Mark.{Mark};
ghost use Rattle.requests.specs.Tickets.{last_of};
ghost use Rattle.service_actors.specs.Edited.{IsSameEditor};
ghost use Rattle.service_actors.specs.EditedAsAsked.{HasPut, IsEditEnd, IsToldBefore, asked_ticket};
ghost use Rattle.service_actors.specs.AtRest.{IsAtRest, last_by};

use crate::coordinator::Coordinator;
use crate::editing::{learn_news, settled};
use crate::stop_cause::StopCause;
use generations::{History, Mark, Verdict};
use graph_edits::{Change, Code};
use intake::{Editor, SubmitRefused};
use packet_ways::BoardName;
use std::marker::PhantomData;
use std::sync::Wait;
use std::thread;

// What came of a change that was to be put into the queue.
#[derive(Clone, Copy, Drop)]
enum Put {
    In,
    AlreadyIn,
    Old,
    PastLimit,
}

/// What came of a change that was asked for under a ticket.
#[derive(Clone, Copy, Drop)]
pub enum EditEnd {
    /// It is settled.
    Settled(Mark),
    /// Nothing was submitted: the ticket is at most the last one that is in.
    AlreadyIn,
    /// Nothing was submitted: the ticket is the last one that was, and was refused then, by the op at this place.
    RefusedBefore { op: usize, code: Code },
    /// Nothing was submitted: the ticket isn't in, and a later one was submitted.
    OldTicket,
    /// Nothing was submitted: the ticket is past its limit.
    PastLimit,
}

/// An editor of the board that `J` names, which takes its changes one at a time.
#[derive(Drop)]
pub struct SessionEditor<J: BoardName> {
    editor: Editor,
    // The mark of the last change that was submitted.
    told: Option<Mark>,
    // The last ticket that was accepted, or the start.
    accepted: u64,
    of: PhantomData<J>,
    ghost named: { editor.known.opening ≡ J.opening },
    ghost start_is: { editor.start ≡ last_of J.opening.starts editor.session },
    // All that it submitted is settled.
    ghost at_rest: { ∥ IsAtRest editor told ∥₁ },
}

// Puts a change into the queue, under this ticket, unless that is refused. Without an answer all stop.
fn put_as_asked<J: BoardName, R: Wait>(
    rt: &R,
    coordinator: &Coordinator<J>,
    editor: &mut Editor,
    ticket: u64,
    change: Change,
) -> Option<Put>
    requires { editor.old.known.opening ≡ J.opening }
    ensures same { IsSameEditor editor.old editor.new }
    ensures known { editor.new.known.opening ≡ J.opening }
    ensures put { IfSome result (λ put. HasPut editor.old ticket change editor.new put) }
{
    let mut change = change;
    for _ in rt.forever() {
        let turn = learn_news(rt, coordinator, editor)?;
        let Err((refused, back)) = editor.submit(rt, ticket, change) else {
            coordinator.ask(rt);
            return Some(Put::In);
        };
        change = back;
        match refused {
            SubmitRefused::BoardShut => thread::yield_now(),
            SubmitRefused::QueueFull | SubmitRefused::Busy => coordinator.await_news(rt, turn),
            SubmitRefused::AlreadyIn => return Some(Put::AlreadyIn),
            SubmitRefused::OldTicket => return Some(Put::Old),
            SubmitRefused::Worn => return Some(Put::PastLimit),
        }
    }
    unreachable!()
}

// The last ticket that was submitted, by its mark, or the start.
fn last_ticket(editor: &Editor, told: &Option<Mark>) -> u64
    ensures { result ≡ last_by told.now editor.now.start }
{
    match told {
        Some(mark) => mark.ticket,
        None => editor.resume(),
    }
}

// What is said of a ticket that isn't in, but at most the last one that was submitted: that has this mark. None where the last one is in.
fn told_before(told: Option<Mark>, ticket: u64) -> Option<EditEnd>
    ensures { IfSome result (λ end. IsToldBefore told ticket end) }
{
    let mark = told?;
    match mark.verdict {
        _ if ticket < mark.ticket => Some(EditEnd::OldTicket),
        Verdict::Refused { op, code } if ticket == mark.ticket => {
            Some(EditEnd::RefusedBefore { op, code })
        }
        _ => None,
    }
}

// One change under a ticket that is asked for, by an editor whose last change has this mark. Without an answer all stop.
fn edit_as_asked<J: BoardName, R: Wait>(
    rt: &R,
    coordinator: &Coordinator<J>,
    editor: &mut Editor,
    told: Option<Mark>,
    ticket: u64,
    change: Change,
) -> Option<EditEnd>
    requires known { editor.old.known.opening ≡ J.opening }
    requires at_rest { ∥ IsAtRest editor.old told ∥₁ }
    ensures same { IsSameEditor editor.old editor.new }
    ensures known { editor.new.known.opening ≡ J.opening }
    ensures ended { IfSome result (λ end. IsEditEnd editor.old ticket change editor.new end) }
{
    match put_as_asked(rt, coordinator, editor, ticket, change)? {
        Put::In => Some(EditEnd::Settled(settled(rt, coordinator, editor)?)),
        Put::AlreadyIn => Some(EditEnd::AlreadyIn),
        Put::Old => {
            let end = told_before(told, ticket);
            if end.is_none() {
                coordinator.stop(rt, StopCause::Internal);
            }
            end
        }
        Put::PastLimit => Some(EditEnd::PastLimit),
    }
}

impl<J: BoardName> SessionEditor<J> {
    #[tactic(auto, using(crate::proofs::Resting::rests_new))]
    /// An editor that has submitted nothing.
    pub fn new(editor: Editor) -> SessionEditor<J>
        requires named { editor.known.opening ≡ J.opening }
        requires fresh { editor.put ≡ [] }
        requires start { editor.start ≡ last_of J.opening.starts editor.session }
        ensures { result.editor ≡ editor }
    {
        let start = editor.resume();
        SessionEditor {
            editor,
            told: None,
            accepted: start,
            of: PhantomData,
        }
    }

    /// The last ticket of the session that was accepted, or where its tickets start.
    pub fn accepted(&self) -> u64 {
        self.accepted
    }

    /// The postings that it saw or was told of.
    pub fn known(&self) -> History
        ensures same { result ≡ self.now.editor.known }
        ensures named { result.opening ≡ J.opening }
    {
        self.editor.known()
    }

    /// Its session.
    pub fn session(&self) -> u8
        ensures { result ≡ self.now.editor.session }
    {
        self.editor.session()
    }

    /// The editor itself, which has submitted just what it was asked to.
    pub fn into_editor(self) -> Editor
        ensures same { result ≡ self.editor }
        ensures at_rest { ∥ IsAtRest result self.told ∥₁ }
    {
        self.editor
    }

    #[tactic(auto, using(crate::proofs::Resting::last_resting))]
    /// Submits a change under a ticket, or where none is named under the one behind the last, and waits for its mark. Gives the
    /// editor back, with the ticket and what came of the change. None where all stop.
    pub fn edit<R: Wait>(
        self,
        rt: &R,
        coordinator: &Coordinator<J>,
        ticket: Option<u64>,
        change: Change,
    ) -> Option<(SessionEditor<J>, u64, EditEnd)>
        ensures same { IfSome result (λ r. IsSameEditor self.editor r.0.editor) }
        ensures ticket { IfSome result (λ r. r.1 ≡ asked_ticket self.editor ticket) }
        ensures ended { IfSome result (λ r. IsEditEnd self.editor r.1 change r.0.editor r.2) }
    {
        let SessionEditor {
            mut editor,
            told,
            accepted,
            of,
        } = self;
        let last = last_ticket(&editor, &told);
        let ticket = match ticket {
            Some(ticket) => ticket,
            None => last.saturating_add(1),
        };
        let end = edit_as_asked(rt, coordinator, &mut editor, told, ticket, change)?;
        let editor = SessionEditor {
            editor,
            told: told_after(end, told),
            accepted: accepted_after(end, accepted),
            of,
        };
        Some((editor, ticket, end))
    }
}

// The mark of the last change that was submitted, behind one that came to this.
fn told_after(end: EditEnd, told: Option<Mark>) -> Option<Mark>
    ensures settled { (mark : Mark) → end ≡ EditEnd.Settled mark → result ≡ Some mark }
    ensures others { ((mark : Mark) → end ≢ EditEnd.Settled mark) → result ≡ told }
{
    match end {
        EditEnd::Settled(mark) => Some(mark),
        _ => told,
    }
}

// The last ticket that was accepted, behind a change that came to this.
fn accepted_after(end: EditEnd, accepted: u64) -> u64 {
    match end {
        EditEnd::Settled(mark) => match mark.verdict {
            Verdict::Accepted { .. } => mark.ticket,
            Verdict::Refused { .. } => accepted,
        },
        _ => accepted,
    }
}
