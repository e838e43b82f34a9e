// Editors: they put requests into the queue, and look at the board for what became of them.
ghost use Rattle.std.specs.Prelude.{◌≡◌, ◌+◌, ◌++◌, ◌∷◌, [], IfOk, IfErr, OnOk, OnErr, None, List};
ghost use Rattle.generations.specs.Beginnings.{GoesOn};
ghost use Rattle.intake.specs.Turns.{HasWaited, of, request_of};
ghost use Rattle.requests.specs.declared.request.Request.{Request};
ghost use Rattle.intake.specs.Ends.{with_ended};
ghost use Rattle.intake.specs.declared.outcome.SubmitRefused.TheVariants.{QueueFull};

use crate::outcome::{Outcome, Standing, SubmitRefused};
use crate::queue::{Sender, Taker};
use crate::watcher::Watcher;
use generations::{BoardReader, History, Shut, Told};
use graph_edits::Change;
use requests::Request;
use std::marker::Model;
use std::sync::Wait;

/// An editor of one session. Contracts see its session, where its tickets start, the requests that it submitted, and the postings
/// that it saw or was told of.
#[derive(Drop)]
pub struct Editor {
    sender: Sender,
    watcher: Watcher,
}

impl Model for Editor {
    ghost use Rattle.intake.specs.Editors.{Editing, editing, IsEditing};

    ghost Value = { Editing };

    ghost view = { editing };

    ghost invariant = { IsEditing };
}

impl Editor {
    ghost use Rattle.intake.specs.Watchers.{IsLawfulAfter};
    ghost use Rattle.intake.specs.Editors.{IsRefused, IsSameEditor, beginner, outcome_by, refusal_by, standing_by, with_known};

    // An editor that has submitted nothing.
    pub(crate) fn new(sender: Sender, reader: BoardReader) -> Editor
        requires { sender.put ≡ [] }
        ensures { result ≡ beginner sender reader.all }
    {
        let watcher = Watcher::new(sender.session(), reader);
        Editor { sender, watcher }
    }

    /// Its session.
    pub fn session(&self) -> u8
        ensures { result ≡ self.now.session }
    {
        self.sender.session()
    }

    /// The last ticket of its session that was in when the store was opened: the first one to submit is above it.
    pub fn resume(&self) -> u64
        ensures { result ≡ self.now.start }
    {
        self.sender.start()
    }

    /// The postings that it saw or was told of.
    pub fn known(&self) -> History
        ensures { result ≡ self.now.known }
    {
        self.watcher.known()
    }

    /// From now on it sees no less than what was told. It takes no memory and waits for nobody.
    pub fn learn(&mut self, told: &Told)
        requires { told.now.opening ≡ self.old.known.opening }
        ensures same { self.new ≡ with_known self.old self.new.known }
        ensures kept { GoesOn self.old.known self.new.known }
        ensures learnt { GoesOn told.now self.new.known }
    {
        self.watcher.learn(told);
    }

    /// What became of the last change that it submitted, with its mark. It takes no memory and waits for nobody.
    pub fn standing(&mut self) -> Result<Standing, Shut>
        ensures same { self.new ≡ with_known self.old self.new.known }
        ensures kept { GoesOn self.old.known self.new.known }
        ensures lawful { OnOk result (IsLawfulAfter self.new.known) }
        ensures standing { IfOk result (λ o. o ≡ standing_by self.new) }
    {
        self.watcher.standing()
    }

    /// The same without the mark's session.
    pub fn outcome(&mut self) -> Result<Outcome, Shut>
        ensures same { self.new ≡ with_known self.old self.new.known }
        ensures kept { GoesOn self.old.known self.new.known }
        ensures lawful { OnOk result (IsLawfulAfter self.new.known) }
        ensures outcome { IfOk result (λ o. o ≡ outcome_by self.new) }
    {
        Ok(self.standing()?.outcome())
    }

    // What the board says of a ticket: why it isn't let in.
    fn judge(&mut self, ticket: u64) -> Result<Option<SubmitRefused>, Shut>
        ensures same { self.new ≡ with_known self.old self.new.known }
        ensures kept { GoesOn self.old.known self.new.known }
        ensures refusal { IfOk result (λ o. o ≡ refusal_by self.new.known self.old ticket) }
    {
        let start = self.sender.start();
        self.watcher.judge(start, ticket)
    }

    /// Puts a change at the queue's end, under this ticket. A refusal gives it back, and adds nothing. It takes no memory.
    pub fn submit<W: Wait>(
        &mut self,
        rt: &W,
        ticket: u64,
        change: Change,
    ) -> Result<(), (SubmitRefused, Change)>
        ensures same { IsSameEditor self.old self.new }
        ensures kept { GoesOn self.old.known self.new.known }
        ensures put { OnOk result (self.new.put ≡ self.old.put ++ request_of self.old.session ticket change ∷ []) }
        ensures adds_nothing { OnErr result (self.new.put ≡ self.old.put) }
        ensures back { IfErr result (λ e. e.1 ≡ change) }
        ensures let_in { OnOk result (refusal_by self.new.known self.old ticket ≡ None) }
        ensures refusal { IfErr result (λ e. IsRefused self.new.known self.old ticket e.0) }
        ensures full { IfErr result (λ e. e.0 ≡ QueueFull → self.new.fulls ≡ self.old.fulls + 1) }
        // A queue that was found full held a request in each place.
        ensures waited { IfErr result (λ e. e.0 ≡ QueueFull → HasWaited self.old.queue self.old.session self.old.put) }
    {
        match self.judge(ticket) {
            Err(_) => Err((SubmitRefused::BoardShut, change)),
            Ok(Some(refusal)) => Err((refusal, change)),
            Ok(None) => self.put(rt, ticket, change),
        }
    }

    // Puts a change that the board lets in.
    fn put<W: Wait>(
        &mut self,
        rt: &W,
        ticket: u64,
        change: Change,
    ) -> Result<(), (SubmitRefused, Change)>
        requires { refusal_by self.old.known self.old ticket ≡ None }
        ensures same { IsSameEditor self.old self.new }
        ensures known { self.new.known ≡ self.old.known }
        ensures put { OnOk result (self.new.put ≡ self.old.put ++ request_of self.old.session ticket change ∷ []) }
        ensures adds_nothing { OnErr result (self.new.put ≡ self.old.put) }
        ensures back { IfErr result (λ e. (e.0 ≡ QueueFull) × (e.1 ≡ change)) }
        ensures full { OnErr result (self.new.fulls ≡ self.old.fulls + 1) }
        ensures waited { OnErr result (HasWaited self.old.queue self.old.session self.old.put) }
    {
        let request = Request {
            session: self.sender.session(),
            ticket,
            change,
        };
        match self.sender.put(rt, request) {
            Ok(()) => {
                self.watcher.note(ticket);
                Ok(())
            }
            Err(request) => Err((SubmitRefused::QueueFull, request.change)),
        }
    }
}

impl Taker {
    ghost use Rattle.intake.specs.Editors.{watcher_of};

    /// Ends an editor: it submits no more, and its watcher is left. What was taken, followed by what waits, has just the requests
    /// that it submitted, each once, in its order.
    pub fn end(&mut self, editor: Editor) -> Watcher
        requires { editor.queue ≡ self.old.queue }
        ensures same { self.new ≡ with_ended self.old editor.session editor.put }
        ensures whole { (waits : List Request) × (editor.put ≡ of editor.session (self.new.got ++ waits)) }
        ensures watcher { result ≡ watcher_of editor }
    {
        let Editor { sender, watcher } = editor;
        self.close(sender);
        watcher
    }
}
