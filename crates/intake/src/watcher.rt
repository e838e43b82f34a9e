// Watchers: they look at the board for what became of a session's last change.
ghost use Rattle.std.specs.Prelude.{◌≡◌, IfOk, OnOk, Some, None};
ghost use Rattle.generations.specs.Beginnings.{GoesOn};

use crate::outcome::{Standing, SubmitRefused, refusal_of, standing_of};
use generations::{BoardReader, History, Shut, Told};
use std::marker::Model;

/// It looks at the board for what became of the last change of a session. Each editor has one, and it is what is left where an
/// editor ends. Contracts see its session, the last ticket that was submitted, and the postings that it saw or was told of.
#[derive(Drop)]
pub struct Watcher {
    session: u8,
    last: Option<u64>,
    /// Between two calls it is there.
    reader: Option<BoardReader>,
    known: History,
}

impl Model for Watcher {
    ghost use Rattle.intake.specs.Watchers.{Watching, watching, IsWatching};

    ghost Value = { Watching };

    ghost view = { watching };

    ghost invariant = { IsWatching };
}

impl Watcher {
    ghost use Rattle.intake.specs.Watchers.{IsLawfulAfter, refusal_seen, standing_seen};

    // One of a session that has submitted nothing.
    pub(crate) fn new(session: u8, reader: BoardReader) -> Watcher
        ensures { result ≡ record { session = session; last = None; known = reader.all } }
    {
        let known = reader.known();
        Watcher {
            session,
            last: None,
            reader: Some(reader),
            known,
        }
    }

    /// The postings that it saw or was told of.
    pub fn known(&self) -> History
        ensures { result ≡ self.now.known }
    {
        self.known.again()
    }

    // A ticket was submitted.
    pub(crate) fn note(&mut self, ticket: u64)
        ensures { self.new ≡ record { session = self.old.session; last = Some ticket; known = self.old.known } }
    {
        self.last = Some(ticket);
    }

    /// From now on it sees no less than what was told. It takes no memory and waits for nobody.
    pub fn learn(&mut self, told: &Told)
        requires { told.now.opening ≡ self.old.known.opening }
        ensures same { (self.new.session ≡ self.old.session) × (self.new.last ≡ self.old.last) }
        ensures kept { GoesOn self.old.known self.new.known }
        ensures learnt { GoesOn told.now self.new.known }
    {
        let Some(mut reader) = self.reader.take() else {
            unreachable!()
        };
        reader.learn(told);
        self.known = reader.known();
        self.reader = Some(reader);
    }

    /// What became of the last change that was submitted. It takes no memory and waits for nobody.
    pub fn standing(&mut self) -> Result<Standing, Shut>
        ensures same { (self.new.session ≡ self.old.session) × (self.new.last ≡ self.old.last) }
        ensures kept { GoesOn self.old.known self.new.known }
        ensures lawful { OnOk result (IsLawfulAfter self.new.known) }
        ensures standing { IfOk result (λ o. o ≡ standing_seen self.new) }
    {
        let Some(reader) = self.reader.take() else {
            unreachable!()
        };
        match reader.look() {
            Ok(look) => {
                let standing = standing_of(look.board(), self.session, self.last);
                let reader = look.leave();
                self.known = reader.known();
                self.reader = Some(reader);
                Ok(standing)
            }
            Err((shut, reader)) => {
                self.reader = Some(reader);
                Err(shut)
            }
        }
    }

    // What the board says of a ticket: why it isn't let in. The session's tickets start above `start`.
    pub(crate) fn judge(&mut self, start: u64, ticket: u64) -> Result<Option<SubmitRefused>, Shut>
        ensures same { (self.new.session ≡ self.old.session) × (self.new.last ≡ self.old.last) }
        ensures kept { GoesOn self.old.known self.new.known }
        ensures refusal { IfOk result (λ o. o ≡ refusal_seen self.new.known self.old start ticket) }
    {
        let Some(reader) = self.reader.take() else {
            unreachable!()
        };
        match reader.look() {
            Ok(look) => {
                let refusal = refusal_of(look.board(), self.session, start, self.last, ticket);
                let reader = look.leave();
                self.known = reader.known();
                self.reader = Some(reader);
                Ok(refusal)
            }
            Err((shut, reader)) => {
                self.reader = Some(reader);
                Err(shut)
            }
        }
    }
}
