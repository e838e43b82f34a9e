// What is posted, and what is still to be posted.
ghost use Rattle.std.specs.Prelude.{◌≡◌, ◌≢◌, ◌++◌, ◌∷◌, [], MatchBool};
ghost use Rattle.generations.specs.Notices.{notice_of};
ghost use Rattle.generations.specs.Lawful.{IsLawful};
ghost use Rattle.committer.specs.Outboxes.{paid, with_posted, with_due};
ghost use Rattle.committer.specs.Offers.{IsOffered};

use generations::{BoardWriter, PostRefused, Posting, Told};
use std::marker::Model;
use std::sync::Wait;

/// The writer of a board, with a posting that it gave back, if there is one. Contracts see what is posted and what is due, at
/// most one posting: the one that came back or the one that the writer keeps.
#[derive(Drop)]
pub struct Outbox<R: Wait + Drop> {
    writer: BoardWriter<R>,
    back: Option<Posting>,
}

impl<R: Wait + Drop> Model for Outbox<R> {
    ghost use Rattle.committer.specs.Outboxes.{Outgoing, outgoing, IsOutbox};

    ghost Value = { Outgoing };

    ghost view = { λ o. outgoing o.writer o.back };

    ghost invariant = { λ o. IsOutbox o.writer o.back };
}

/// What became of a posting that was offered.
#[derive(Clone, Copy, PartialEq, Eq, Drop)]
pub enum Offered {
    /// It is posted.
    Posted,
    /// The writer keeps it.
    Due,
    /// The writer gave it back, and it is gone.
    Dropped,
}

impl<R: Wait + Drop> Outbox<R> {
    /// Nothing is due.
    pub fn new(writer: BoardWriter<R>) -> Outbox<R>
        requires { writer.kept ≡ [] }
        ensures { result ≡ record { opening = writer.opening; posted = writer.posted; due = [] } }
    {
        Outbox { writer, back: None }
    }

    /// What was posted, for readers to learn.
    pub fn told(&self) -> Told
        ensures { result ≡ record { opening = self.now.opening; log = self.now.posted } }
    {
        self.writer.tell()
    }

    /// Posts what is due, and says whether nothing is due any more.
    pub fn pay(&mut self) -> bool
        ensures { MatchBool result (self.new ≡ paid self.old) ((self.new ≡ self.old) × (self.old.due ≢ [])) }
    {
        if self.writer.kept() {
            return self.writer.retry().is_ok();
        }
        match self.back.take() {
            Some(posting) => self.tell(posting),
            None => true,
        }
    }

    /// Posts one posting, and says whether it did. Where it did not, the posting is due.
    pub fn tell(&mut self, posting: Posting) -> bool
        requires nothing_due { self.old.due ≡ [] }
        requires lawful { IsLawful self.old.opening.starts self.old.opening.count
            (self.old.posted ++ notice_of posting ∷ []) }
        ensures { MatchBool result (self.new ≡ with_posted self.old (notice_of posting))
            (self.new ≡ with_due self.old (notice_of posting)) }
    {
        match self.writer.post(posting) {
            Ok(()) => true,
            Err(PostRefused::Back(posting)) => {
                self.back = Some(posting);
                false
            }
            Err(PostRefused::Kept) => false,
        }
    }

    /// Publishes what was posted once more, and says whether it did.
    pub fn publish_again(&mut self) -> bool
        requires nothing_due { self.old.due ≡ [] }
        ensures { self.new ≡ self.old }
    {
        self.writer.publish_again().is_ok()
    }

    /// Posts one posting. Where the writer gives it back, it is dropped.
    pub fn offer(&mut self, posting: Posting) -> Offered
        requires nothing_due { self.old.due ≡ [] }
        requires lawful { IsLawful self.old.opening.starts self.old.opening.count
            (self.old.posted ++ notice_of posting ∷ []) }
        ensures { IsOffered self.old (notice_of posting) self.new result }
    {
        match self.writer.post(posting) {
            Ok(()) => Offered::Posted,
            Err(PostRefused::Back(_)) => Offered::Dropped,
            Err(PostRefused::Kept) => Offered::Due,
        }
    }
}
