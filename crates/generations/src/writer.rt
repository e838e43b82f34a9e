// The writer: it posts, and no reader sees a posting before it is published.
ghost use Rattle.std.specs.Prelude.{◌≡◌, ◌≢◌, ◌++◌, ◌∷◌, [], ◌↔◌, drop, IsTrue, MatchResult};
ghost use Rattle.left_right.specs.Sides.{view};
ghost use Rattle.generations.specs.Notices.{notice_of};
ghost use Rattle.generations.specs.Waits.{IsLast, IsWaiting, IsPending};
ghost use Rattle.generations.specs.Writes.{IsPublished, HasHandedIn, Shows, pending_of};
ghost use Rattle.generations.specs.Posts.{with_posted, all_posted};
ghost use Rattle.generations.specs.Lawful.{IsLawful};
ghost use Rattle.generations.specs.Refusals.{IsRefused};

use crate::history::{Head, History, MOST_POSTINGS};
use crate::posting::Posting;
use crate::reader::{Observation, Publication, Told};
use crate::replica::{Replica, Update};
use left_right::writer::Writer;
use std::alloc::AllocError;
use std::marker::Model;
use std::mem;
use std::sync::Wait;
use thiserror::Error;

/// What the writer keeps unpublished.
#[derive(Drop)]
pub enum Waiting {
    Nothing,
    /// It isn't in the log of updates.
    Outside(Update),
    /// It is there.
    Logged,
}

/// The writing end of `left_right` with the handle by which it waits. Its drop waits for the readers.
pub struct Publisher<R: Wait + Drop> {
    rt: R,
    writer: Writer<Replica, Update, Option<History>, Publication>,
}

impl<R: Wait + Drop> Drop for Publisher<R> {
    fn drop(self) {
        let Self { rt, writer } = self;
        writer.take(&rt);
    }
}

/// The writer of a board. Contracts see it as what it has posted, and what it keeps. Its drop waits for the readers.
#[derive(Drop)]
pub struct BoardWriter<R: Wait + Drop> {
    head: Head,
    /// Between two calls it is there.
    publisher: Option<Publisher<R>>,
    posted: History,
    all: History,
    waiting: Waiting,
}

impl<R: Wait + Drop> Model for BoardWriter<R> {
    ghost use Rattle.generations.specs.Posts.{Posts};
    ghost use Rattle.generations.specs.Writes.{IsWriter, posts_of};

    ghost Value = { Posts };

    ghost view = { λ w. posts_of w.posted w.all };

    ghost invariant = { IsWriter };
}

/// Why a posting wasn't posted.
#[derive(Drop)]
pub enum PostRefused {
    /// It wasn't taken, and nothing changed.
    Back(Posting),
    /// The writer keeps it, and no reader sees it.
    Kept,
}

/// What is kept stays kept.
#[derive(Clone, Copy, Debug, PartialEq, Eq, Drop, Error)]
#[error("the posting stays kept")]
pub struct Kept;

impl<R: Wait + Drop> BoardWriter<R> {
    // A writer that keeps nothing.
    pub(crate) fn new(
        head: Head,
        rt: R,
        writer: Writer<Replica, Update, Option<History>, Publication>,
        posted: History,
    ) -> BoardWriter<R>
        requires book { head.word.book ≡ posted.opening.book }
        requires shown { IsPublished writer.desk.shown.value (view writer.desk.place) posted }
        requires pending { drop writer.behind writer.log.items ≡ [] }
        ensures { result ≡ record { opening = posted.opening; posted = posted.log; kept = [] } }
    {
        BoardWriter {
            head,
            publisher: Some(Publisher { rt, writer }),
            all: posted.again(),
            posted,
            waiting: Waiting::Nothing,
        }
    }

    /// Whether a posting is kept. What was posted is lawful, also with what is kept.
    pub fn kept(&self) -> bool
        ensures kept { IsTrue result ↔ (self.now.kept ≢ []) }
        ensures lawful { IsLawful self.now.opening.starts self.now.opening.count (self.now.posted ++ self.now.kept) }
    {
        self.all.len();
        !matches!(&self.waiting, Waiting::Nothing)
    }

    /// What was posted, for readers to learn. It takes no memory and waits for nobody.
    pub fn tell(&self) -> Told
        ensures { result ≡ record { opening = self.now.opening; log = self.now.posted } }
    {
        Told::new(self.posted.again())
    }

    /// Posts one posting: every look that starts then, of a reader that was told of it, sees it.
    pub fn post(&mut self, posting: Posting) -> Result<(), PostRefused>
        requires nothing_kept { self.old.kept ≡ [] }
        requires lawful { IsLawful self.old.opening.starts self.old.opening.count
            (self.old.posted ++ notice_of posting ∷ []) }
        ensures { MatchResult result (λ _. self.new ≡ with_posted self.old (notice_of posting))
            (λ e. IsRefused posting self.old self.new e) }
    {
        if self.posted.len() >= MOST_POSTINGS {
            return Err(PostRefused::Back(posting));
        }
        let Some(all) = self.posted.add(&self.head, &posting) else {
            return Err(PostRefused::Back(posting));
        };
        let Some(publisher) = self.publisher.take() else {
            unreachable!()
        };
        let update = Update {
            posting,
            history: all.again(),
        };
        let (publisher, waiting) = publisher.hand_in(&self.posted, &all, update);
        self.publisher = Some(publisher);
        match waiting {
            Waiting::Nothing => {
                self.posted = all.again();
                self.all = all;
                self.waiting = Waiting::Nothing;
                Ok(())
            }
            Waiting::Outside(update) => {
                self.all = all;
                self.waiting = Waiting::Outside(update);
                Err(PostRefused::Kept)
            }
            Waiting::Logged => {
                self.all = all;
                self.waiting = Waiting::Logged;
                Err(PostRefused::Kept)
            }
        }
    }

    /// Publishes what was posted once more, without a posting. So the other copy of the board takes it up too, and lets go of the
    /// generation that it pushed out. Readers find no change by it.
    ///
    /// It waits for the readers of that copy, as a posting does. It is refused where the copy can't take it up. No clause of
    /// `left_right` says that the copy has.
    pub fn publish_again(&mut self) -> Result<(), AllocError>
        requires nothing_kept { self.old.kept ≡ [] }
        ensures { self.new ≡ self.old }
    {
        let Some(publisher) = self.publisher.take() else {
            unreachable!()
        };
        let (publisher, shown) = publisher.show_again(&self.posted);
        self.publisher = Some(publisher);
        shown
    }

    /// Publishes what is kept.
    pub fn retry(&mut self) -> Result<(), Kept>
        requires { self.old.kept ≢ [] }
        ensures { MatchResult result (λ _. self.new ≡ all_posted self.old) (λ _. self.new ≡ self.old) }
    {
        let Some(publisher) = self.publisher.take() else {
            unreachable!()
        };
        let waiting = mem::replace(&mut self.waiting, Waiting::Nothing);
        let (publisher, waiting) = publisher.again(&self.posted, &self.all, waiting);
        self.publisher = Some(publisher);
        match waiting {
            Waiting::Nothing => {
                self.posted = self.all.again();
                Ok(())
            }
            Waiting::Outside(update) => {
                self.waiting = Waiting::Outside(update);
                Err(Kept)
            }
            Waiting::Logged => {
                self.waiting = Waiting::Logged;
                Err(Kept)
            }
        }
    }
}

impl<R: Wait + Drop> Publisher<R> {
    // Publishes what waits.
    fn again(self, posted: &History, all: &History, waiting: Waiting) -> (Publisher<R>, Waiting)
        requires shown { Shows self posted.now }
        requires waits { IsWaiting posted.now all.now (pending_of self) waiting }
        requires some { waiting ≢ Waiting.Nothing }
        ensures { HasHandedIn result.0 posted.now all.now result.1 }
    {
        match waiting {
            Waiting::Outside(update) => self.hand_in(posted, all, update),
            Waiting::Logged => self.show(posted, all),
            Waiting::Nothing => unreachable!(),
        }
    }

    // Hands the update to the log, and publishes it.
    fn hand_in(self, posted: &History, all: &History, update: Update) -> (Publisher<R>, Waiting)
        requires shown { Shows self posted.now }
        requires pending { pending_of self ≡ [] }
        requires last { IsLast posted.now all.now update }
        ensures { HasHandedIn result.0 posted.now all.now result.1 }
    {
        let Self { rt, mut writer } = self;
        match writer.append(update) {
            Ok(()) => Publisher { rt, writer }.show(posted, all),
            Err(update) => (Publisher { rt, writer }, Waiting::Outside(update)),
        }
    }

    // Publishes the one update that is pending.
    fn show(self, posted: &History, all: &History) -> (Publisher<R>, Waiting)
        requires shown { Shows self posted.now }
        requires pending { IsPending posted.now all.now (pending_of self) }
        ensures { HasHandedIn result.0 posted.now all.now result.1 }
    {
        let Self { rt, writer } = self;
        let (writer, shown) = writer.publish_as::<Observation, R>(&rt);
        let publisher = Publisher { rt, writer };
        match shown {
            Ok(()) => (publisher, Waiting::Nothing),
            Err(_) => (publisher, Waiting::Logged),
        }
    }

    // Publishes where no update is pending.
    fn show_again(self, posted: &History) -> (Publisher<R>, Result<(), AllocError>)
        requires shown { Shows self posted.now }
        requires pending { pending_of self ≡ [] }
        ensures shown { Shows result.0 posted.now }
        ensures pending { pending_of result.0 ≡ [] }
    {
        let Self { rt, writer } = self;
        let (writer, shown) = writer.publish_as::<Observation, R>(&rt);
        (Publisher { rt, writer }, shown)
    }
}
