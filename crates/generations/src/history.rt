// The one list of notices. It exists in the proofs alone, behind how the board begins: what is stored is its length, and a
// history is a beginning of it that was seen.
ghost use Rattle.std.specs.Prelude.{◌≡◌, ◌++◌, ◌∷◌, ◌<◌, [], length, IfSome, MatchBool};
ghost use mathlib.Core.List.{IsPrefix};
ghost use Rattle.generations.specs.Notices.{notice_of};
ghost use Rattle.generations.specs.Rules.{head_of};
ghost use Rattle.generations.specs.Beginnings.{Extends};
ghost use Rattle.generations.specs.Lawful.{IsLawful};

use crate::posting::{Entry, Posting};
use logbook::{Gain, Offer, Opening, Plain, Play, Rule, Seen, Start, Word};
use requests::SESSIONS;
use std::marker::Model;

/// More postings than any board has.
pub(crate) const MOST_POSTINGS: u64 = 1 << 62;

/// The rule of the book.
pub struct OneList;

impl Rule<Entry, u64> for OneList {
    ghost use Rattle.std.specs.Prelude.{[]};
    ghost use base.Fml.{ftrue};
    ghost use Rattle.generations.specs.Rules.{IsCounted};

    ghost holds = { λ cells log. IsCounted cells log };

    ghost first = { [] };

    ghost hinted = { λ n log. Unit {0} };

    ghost shows = { λ log. [] };

    ghost keeps = { λ names log. ftrue };

    ghost moves = { λ ask before after answer. Unit {0} };
}

/// Callers trade nothing.
pub struct NoTrade;

impl Gain<Entry, u64> for NoTrade {
    ghost use base.Fml.{ftrue};

    ghost after = { λ names about answer. ftrue };
}

/// A step that adds a notice.
pub struct Append;

impl Play<Entry, u64> for Append {
    ghost use Rattle.generations.specs.Rules.{Appends};

    ghost then = { Appends };
}

/// What the step asks for: what the posting says.
impl Plain<Posting, Entry, u64> for Append {
    ghost use Rattle.std.specs.Prelude.{None};
    ghost use Rattle.generations.specs.Entries.{entry_of};

    ghost ask = { entry_of };

    ghost state = { λ posting. None };
}

/// Where the sessions' tickets begin, and the count.
#[derive(Drop)]
struct Terms {
    starts: [u64; SESSIONS],
    count: u64,
}

/// A book begins with them.
struct Opens;

impl Opening<Terms, Entry> for Opens {
    ghost use Rattle.std.specs.Prelude.{◌∷◌, []};
    ghost use Rattle.generations.specs.declared.posting.Entry.TheVariants.{Opened};

    ghost log = { λ words terms. Opened terms.starts terms.count ∷ [] };
}

/// The word that holds the length of the list.
#[derive(Drop)]
pub struct Head {
    pub word: Word<Entry, u64, OneList>,
    pub ghost head_is: { word ≡ head_of word.book },
}

/// A beginning of the list of notices that was seen.
#[derive(Drop)]
pub struct History {
    postings: u64,
    seen: Seen<Entry, u64, OneList>,
}

impl Model for History {
    ghost use Rattle.generations.specs.Beginnings.{Beginning};
    ghost use Rattle.generations.specs.Entries.{beginning, IsReached};

    ghost Value = { Beginning };

    ghost view = { λ h. beginning h.seen.book h.seen.log };

    ghost invariant = { λ h. IsReached h.postings h.seen.log };
}

/// A new book, with no notice.
pub(crate) fn open(starts: &[u64; SESSIONS], count: u64) -> (Head, History)
    ensures log { result.1.log ≡ [] }
    ensures starts { result.1.opening.starts ≡ starts.now }
    ensures count { result.1.opening.count ≡ count }
    ensures book { result.0.word.book ≡ result.1.opening.book }
{
    let terms = Terms {
        starts: *starts,
        count,
    };
    let (seen, mut pens) = Seen::open_row::<Terms, Opens>(&terms, Start::alone(), 1);
    let word = Word::tracked(0, &mut pens.take());
    (Head { word }, History { postings: 0, seen })
}

impl History {
    /// How many notices it has. They are lawful: a history is a beginning of a board's one list.
    pub fn len(&self) -> u64
        ensures length { result ≡ length self.now.log }
        ensures lawful { IsLawful self.now.opening.starts self.now.opening.count self.now.log }
    {
        self.postings
    }

    /// The same history.
    pub fn again(&self) -> History
        ensures { result ≡ self.now }
    {
        History {
            postings: self.postings,
            seen: self.seen.again(),
        }
    }

    /// Whether the other one goes no further. All histories of a board are beginnings of one list.
    pub fn covers(&self, other: &History) -> bool
        requires { other.now.opening ≡ self.now.opening }
        ensures { MatchBool result (IsPrefix other.now.log self.now.log)
            (IsPrefix self.now.log other.now.log × (length self.now.log < length other.now.log)) }
    {
        let mut both = self.seen.again();
        both.learn(&other.seen);
        other.postings <= self.postings
    }

    /// The list with what one posting more says, unless the list is longer already.
    pub(crate) fn add(&self, head: &Head, posting: &Posting) -> Option<History>
        requires book { head.now.word.book ≡ self.now.opening.book }
        requires room { length self.now.log < MOST_POSTINGS }
        requires lawful { IsLawful self.now.opening.starts self.now.opening.count
            (self.now.log ++ notice_of posting.now ∷ []) }
        ensures { IfSome result (λ h. Extends self.now (notice_of posting.now) h) }
    {
        let mut seen = self.seen.again();
        let mut offer: Offer<Entry, u64, OneList, NoTrade> = seen.plain::<NoTrade, Posting, Append>(
            posting,
        );
        let mut pen = seen.no_pen();
        let postings = self.postings;
        let found = head
            .word
            .compare_exchange::<Append, NoTrade>(
                postings,
                postings + 1,
                &mut seen,
                &mut offer,
                &mut pen,
            );
        if found != postings {
            return None;
        }
        Some(History {
            postings: postings + 1,
            seen,
        })
    }
}
