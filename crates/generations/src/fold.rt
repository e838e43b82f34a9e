// The board as a plain value.
ghost use Rattle.std.specs.Prelude.{◌≡◌, ◌∷◌, ◌++◌, [], fold, map, Some, MatchResult};
ghost use Rattle.requests.specs.Tickets.{last_of};
ghost use Rattle.generations.specs.Shelves.{plain, newest};
ghost use Rattle.generations.specs.Notices.{notice_of};
ghost use Rattle.generations.specs.Boards.{after, fresh, marked, accepting, counting, mark_of};

use crate::posting::{Mark, Posting, Verdict};
use arrayvec::ArrayVec;
use requests::SESSIONS;
use schemes::Scheme;
use std::alloc::{AllocError, Global};
use std::marker::Model;
use std::sync::Arc;

/// The most generations that stand on the shelf.
pub const MOST_SHELVED: usize = 4;

/// A generation on the shelf.
#[derive(Drop)]
pub struct Shelved {
    /// How many accepted changes made its graph.
    pub number: u64,
    pub scheme: Arc<Scheme, Global>,
}

/// What postings tell: for each session its last mark and its last accepted ticket, the count of accepted changes,
/// whether the device failed, and the newest generations.
#[derive(Drop)]
pub struct Board {
    marks: [Option<Mark>; SESSIONS],
    accepted: [u64; SESSIONS],
    count: u64,
    down: bool,
    shelf: ArrayVec<Option<Shelved>, MOST_SHELVED>,
}

impl Model for Board {
    ghost use Rattle.std.specs.Prelude.{map};
    ghost use Rattle.generations.specs.Boards.{BoardState};
    ghost use Rattle.generations.specs.Shelves.{plain};

    ghost Value = { BoardState };

    ghost view = { λ b. record { marks = b.marks; accepted = b.accepted; count = b.count; down = b.down; shelf = map plain b.shelf.items } };
}

impl Board {
    /// The board before any posting, where each session's tickets and the count of accepted changes begin here.
    pub fn new(starts: &[u64; SESSIONS], count: u64) -> Board
        ensures { result ≡ fresh starts.now count }
    {
        Board {
            marks: [None; SESSIONS],
            accepted: *starts,
            count,
            down: false,
            shelf: ArrayVec::new(),
        }
    }

    /// Takes in one posting more. It allocates nothing: a generation alone is refused, where its scheme has as many owners as can
    /// be counted, and then the board stays as it was.
    pub fn fold(&mut self, posting: &Posting) -> Result<(), AllocError>
        ensures { MatchResult result (λ _. self.new ≡ after self.old (notice_of posting.now))
            (λ _. self.new ≡ self.old) }
    {
        match posting {
            Posting::Marks(marks) => {
                note_marks(&mut self.marks, marks.as_slice());
                note_accepted(&mut self.accepted, marks.as_slice());
                self.count = count_after(self.count, marks.as_slice());
            }
            Posting::Down => self.down = true,
            Posting::Generation { number, scheme } => {
                let scheme = Arc::try_clone(scheme)?;
                put(
                    &mut self.shelf,
                    Shelved {
                        number: *number,
                        scheme,
                    },
                );
            }
        }
        Ok(())
    }

    /// The last mark of a session.
    pub fn mark(&self, session: u8) -> Option<Mark>
        ensures { result ≡ mark_of self.now session }
    {
        match self.marks.get(session as usize) {
            Some(mark) => *mark,
            None => None,
        }
    }

    /// The last accepted ticket of a session, that of its start included. A mark that refuses a later one doesn't hide it.
    pub fn accepted(&self, session: u8) -> u64
        ensures { result ≡ last_of self.now.accepted session }
    {
        match self.accepted.get(session as usize) {
            Some(ticket) => *ticket,
            None => 0,
        }
    }

    /// How many changes were accepted, those from before the board included.
    pub fn count(&self) -> u64
        ensures { result ≡ self.now.count }
    {
        self.count
    }

    /// Whether the device has failed.
    pub fn is_down(&self) -> bool
        ensures { result ≡ self.now.down }
    {
        self.down
    }

    /// The shelf: at most `MOST_SHELVED` generations, the oldest of these first. Each place is taken.
    pub fn shelf(&self) -> &[Option<Shelved>]
        ensures { map plain result.now ≡ self.now.shelf }
    {
        self.shelf.as_slice()
    }
}

// Sets the last mark of each session that has one here.
fn note_marks(marks: &mut [Option<Mark>], all: &[Mark])
    ensures { marks.new ≡ fold marked marks.old all.now }
{
    for mark in all {
        let place = mark.session as usize;
        if place < marks.len() {
            marks[place] = Some(*mark);
        }
    }
}

// Sets the last accepted ticket of each session that has one here.
fn note_accepted(accepted: &mut [u64], all: &[Mark])
    ensures { accepted.new ≡ fold accepting accepted.old all.now }
{
    for mark in all {
        note_verdict(accepted, mark);
    }
}

// Sets the last accepted ticket of the mark's session, if the mark accepts.
fn note_verdict(accepted: &mut [u64], mark: &Mark)
    ensures { accepted.new ≡ accepting accepted.old mark.now }
{
    let place = mark.session as usize;
    match mark.verdict {
        Verdict::Accepted { .. } if place < accepted.len() => accepted[place] = mark.ticket,
        _ => {}
    }
}

// The count that marks end at, from one before them.
fn count_after(count: u64, all: &[Mark]) -> u64
    ensures { result ≡ fold counting count all.now }
{
    let mut last = count;
    for mark in all {
        if let Verdict::Accepted { count } = mark.verdict {
            last = count;
        }
    }
    last
}

// Puts a generation behind the others, of which the oldest goes where the shelf is full.
fn put(shelf: &mut ArrayVec<Option<Shelved>, MOST_SHELVED>, next: Shelved)
    ensures { shelf.new.items ≡ newest (shelf.old.items ++ Some next ∷ []) }
{
    if shelf.is_full() {
        shelf.remove(0);
    }
    shelf.push(Some(next));
}
