// What a world stores beside its desk.
ghost use Rattle.std.specs.Prelude.{◌≡◌, map, take, max, min, length, IfOk};
ghost use Rattle.requests.specs.Tickets.{last_of};
ghost use Rattle.generations.specs.Notices.{notice_of};
ghost use Rattle.generations.specs.Boards.{board_of};
ghost use Rattle.event_model.specs.Answers.{newest_number};
ghost use Rattle.interleave.specs.Stores.{newer, postings_of};

use event_model::Session;
use generations::{Board, Posting};
use requests::{Request, SESSIONS};
use schemes::Packet;
use std::alloc::AllocError;

/// A packet's way: where it was sent from and to, the nodes that it has visited, where it stands, what is left of it, and whether it
/// is still there.
#[derive(Drop)]
pub struct Way {
    pub from: u16,
    pub to: u16,
    pub visited: Vec<u16>,
    pub at: u16,
    pub packet: Packet,
    pub there: bool,
}

/// What a world stores beside its desk.
#[derive(Drop)]
pub struct Stored {
    /// The last ticket of each session, as it was opened.
    pub starts: [u64; SESSIONS],
    /// The count of accepted changes, as it was opened.
    pub start: u64,
    /// How many requests the queue holds at most.
    pub capacity: usize,
    pub sessions: Vec<Session>,
    /// All requests that were let in, in order. The first `taken` of them left the queue, and the first `done` of these are settled.
    pub asked: Vec<Request>,
    pub taken: usize,
    pub done: usize,
    /// The groups that were given to a commit, each from one place of the requests up to another.
    pub groups: Vec<(usize, usize)>,
    pub postings: Vec<Posting>,
    /// How many postings the forwarder has seen.
    pub seen: usize,
    pub ways: Vec<Way>,
}

impl Stored {
    /// Where a session's tickets begin.
    pub(crate) fn start_of(&self, session: u8) -> u64
        ensures { result ≡ last_of self.now.starts session }
    {
        match self.starts.get(session as usize) {
            Some(ticket) => *ticket,
            None => 0,
        }
    }

    /// How many postings an actor has seen that has seen some and looks at so many.
    pub(crate) fn further(&self, seen: usize, at: usize) -> usize
        ensures { result ≡ max seen (min at (length (postings_of self.now))) }
    {
        seen.max(at.min(self.postings.len()))
    }

    /// The board after the first postings. It is refused where the owners of a scheme can't be counted.
    pub(crate) fn board(&self, seen: usize) -> Result<Board, AllocError>
        ensures { IfOk result (λ board.
            board ≡ board_of self.now.starts self.now.start (take seen (postings_of self.now))) }
    {
        let postings = self.postings.as_slice();
        if seen < postings.len() {
            board_after(&self.starts, self.start, &postings[..seen])
        } else {
            board_after(&self.starts, self.start, postings)
        }
    }

    /// The number of the newest generation.
    pub(crate) fn newest(&self) -> Option<u64>
        ensures { result ≡ newest_number (postings_of self.now) }
    {
        newest_in(self.postings.as_slice())
    }
}

// The board after these postings.
fn board_after(
    starts: &[u64; SESSIONS],
    start: u64,
    postings: &[Posting],
) -> Result<Board, AllocError>
    ensures { IfOk result (λ board. board ≡ board_of starts.now start (map notice_of postings.now)) }
{
    let mut board = Board::new(starts, start);
    for posting in postings {
        board.fold(posting)?;
    }
    Ok(board)
}

// The number of the newest generation among these postings.
fn newest_in(postings: &[Posting]) -> Option<u64>
    ensures { result ≡ newest_number (map notice_of postings.now) }
{
    let mut newest = None;
    for posting in postings {
        newest = number_or(newest, posting);
    }
    newest
}

// The number of a generation, or the one before it.
fn number_or(newest: Option<u64>, posting: &Posting) -> Option<u64>
    ensures { result ≡ newer newest (notice_of posting.now) }
{
    match posting {
        Posting::Marks(_) | Posting::Down => newest,
        Posting::Generation { number, .. } => Some(*number),
    }
}
