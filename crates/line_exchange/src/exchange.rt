// Where threads find the lines that are theirs, and the printer the answers.
ghost use Rattle.std.specs.Prelude.{◌≡◌};

use crate::messages::{Answered, Ask, Stream};
use generations::History;
use mailboxes::{Mailbox, ReorderBuffer};
use packet_ways::BoardName;
use put_lines::{BlankBook, LineBook};
use requests::SESSIONS;
use std::alloc::{AllocError, Global};
use std::sync::Wait;
use std::sync::atomic::{AtomicU64, Ordering};
use std::time::Duration;

/// How many lines there are at most between the one that is read and the one that is printed.
pub const WINDOW: usize = 1_024;

/// A mailbox for each editor, for each forwarder, for the waiter and for tables, and the answers. It begins with the board that `B` names.
#[derive(Drop)]
pub struct LineQueues<J: Stream, B: BoardName> {
    pub sessions: Vec<Mailbox<Ask<J>>>,
    pub forwarders: Vec<Mailbox<Ask<J>>>,
    pub waiter: Mailbox<Ask<J>>,
    pub tables: Mailbox<Ask<J>>,
    pub answers: ReorderBuffer<Answered<J, B>>,
    // What was posted then.
    pub known: History,
    // Where the sessions' tickets start.
    pub starts: [u64; SESSIONS],
    // Where editors note which lines put requests.
    pub book: LineBook,
    // How many answers were printed, and no less than any place once none comes any more.
    printed: AtomicU64,
    // How many lines were read.
    read: AtomicU64,
    ghost named: { known.opening ≡ B.opening },
    ghost starts_are: { starts ≡ B.opening.starts },
    ghost book_is: { book.book ≡ J.book },
}

// So many mailboxes.
fn mailboxes<J: Stream>(alloc: Global, count: u8) -> Result<Vec<Mailbox<Ask<J>>>, AllocError> {
    let mut all = Vec::with_capacity(alloc, count as usize)?;
    for _ in 0..count {
        all.push(Mailbox::new(alloc))?;
    }
    Ok(all)
}

impl<J: Stream, B: BoardName> LineQueues<J, B> {
    /// One of so many editors and forwarders, empty.
    pub fn new(
        alloc: Global,
        editors: u8,
        forwarders: u8,
        known: History,
        starts: &[u64; SESSIONS],
        blank: BlankBook,
    ) -> Result<LineQueues<J, B>, AllocError>
        requires known { known.opening ≡ B.opening }
        requires starts { starts.now ≡ B.opening.starts }
        requires blank { blank.book ≡ J.book }
    {
        let sessions = mailboxes(alloc, editors)?;
        let forwarders = mailboxes(alloc, forwarders)?;
        let answers = ReorderBuffer::new(alloc, WINDOW)?;
        Ok(LineQueues {
            sessions,
            forwarders,
            waiter: Mailbox::new(alloc),
            tables: Mailbox::new(alloc),
            answers,
            known,
            starts: *starts,
            book: LineBook::new(alloc, blank)?,
            printed: AtomicU64::new(0),
            read: AtomicU64::new(0),
        })
    }

    /// No line comes any more. Those that wait are answered.
    pub fn close<R: Wait>(&self, rt: &R) {
        for mailbox in &self.sessions {
            mailbox.close(rt);
        }
        for mailbox in &self.forwarders {
            mailbox.close(rt);
        }
        self.waiter.close(rt);
        self.tables.close(rt);
    }

    /// No line comes any more, and those that wait are dropped.
    pub fn shut<R: Wait>(&self, rt: &R) {
        for mailbox in &self.sessions {
            mailbox.shut(rt);
        }
        for mailbox in &self.forwarders {
            mailbox.shut(rt);
        }
        self.waiter.shut(rt);
        self.tables.shut(rt);
    }

    /// So many lines were read.
    pub fn read_to(&self, count: u64) {
        self.read.store(count, Ordering::SeqCst);
    }

    /// How many lines behind a place were read.
    pub fn read_behind(&self, place: u64) -> u64 {
        let read = self.read.load(Ordering::SeqCst);
        read.saturating_sub(place.saturating_add(1))
    }

    /// So many answers were printed.
    pub fn print_to(&self, count: u64) {
        self.printed.store(count, Ordering::SeqCst);
    }

    /// Whether all answers before a place were printed, or none comes any more. Where not, it sleeps for a millisecond at most first.
    pub fn is_turn<R: Wait>(&self, rt: &R, place: u64) -> bool {
        let printed = self.printed.load(Ordering::SeqCst);
        if place <= printed {
            return true;
        }
        let low = (printed % (1 << 32)) as u32;
        self.printed.park_timeout(rt, low, Duration::from_millis(1));
        false
    }

    /// No answer comes any more.
    pub fn end<R: Wait>(&self, rt: &R) {
        self.answers.end(rt);
        self.print_to(u64::MAX);
    }
}
