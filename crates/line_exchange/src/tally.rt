// What is kept of the answers that were printed.
ghost use Rattle.std.specs.Prelude.{◌≡◌, IfSome, IsTrue};
ghost use Rattle.generations.specs.Beginnings.{GoesOn};
ghost use Rattle.live_lines.specs.Answers.{generation_gone};
ghost use Rattle.line_exchange.specs.PutLines.{NotesMore, no_puts};
ghost use Rattle.requests.specs.Tickets.{tickets_after};
ghost use Rattle.line_exchange.specs.Measured.{CountsMore, IsFilled, Tells, none_counted};
ghost use Rattle.line_exchange.specs.Tallies.{Adds, IsDropped, IsInTurn, IsReached, accepted_by, no_tickets};
ghost use Rattle.line_exchange.specs.Waits.{IsNoOlder};

use crate::messages::{Answered, Stream};
use forwarders::Refused;
use generations::{History, Verdict};
use live_lines::{Answer, KINDS};
use packet_ways::{BoardName, Carried};
use put_lines::PutLines;
use requests::SESSIONS;

/// What is kept of the answers that were printed, to judge the next one by.
#[derive(Drop)]
pub struct Tally {
    /// How many there were.
    pub count: u64,
    /// The greatest number of a change that was told as accepted.
    pub reached: u64,
    /// The newest generation that was waited for.
    pub awaited: u64,
    /// The last ticket that was told as a verdict, of each session.
    pub tickets: [u64; SESSIONS],
    /// The last ticket that was told as accepted, of each session, or where its tickets start.
    pub accepted: [u64; SESSIONS],
    /// How many answers of each kind there were.
    pub counted: [u64; KINDS],
    /// How many verdicts were told, of each session.
    pub puts: [u64; SESSIONS],
    /// What editors noted of their lines.
    pub lines: PutLines,
    /// What they know of the list of postings.
    pub known: History,
}

// Of two histories of one board the one that goes further.
#[tactic(auto, using(crate::proofs::Further::same_goes, crate::proofs::Further::longer_goes, crate::proofs::Further::longer_on))]
fn furthest(known: &History, other: &History) -> History
    requires { other.now.opening ≡ known.now.opening }
    ensures on { GoesOn known.now result }
    ensures covers { GoesOn other.now result }
{
    if known.covers(other) {
        known.again()
    } else {
        other.again()
    }
}

// How far answers reach, with one more. None where that waited for less, or is a backup of less.
fn reached_with(reached: u64, answer: &Answer) -> Option<u64>
    ensures { IfSome result (IsReached reached answer.now) }
{
    match answer {
        Answer::Settled(mark) => match mark.verdict {
            Verdict::Accepted { count } => Some(reached.max(count)),
            Verdict::Refused { op: _, code: _ } => Some(reached),
        },
        Answer::Waited { generation } if *generation < reached => None,
        Answer::BackedUp { count } if *count < reached => None,
        _ => Some(reached),
    }
}

// The newest generation that was waited for, with an answer more. None where that goes by an older one.
fn awaited_with(awaited: u64, answer: &Answer) -> Option<u64>
    ensures { IfSome result (IsNoOlder awaited answer.now) }
{
    match answer {
        Answer::Waited { generation } => Some(awaited.max(*generation)),
        Answer::Way(Carried::Along { generation, .. }) if *generation < awaited => None,
        Answer::Way(Carried::Unreachable { generation }) if *generation < awaited => None,
        Answer::Told(address) if address.generation < awaited => None,
        _ => Some(awaited),
    }
}

// Keeps the ticket of a verdict as the last one of its session. None where it isn't behind that.
#[tactic(auto, using(crate::proofs::SaidLines::in_turn_more))]
fn keep_ticket(tickets: &mut [u64; SESSIONS], answer: &Answer) -> Option<()>
    ensures { IfSome result (λ _. IsInTurn tickets.old answer.now tickets.new) }
{
    match answer {
        Answer::Settled(mark) => {
            let session = mark.session as usize;
            if session >= SESSIONS || mark.ticket <= tickets[session] {
                return None;
            }
            tickets[session] = mark.ticket;
            Some(())
        }
        _ => Some(()),
    }
}

// Keeps a ticket that was accepted as the last one of its session. None where the answer is of no session.
fn keep_accepted(accepted: &mut [u64; SESSIONS], answer: &Answer) -> Option<()>
    ensures { IfSome result (λ _. accepted.new ≡ tickets_after accepted.old (accepted_by answer.now)) }
{
    match answer {
        Answer::Settled(mark) => match mark.verdict {
            Verdict::Accepted { count: _ } => {
                let session = mark.session as usize;
                if session >= SESSIONS {
                    return None;
                }
                accepted[session] = mark.ticket;
                Some(())
            }
            Verdict::Refused { op: _, code: _ } => Some(()),
        },
        _ => Some(()),
    }
}

// Whether an edit that put nothing is told so by the last tickets of its session, and `resume` the last one accepted.
fn is_dropped(accepted: &[u64; SESSIONS], tickets: &[u64; SESSIONS], answer: &Answer) -> bool
    ensures { IsTrue result → IsDropped accepted.now tickets.now answer.now }
{
    match answer {
        Answer::AlreadyIn { session, ticket } => {
            let session = *session as usize;
            session < SESSIONS && *ticket <= accepted[session]
        }
        Answer::RefusedBefore {
            session,
            ticket,
            ..
        } => {
            let session = *session as usize;
            session < SESSIONS && accepted[session] < *ticket && *ticket == tickets[session]
        }
        Answer::OldTicket { session, ticket } => {
            let session = *session as usize;
            session < SESSIONS && accepted[session] < *ticket && *ticket < tickets[session]
        }
        Answer::Resumed { session, ticket } => {
            let session = *session as usize;
            session < SESSIONS && *ticket == accepted[session]
        }
        _ => true,
    }
}

// Counts a verdict of its session, and learns what was noted of their lines. None where an editor didn't note that line as the next one
// of its session.
#[tactic(auto, using(crate::proofs::NotedLines::notes_one, crate::proofs::NotedLines::notes_none))]
fn keep_put<J: Stream, B: BoardName>(
    puts: &mut [u64; SESSIONS],
    lines: &mut PutLines,
    answered: &Answered<J, B>,
) -> Option<()>
    requires { lines.old.book ≡ J.book }
    ensures more { IfSome result (λ _. NotesMore answered.now.place answered.now.answer puts.old puts.new lines.old lines.new) }
    ensures book { lines.new.book ≡ lines.old.book }
{
    match &answered.answer {
        Answer::Settled(mark) => {
            let Some(noted) = &answered.noted else {
                return None;
            };
            let line = &noted.line;
            if line.session != mark.session || line.ticket != mark.ticket {
                return None;
            }
            if line.place != answered.place {
                return None;
            }
            let session = mark.session as usize;
            if session >= SESSIONS || noted.number != puts[session] {
                return None;
            }
            let next = noted.number.checked_add(1)?;
            puts[session] = next;
            *lines = lines.learn(&noted.lines);
            Some(())
        }
        _ => Some(()),
    }
}

// Counts an answer of its kind. None where there are too many.
fn count_kind(counted: &mut [u64; KINDS], answer: &Answer) -> Option<()>
    ensures { IfSome result (λ _. CountsMore answer.now counted.old counted.new) }
{
    let place = answer.kind().place();
    counted[place] = counted[place].checked_add(1)?;
    Some(())
}

// Whether these know all that was known before, where they tell that a generation is gone.
#[tactic(auto, using(crate::proofs::Further::longer_on))]
fn knows_all(known: &History, seen: &History, answer: &Answer) -> bool
    requires { seen.now.opening ≡ known.now.opening }
    ensures { IsTrue result → answer.now ≡ generation_gone → GoesOn known.now seen.now }
{
    match answer {
        Answer::NotCarried(Refused::GenerationGone) => seen.covers(known),
        _ => true,
    }
}

impl Tally {
    /// No answer yet.
    pub fn new(known: History, starts: &[u64; SESSIONS], lines: PutLines) -> Tally
        ensures count { result.count ≡ 0 }
        ensures tickets { result.tickets ≡ no_tickets }
        ensures accepted { result.accepted ≡ starts.now }
        ensures counted { result.counted ≡ none_counted }
        ensures puts { result.puts ≡ no_puts }
        ensures lines { result.lines ≡ lines }
        ensures known { result.known ≡ known }
    {
        Tally {
            count: 0,
            reached: 0,
            awaited: 0,
            tickets: [0; SESSIONS],
            accepted: *starts,
            counted: [0; KINDS],
            puts: [0; SESSIONS],
            lines,
            known,
        }
    }

    // An answer that comes next, where a metrics line gets what is kept of the answers before it, and how many lines behind it were read.
    fn fill(&self, answer: Answer, waiting: u64) -> Answer
        ensures tells { Tells self.now.count self.now.counted result }
        ensures stays { IsFilled answer result }
    {
        match answer {
            Answer::Metrics(metrics) => {
                let mut metrics = metrics;
                metrics.answers = self.count;
                metrics.counted = self.counted;
                metrics.waiting = waiting;
                Answer::Metrics(metrics)
            }
            other => other,
        }
    }

    /// An answer that comes next, where a metrics line gets what is kept of the answers before it, and how many lines behind it were read.
    pub fn filled<J: Stream, B: BoardName>(
        &self,
        answered: Answered<J, B>,
        waiting: u64,
    ) -> Answered<J, B>
        ensures place { result.place ≡ answered.place }
        ensures known { result.known ≡ answered.known }
        ensures noted { result.noted ≡ answered.noted }
        ensures tells { Tells self.now.count self.now.counted result.answer }
        ensures stays { IsFilled answered.answer result.answer }
    {
        let Answered {
            place,
            answer,
            known,
            noted,
            of,
            at,
        } = answered;
        Answered {
            place,
            answer: self.fill(answer, waiting),
            known,
            noted,
            of,
            at,
        }
    }

    // The same again.
    fn again(&self) -> Tally
        ensures { result ≡ self.now }
    {
        Tally {
            count: self.count,
            reached: self.reached,
            awaited: self.awaited,
            tickets: self.tickets,
            accepted: self.accepted,
            counted: self.counted,
            puts: self.puts,
            lines: self.lines.again(),
            known: self.known.again(),
        }
    }

    /// Keeps an answer more. None where it doesn't go with those before it: then the tally is of no use any more.
    pub fn keep<J: Stream, B: BoardName>(&mut self, answered: &Answered<J, B>) -> Option<()>
        requires known { self.old.known.opening ≡ B.opening }
        requires lines { self.old.lines.book ≡ J.book }
        requires place { answered.now.place ≡ self.old.count }
        requires tells { Tells self.old.count self.old.counted answered.now.answer }
        ensures adds { IfSome result (λ _. Adds self.old answered.now.known answered.now.answer self.new) }
        ensures opening { self.new.known.opening ≡ self.old.known.opening }
        ensures book { self.new.lines.book ≡ self.old.lines.book }
    {
        if !knows_all(&self.known, &answered.known, &answered.answer) {
            return None;
        }
        if !is_dropped(&self.accepted, &self.tickets, &answered.answer) {
            return None;
        }
        self.count = self.count.checked_add(1)?;
        self.reached = reached_with(self.reached, &answered.answer)?;
        self.awaited = awaited_with(self.awaited, &answered.answer)?;
        keep_ticket(&mut self.tickets, &answered.answer)?;
        keep_accepted(&mut self.accepted, &answered.answer)?;
        count_kind(&mut self.counted, &answered.answer)?;
        keep_put(&mut self.puts, &mut self.lines, answered)?;
        self.known = furthest(&self.known, &answered.known);
        Some(())
    }

    /// With an answer more. None where it doesn't go with those before it.
    pub fn with<J: Stream, B: BoardName>(&self, answered: &Answered<J, B>) -> Option<Tally>
        requires known { self.now.known.opening ≡ B.opening }
        requires lines { self.now.lines.book ≡ J.book }
        requires place { answered.now.place ≡ self.now.count }
        requires tells { Tells self.now.count self.now.counted answered.now.answer }
        ensures { IfSome result (Adds self.now answered.now.known answered.now.answer) }
    {
        let mut more = self.again();
        more.keep(answered)?;
        Some(more)
    }
}
