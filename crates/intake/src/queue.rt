// The two ends of the intake queue.
ghost use Rattle.std.specs.Prelude.{◌≡◌, List, ◌+◌, ◌<◌, ◌≤◌, ◌++◌, ◌∷◌, [], map, length, Some, MatchResult, MatchOption, IsNone, IfOk, IfSome, OnErr, OnOk};
ghost use Rattle.std.specs.Arc.{arc_value};
ghost use Rattle.crossbeam_queue.specs.Passes.{view, IsPassOf};
ghost use Rattle.requests.specs.Tickets.{worn_limit, last_of, Rises};
ghost use Rattle.requests.specs.Requests.{asked_by};
ghost use Rattle.requests.specs.declared.request.Request.{Request};
ghost use Rattle.intake.specs.Turns.{HasWaited, opener, of, last_or_start};
ghost use Rattle.intake.specs.Ends.{HasAll, AreAll, AreAllWithWaiting, CountsEmpty, CountsFull, HasTaken, IsSameSender, IsSameTaker, PutsOrGivesBack, seated, with_ended};

use crate::misses::Misses;
use crossbeam_queue::protocol::{Join, Lesson, Outcome, Protocol, Split};
use crossbeam_queue::{Pass, RuledArrayQueue};
use requests::{Request, SESSIONS};
use std::alloc::{AllocError, Global};
use std::collections::LinkedList;
use std::marker::Model;
use std::sync::{Arc, Wait};

// What a pass knows: an editor's session, where its tickets start, and what it put; or where all sessions start, for which of
// them there is an editor, and what the taker took. No value of it is made.
pub struct View {
    pub sends: bool,
    pub session: u8,
    pub start: u64,
    pub put: LinkedList<Request>,
    pub takes: bool,
    /// There is an editor for each session from `first` on, up to `made`.
    pub first: u64,
    pub made: u64,
    pub starts: LinkedList<u64>,
    /// The start of the next session, as far as it is told.
    pub next: u64,
    pub got: LinkedList<Request>,
    /// One for each time that the queue was found full, or empty: of a pass that only counts.
    pub misses: LinkedList<u8>,
}

/// Each editor's requests come out once, in its order.
pub struct InTurn;

impl Protocol<Request, View> for InTurn {
    ghost use Rattle.std.specs.Prelude.{[]};
    ghost use Rattle.intake.specs.Turns.{Holds, opener};

    ghost holds = { Holds };

    ghost first = { opener [] 0 };
}

struct Puts;

impl Outcome<Request, View> for Puts {
    ghost use Rattle.std.specs.Prelude.{◌≡◌, ◌++◌, ◌∷◌, []};
    ghost use Rattle.intake.specs.Turns.{editor};

    ghost then = { λ v r w. w ≡ editor v.session v.start (v.put ++ r ∷ []) };
}

// At a full queue the editor's requests are among what was taken and what waits.
impl Lesson<Request, View> for Puts {
    ghost use Rattle.std.specs.Prelude.{◌≡◌, ◌++◌, List};
    ghost use Rattle.requests.specs.declared.request.Request.{Request as Asked};
    ghost use Rattle.intake.specs.Turns.{of};

    ghost fact = { λ v items. (got : List Asked) × (v.put ≡ of v.session (got ++ items)) };
}

struct Takes;

impl Outcome<Request, View> for Takes {
    ghost use Rattle.std.specs.Prelude.{◌≡◌, ◌≤◌, ◌++◌, List, map};
    ghost use Rattle.requests.specs.declared.request.Request.{Request as Asked};
    ghost use Rattle.requests.specs.Tickets.{worn_limit, Rises};
    ghost use Rattle.requests.specs.Requests.{asked_by};
    ghost use Rattle.intake.specs.Turns.{taken, KnowsAll};

    ghost then = { λ v r w. (w ≡ taken v r) × Rises w.starts (map asked_by w.got) × (r.ticket ≤ worn_limit) × ((waits : List Asked) × KnowsAll w (w.got ++ waits)) };
}

// All that was put is what was taken and what waits.
impl Lesson<Request, View> for Takes {
    ghost use Rattle.std.specs.Prelude.{◌++◌};
    ghost use Rattle.intake.specs.Turns.{KnowsAll};

    ghost fact = { λ v items. KnowsAll v (v.got ++ items) };
}

// The start that is being told is twice as great.
struct Twice;

impl Split<View> for Twice {
    ghost use Rattle.std.specs.Prelude.{◌*◌};
    ghost use Rattle.intake.specs.Turns.{opener, idle};

    ghost left = { λ v. opener v.starts (2 * v.next) };

    ghost right = { λ v. idle };
}

// The start that is being told is greater by one.
struct OneMore;

impl Split<View> for OneMore {
    ghost use Rattle.std.specs.Prelude.{◌+◌};
    ghost use Rattle.intake.specs.Turns.{opener, idle};

    ghost left = { λ v. opener v.starts (v.next + 1) };

    ghost right = { λ v. idle };
}

// The start of one session more is told.
struct Starts;

impl Split<View> for Starts {
    ghost use Rattle.std.specs.Prelude.{◌++◌, ◌∷◌, []};
    ghost use Rattle.intake.specs.Turns.{opener, idle};

    ghost left = { λ v. opener (v.starts ++ v.next ∷ []) 0 };

    ghost right = { λ v. idle };
}

// One session more has no editor, before any has one.
struct Skips;

impl Split<View> for Skips {
    ghost use Rattle.std.specs.Prelude.{◌+◌};
    ghost use Rattle.intake.specs.Turns.{taker, idle};

    ghost left = { λ v. taker (v.made + 1) (v.made + 1) v.starts v.got };

    ghost right = { λ v. idle };
}

struct Seats;

impl Split<View> for Seats {
    ghost use Rattle.std.specs.Prelude.{◌+◌, []};
    ghost use Rattle.requests.specs.Tickets.{last_of};
    ghost use Rattle.intake.specs.Turns.{taker, editor};

    ghost left = { λ v. taker v.first (v.made + 1) v.starts v.got };

    ghost right = { λ v. editor v.made (last_of v.starts v.made) [] };
}

pub type Line = RuledArrayQueue<Request, View, InTurn>;

/// An editor's end of the queue. Contracts see it as its session, its start and the requests that it put.
#[derive(Drop)]
pub struct Sender {
    queue: Arc<Line, Global>,
    pass: Pass<Request, View>,
    misses: Misses,
    session: u8,
    start: u64,
}

impl Model for Sender {
    ghost use Rattle.intake.specs.Ends.{Sending};
    ghost use Rattle.intake.specs.Insides.{sender, IsSender};

    ghost Value = { Sending };

    ghost view = { sender };

    ghost invariant = { IsSender };
}

/// The taker's end of the queue. Contracts see it as the starts of the sessions and the requests that it took.
#[derive(Drop)]
pub struct Taker {
    queue: Arc<Line, Global>,
    pass: Pass<Request, View>,
    misses: Misses,
}

impl Model for Taker {
    ghost use Rattle.intake.specs.Ends.{Taking};
    ghost use Rattle.intake.specs.Insides.{receiver, IsTaker};

    ghost Value = { Taking };

    ghost view = { receiver };

    ghost invariant = { IsTaker };
}

impl Sender {
    /// Its session.
    pub(crate) fn session(&self) -> u8
        ensures { result ≡ self.now.session }
    {
        self.session
    }

    /// Where its session's tickets start.
    pub(crate) fn start(&self) -> u64
        ensures { result ≡ self.now.start }
    {
        self.start
    }

    /// Puts one request at the queue's end. It comes back where no place was free.
    pub(crate) fn put<R: Wait>(&mut self, rt: &R, request: Request) -> Result<(), Request>
        requires session { request.session ≡ self.old.session }
        requires ticket { last_or_start self.old.start self.old.put < request.ticket }
        requires within { request.ticket ≤ worn_limit }
        ensures same { IsSameSender self.old self.new }
        ensures put { PutsOrGivesBack self.old.put self.new.put request result }
        ensures full { CountsFull self.old.fulls self.new.fulls result }
        ensures waited { OnErr result (HasWaited self.old.queue self.old.session self.old.put) }
    {
        let queue = &self.queue;
        let pass = &mut self.pass;
        self.misses.push::<_, Puts, R>(rt, queue, pass, request)
    }
}

impl Taker {
    // Takes the request at the front.
    fn pop<R: Wait>(&mut self, rt: &R) -> Option<Request>
        ensures same { IsSameTaker self.old self.new }
        ensures empty { CountsEmpty self.old.empties self.new.empties result }
        ensures first { self.new.first ≡ self.old.first }
        ensures made { self.new.made ≡ self.old.made }
        ensures ended { self.new.ended ≡ self.old.ended }
        ensures got { MatchOption result (self.new.got ≡ self.old.got) (λ r. self.new.got ≡ self.old.got ++ r ∷ []) }
        ensures rises { Rises self.new.starts (map asked_by self.new.got) }
        ensures none_left { IsNone result → HasAll self.new.ended self.new.got }
        ensures all { MatchOption result (AreAll self.new self.new.got) (λ _. AreAllWithWaiting self.new) }
        ensures within { IfSome result (λ r. r.ticket ≤ worn_limit) }
    {
        let queue = &self.queue;
        let pass = &mut self.pass;
        self.misses.pop::<_, Takes, R>(rt, queue, pass)
    }

    /// Takes the request at the front. Where the queue was found empty there is none, and all that the editor submitted that was
    /// ended last has been taken.
    pub fn take<R: Wait>(&mut self, rt: &R) -> Option<Request>
        ensures same { IsSameTaker self.old self.new }
        ensures ended { self.new.ended ≡ self.old.ended }
        ensures got { MatchOption result (self.new.got ≡ self.old.got) (λ r. self.new.got ≡ self.old.got ++ r ∷ []) }
        ensures empty { CountsEmpty self.old.empties self.new.empties result }
        // All that was put is what was taken and some that wait, and there is an editor for the session of each.
        ensures taken { HasTaken self.old self.new }
        ensures rises { Rises self.new.starts (map asked_by self.new.got) }
        ensures none_left { IsNone result → HasAll self.new.ended self.new.got }
        ensures within { IfSome result (λ r. r.ticket ≤ worn_limit) }
    {
        self.pop(rt)
    }
}

// Tells the rule the start of the next session, from its highest digit down.
fn tell(queue: &Arc<Line, Global>, pass: &mut Pass<Request, View>, start: u64)
    requires pass { IsPassOf (arc_value queue.now) pass.old }
    requires view { view pass.old ≡ opener (view pass.old).starts 0 }
    ensures pass { IsPassOf (arc_value queue.now) pass.new × (pass.new.table_id ≡ pass.old.table_id) }
    ensures view { view pass.new ≡ opener (view pass.old).starts start }
{
    if start > 0 {
        tell(queue, pass, start / 2);
        let _doubled = queue.another::<Twice>(pass);
        if start % 2 == 1 {
            let _raised = queue.another::<OneMore>(pass);
        }
    }
}

// Tells the rule where each session starts.
fn tell_all(queue: &Arc<Line, Global>, pass: &mut Pass<Request, View>, starts: &[u64])
    requires pass { IsPassOf (arc_value queue.now) pass.old }
    requires view { view pass.old ≡ opener [] 0 }
    ensures pass { IsPassOf (arc_value queue.now) pass.new × (pass.new.table_id ≡ pass.old.table_id) }
    ensures view { view pass.new ≡ opener starts.now 0 }
{
    for start in starts {
        tell(queue, pass, *start);
        let _told = queue.another::<Starts>(pass);
    }
}

/// A queue of so many places, with its taker. The sessions' tickets start here.
pub(crate) fn open_queue(
    alloc: Global,
    capacity: usize,
    starts: &[u64; SESSIONS],
) -> Result<Taker, AllocError>
    requires { 0 < capacity }
    ensures starts { IfOk result (λ t. t.starts ≡ starts.now) }
    ensures made { IfOk result (λ t. (t.first ≡ 0) × (t.made ≡ 0)) }
    ensures got { IfOk result (λ t. t.got ≡ []) }
    ensures empties { IfOk result (λ t. t.empties ≡ 0) }
{
    let (line, mut pass) = Line::ruled(alloc, capacity)?;
    let queue = Arc::new(alloc, line)?;
    tell_all(&queue, &mut pass, starts);
    let misses = Misses::of(&queue, &mut pass);
    Ok(Taker {
        queue,
        pass,
        misses,
    })
}

impl Taker {
    /// The next session has no editor, as all before it.
    pub(crate) fn skip(&mut self)
        requires none { self.old.first ≡ self.old.made }
        ensures same { IsSameTaker self.old self.new }
        ensures took_none { (self.new.got ≡ self.old.got) × (self.new.empties ≡ self.old.empties) }
        ensures next { (self.new.first ≡ self.old.made + 1) × (self.new.made ≡ self.old.made + 1) }
    {
        let _skipped = self.queue.another::<Skips>(&mut self.pass);
    }

    /// The end of the editor of the next session.
    pub(crate) fn seat(&mut self, session: u8, start: u64) -> Result<Sender, AllocError>
        requires next { session ≡ self.old.made }
        requires ordered { self.old.first ≤ self.old.made }
        requires there { (session < SESSIONS) × (session < length self.old.starts) }
        requires start { start ≡ last_of self.old.starts session }
        ensures same { IsSameTaker self.old self.new }
        ensures took_none { (self.new.got ≡ self.old.got) × (self.new.empties ≡ self.old.empties) }
        ensures first { self.new.first ≡ self.old.first }
        ensures made { OnOk result (self.new.made ≡ self.old.made + 1) }
        ensures sender { IfOk result (λ e. e ≡ seated self.old.queue session start) }
    {
        let queue = Arc::try_clone(&self.queue)?;
        let mut pass = self.queue.another::<Seats>(&mut self.pass);
        let misses = Misses::of(&queue, &mut pass);
        Ok(Sender {
            queue,
            pass,
            misses,
            session,
            start,
        })
    }
}

struct Both;

impl Join<View> for Both {
    ghost use Rattle.intake.specs.Turns.{both, idle};

    ghost both = { both };

    ghost spent = { idle };
}

struct Compares;

impl Lesson<Request, View> for Compares {
    ghost use Rattle.std.specs.Prelude.{◌≡◌, ◌++◌};
    ghost use Rattle.intake.specs.Turns.{of};

    ghost fact = { λ v items. v.put ≡ of v.session (v.got ++ items) };
}

impl Taker {
    // Ends an editor's end: what was taken, followed by what waits, has just the requests that it put, in its order.
    pub(crate) fn close(&mut self, sender: Sender)
        requires { sender.queue ≡ self.old.queue }
        ensures same { self.new ≡ with_ended self.old sender.session sender.put }
        ensures whole { (waits : List Request) × (sender.put ≡ of sender.session (self.new.got ++ waits)) }
    {
        let Sender {
            queue: _,
            pass,
            misses: _,
            session: _,
            start: _,
        } = sender;
        self.queue.absorb::<Both>(&mut self.pass, pass);
        self.queue.learn_as::<Compares>(&mut self.pass);
    }
}
