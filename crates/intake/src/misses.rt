// How often an end of the queue found it full, or empty.
ghost use Rattle.std.specs.Prelude.{◌≡◌, [], MatchOption, MatchResult, IsNone, OnErr};
ghost use Rattle.std.specs.Arc.{arc_value};
ghost use Rattle.crossbeam_queue.specs.Fifo.{Pushes, Pops, Learns, Held};
ghost use Rattle.crossbeam_queue.specs.Passes.{view, IsPassOf, IsSamePass, ruled_capacity};
ghost use Rattle.intake.specs.Turns.{LetsCount};
ghost use Rattle.intake.specs.Ends.{CountsEmpty, CountsFull};

use crate::queue::View;
use crossbeam_queue::protocol::{Lesson, Outcome, Protocol, Split};
use crossbeam_queue::{Pass, RuledArrayQueue};
use requests::Request;
use std::alloc::Global;
use std::marker::Model;
use std::sync::{Arc, Wait};

// A pass goes on as it was, beside a new one.
struct Aside;

impl Split<View> for Aside {
    ghost use Rattle.intake.specs.Turns.{idle};

    ghost left = { λ v. v };

    ghost right = { λ v. idle };
}

// The queue was found full, or empty.
struct Missed;

impl Split<View> for Missed {
    ghost use Rattle.intake.specs.Turns.{missed, idle};

    ghost left = { missed };

    ghost right = { λ v. idle };
}

/// How often an end of a queue found it full, or empty. [`push`](Misses::push) and [`pop`](Misses::pop) alone raise the number, and
/// only where the queue itself was so: what they say of it they say under any rule, so there is nobody else to have it from. It has
/// no bytes.
#[derive(Drop)]
pub(crate) struct Misses {
    pass: Pass<Request, View>,
}

impl Model for Misses {
    ghost use Rattle.intake.specs.Ends.{Missing};
    ghost use Rattle.intake.specs.Counts.{missing, IsMissing};

    ghost Value = { Missing };

    ghost view = { missing };

    ghost invariant = { IsMissing };
}

impl Misses {
    /// None yet.
    pub(crate) fn of<P: Protocol<Request, View>>(
        queue: &Arc<RuledArrayQueue<Request, View, P>, Global>,
        pass: &mut Pass<Request, View>,
    ) -> Misses
        requires pass { IsPassOf (arc_value queue.now) pass.old }
        requires rule { LetsCount P.holds }
        ensures same { IsSamePass pass.old pass.new × (view pass.new ≡ view pass.old) }
        ensures none { (result.queue ≡ pass.old.table_id) × (result.number ≡ 0) }
    {
        Misses {
            pass: queue.another::<Aside>(pass),
        }
    }

    /// Puts a request at the queue's end. It comes back where the queue was full, and that is counted.
    pub(crate) fn push<P, M, R>(
        &mut self,
        rt: &R,
        queue: &Arc<RuledArrayQueue<Request, View, P>, Global>,
        pass: &mut Pass<Request, View>,
        request: Request,
    ) -> Result<(), Request>
    where
        P: Protocol<Request, View>,
        M: Outcome<Request, View> + Lesson<Request, View>,
        R: Wait,
        requires pass { IsPassOf (arc_value queue.now) pass.old }
        requires own { self.old.queue ≡ pass.old.table_id }
        requires counts { LetsCount P.holds }
        requires pushes { Pushes P.holds (ruled_capacity (arc_value queue.now)) pass.old.id (view pass.old) request
            (M.then (view pass.old) request) }
        requires learns { Learns P.holds pass.old.id (view pass.old) (M.fact (view pass.old)) }
        ensures same { IsSamePass pass.old pass.new × (self.new.queue ≡ self.old.queue) }
        ensures put { MatchResult result (λ _. M.then (view pass.old) request (view pass.new))
            (λ back. (back ≡ request) × (view pass.new ≡ view pass.old)) }
        ensures full { CountsFull self.old.number self.new.number result }
        ensures held { OnErr result (Held pass.old.table_id.slots (M.fact (view pass.old))) }
    {
        let put = queue.push_as::<M, R>(rt, pass, request);
        if put.is_err() {
            let _counted = queue.another::<Missed>(&mut self.pass);
        }
        put
    }

    /// Takes the request at the front. Where there is none the queue was empty, and that is counted.
    pub(crate) fn pop<P, M, R>(
        &mut self,
        rt: &R,
        queue: &Arc<RuledArrayQueue<Request, View, P>, Global>,
        pass: &mut Pass<Request, View>,
    ) -> Option<Request>
    where
        P: Protocol<Request, View>,
        M: Outcome<Request, View> + Lesson<Request, View>,
        R: Wait,
        requires pass { IsPassOf (arc_value queue.now) pass.old }
        requires own { self.old.queue ≡ pass.old.table_id }
        requires counts { LetsCount P.holds }
        requires pops { Pops P.holds pass.old.id (view pass.old) (M.then (view pass.old)) }
        requires learns { Learns P.holds pass.old.id (view pass.old) (M.fact (view pass.old)) }
        ensures same { IsSamePass pass.old pass.new × (self.new.queue ≡ self.old.queue) }
        ensures taken { MatchOption result (view pass.new ≡ view pass.old) (λ r. M.then (view pass.old) r (view pass.new)) }
        ensures empty { CountsEmpty self.old.number self.new.number result }
        ensures held { IsNone result → Held 0 (M.fact (view pass.old)) }
    {
        let taken = queue.pop_as::<M, R>(rt, pass);
        if taken.is_none() {
            let _counted = queue.another::<Missed>(&mut self.pass);
        }
        taken
    }
}
