// The caller's end: it prints, and tells how the service ended.
ghost use Rattle.std.specs.Prelude.{◌≡◌};
ghost use Rattle.line_exchange.specs.Ends.{TellsEnd, fault_of};

use crate::answer_writer::AnswerWriter;
use crate::exchange::LineQueues;
use crate::messages::Stream;
use crate::printed::Printed;
use crate::printing::print_all;
use crate::served::Served;
use command_output::{Fault, FaultWriter};
use packet_ways::BoardName;
use std::alloc::Global;
use std::sync::Wait;

/// What takes the answers, prints them, and tells the end. The contract of a scope says nothing of a `&mut` that its closure holds, so the
/// closure holds a value of such a type, and hands it back. `J` names the lines that are answered.
pub trait Console<J: Stream> {
    ghost use Rattle.std.specs.Prelude.{◌≡◌, Option};
    ghost use Rattle.command_output.specs.declared.fault.Fault.{Fault};
    ghost use Rattle.line_exchange.specs.Ends.{IsFinish};
    ghost use Rattle.line_exchange.specs.declared.printed.Printed.{Printed};
    ghost use Rattle.line_exchange.specs.declared.served.Served.{Served};

    ghost prints: { Self → Self → Printed → Type 0 };

    ghost finishes: { Self → Self → Option Fault → Served → Type 0 };

    /// Takes the answers in the order of their lines, until none comes any more. `B` names the board at which they were given.
    fn print<B: BoardName, R: Wait>(self, rt: &R, exchange: &LineQueues<J, B>) -> (Self, Printed)
        ensures prints { prints self result.0 result.1 }
        ensures opening { result.1.tally.known.opening ≡ B.opening }
        ensures book { result.1.tally.lines.book ≡ J.book };

    /// Tells the fault, where there is one. Without one it may still meet that its output fails.
    fn finish(self, fault: Option<Fault>) -> (Self, Served)
        ensures finishes { finishes self result.0 fault result.1 }
        ensures fault { IsFinish fault result.1 };
}

/// A writer of answers and one of faults, each lent for a time of its own: so what each holds is known once it comes back.
#[derive(Drop)]
pub struct Terminal<'a, 'b, O, E> {
    pub alloc: Global,
    pub out: &'a mut O,
    pub err: &'b mut E,
}

/// Tells a fault, where there is one.
pub fn told<E: FaultWriter>(err: &mut E, fault: Option<Fault>) -> Served
    ensures told { TellsEnd E.contents E.has_failed err.old err.new result }
    ensures fault { fault_of result ≡ fault }
{
    match fault {
        Some(fault) => match err.tell(fault) {
            Ok(()) => Served::Told(fault),
            Err(_) => Served::Untold(fault),
        },
        None => Served::Printed,
    }
}

impl<'a, 'b, J: Stream, O: AnswerWriter, E: FaultWriter> Console<J> for Terminal<'a, 'b, O, E> {
    ghost use Rattle.std.specs.Prelude.{◌≡◌};
    ghost use Rattle.line_exchange.specs.Prints.{PrintsSo};
    ghost use Rattle.line_exchange.specs.Ends.{TellsEnd};

    ghost prints = { λ c d p. (d.out.ghost_name ≡ c.out.ghost_name) × (d.err.ghost_name ≡ c.err.ghost_name) × (d.err.now ≡ c.err.now)
        × PrintsSo O.AnswerWriter J.input J.editors c.out.now d.out.now p };

    ghost finishes = { λ c d f s. (d.out.ghost_name ≡ c.out.ghost_name) × (d.err.ghost_name ≡ c.err.ghost_name) × (d.out.now ≡ c.out.now)
        × TellsEnd E.contents E.has_failed c.err.now d.err.now s };

    fn print<B: BoardName, R: Wait>(self, rt: &R, exchange: &LineQueues<J, B>) -> (Self, Printed) {
        let Terminal { alloc, out, err } = self;
        let printed = print_all(rt, alloc, exchange, out);
        (Terminal { alloc, out, err }, printed)
    }

    fn finish(self, fault: Option<Fault>) -> (Self, Served) {
        let Terminal { alloc, out, err } = self;
        let served = told(err, fault);
        (Terminal { alloc, out, err }, served)
    }
}
