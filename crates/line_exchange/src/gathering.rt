// The caller's end of a script's service: it gathers the answers, and prints them at the end.
ghost use Rattle.std.specs.Prelude.{◌≡◌, ◌≢◌, ◌++◌, [], IfSome, None, OnOk, Some};
ghost use Rattle.std.specs.String.{string_bytes};
ghost use Rattle.command_output.specs.Lines.{line};
ghost use Rattle.live_lines.specs.Answers.{script_text};
ghost use Rattle.line_exchange.specs.Ends.{IsFinish, fault_of};
ghost use Rattle.line_exchange.specs.Gathers.{HasText, PrintsAtEnd};

use crate::answer_writer::{AnswerWriter, print_text};
use crate::console::Console;
use crate::exchange::LineQueues;
use crate::line_fault::LineFault;
use crate::messages::{Answered, Stream};
use crate::printed::Printed;
use crate::served::Served;
use crate::tally::Tally;
use command_output::Fault;
use live_lines::Answer;
use packet_ways::BoardName;
use std::alloc::{AllocError, Global};
use std::sync::Wait;

/// What gathers the answers to a script, and prints them at its end. No fault is told: who has the gatherer back knows it.
#[derive(Drop)]
pub struct Gatherer<'a, O> {
    pub alloc: Global,
    // The lines of the answers.
    pub text: String,
    pub out: &'a mut O,
}

// Adds the line that a script has of an answer.
fn push_line(alloc: Global, text: &mut String, answer: &Answer) -> Result<(), AllocError>
    ensures { OnOk result (string_bytes text.new ≡ string_bytes text.old ++ line (script_text answer.now)) }
{
    answer.push_script_text(alloc, text)?;
    text.push('\n')
}

// The answer to a line. While it isn't there, a lot of answers is awaited: nobody reads them before the end. None where no answer comes any
// more.
fn next<J: Stream, B: BoardName, R: Wait>(
    rt: &R,
    exchange: &LineQueues<J, B>,
    place: u64,
) -> Option<Answered<J, B>>
    ensures { IfSome result (λ answered. answered.place ≡ place) }
{
    if let Some(answered) = exchange.answers.try_take(rt, place) {
        return Some(answered);
    }
    exchange.answers.await_lot(rt);
    exchange.answers.take(rt, place)
}

// Takes the answers in the order of their lines, until none comes any more, or one can't be kept, and adds their lines.
#[tactic(auto, using(crate::proofs::SaidLines::none_gathered, crate::proofs::SaidLines::one_gathered))]
fn gather_each<J: Stream, B: BoardName, R: Wait>(
    rt: &R,
    alloc: Global,
    exchange: &LineQueues<J, B>,
    text: &mut String,
) -> Printed
    requires { string_bytes text.old ≡ [] }
    ensures text { result.end ≡ None
        → HasText result.tally J.input J.editors (string_bytes text.new) }
    ensures unbroken { result.end ≢ Some LineFault.Failed }
    ensures opening { result.tally.known.opening ≡ B.opening }
    ensures book { result.tally.lines.book ≡ J.book }
{
    let mut tally = Tally::new(
        exchange.known.again(),
        &exchange.starts,
        exchange.book.begin(),
    );
    for _ in rt.forever() {
        let Some(answered) = next(rt, exchange, tally.count) else {
            return Printed { tally, end: None };
        };
        let answered = tally.filled(answered, exchange.read_behind(tally.count));
        let Some(()) = tally.keep(&answered) else {
            return Printed {
                tally,
                end: Some(LineFault::Internal),
            };
        };
        match push_line(alloc, text, &answered.answer) {
            Ok(()) => {}
            Err(_) => return Printed {
                tally,
                end: Some(LineFault::Memory),
            },
        }
        exchange.print_to(tally.count);
    }
    Printed { tally, end: None }
}

// Takes the answers in the order of their lines, until none comes any more, and makes their lines.
fn gather_all<J: Stream, B: BoardName, R: Wait>(
    rt: &R,
    alloc: Global,
    exchange: &LineQueues<J, B>,
) -> (Printed, String)
    ensures text { result.0.end ≡ None
        → HasText result.0.tally J.input J.editors (string_bytes result.1) }
    ensures unbroken { result.0.end ≢ Some LineFault.Failed }
    ensures opening { result.0.tally.known.opening ≡ B.opening }
    ensures book { result.0.tally.lines.book ≡ J.book }
{
    let mut text = String::new(alloc);
    let printed = gather_each(rt, alloc, exchange, &mut text);
    exchange.shut(rt);
    exchange.end(rt);
    (printed, text)
}

// Prints the text, unless there is a fault.
fn printed_or<O: AnswerWriter>(out: &mut O, text: &str, fault: Option<Fault>) -> Served
    ensures printed { PrintsAtEnd O.AnswerWriter text.now out.old out.new fault result }
    ensures untouched { IfSome (fault_of result) (λ fault. fault ≢ Fault.Output → out.new ≡ out.old) }
    ensures fault { IsFinish fault result }
{
    match fault {
        Some(fault) => Served::Untold(fault),
        None => match print_text(out, text) {
            Ok(()) => Served::Printed,
            Err(_) => Served::Untold(Fault::Output),
        },
    }
}

impl<'a, J: Stream, O: AnswerWriter> Console<J> for Gatherer<'a, O> {
    ghost use Rattle.std.specs.Prelude.{◌≡◌, ◌≢◌, IfSome, None, Some};
    ghost use Rattle.std.specs.String.{string_bytes};
    ghost use Rattle.command_output.specs.declared.fault.Fault.TheVariants.{Output};
    ghost use Rattle.line_exchange.specs.Ends.{fault_of};
    ghost use Rattle.line_exchange.specs.Gathers.{HasText, PrintsAtEnd};
    ghost use Rattle.line_exchange.specs.declared.line_fault.LineFault.TheVariants.{Failed};

    ghost prints = { λ c d p. (d.out.ghost_name ≡ c.out.ghost_name) × (d.out.now ≡ c.out.now) × (p.end ≢ Some Failed)
        × (p.end ≡ None → HasText p.tally J.input J.editors (string_bytes d.text)) };

    ghost finishes = { λ c d f s. (d.out.ghost_name ≡ c.out.ghost_name)
        × PrintsAtEnd O.AnswerWriter (string_bytes c.text) c.out.now d.out.now f s
        × IfSome (fault_of s) (λ fault. fault ≢ Output → d.out.now ≡ c.out.now) };

    fn print<B: BoardName, R: Wait>(self, rt: &R, exchange: &LineQueues<J, B>) -> (Self, Printed) {
        let Gatherer {
            alloc,
            text: _,
            out,
        } = self;
        let (printed, text) = gather_all(rt, alloc, exchange);
        (Gatherer { alloc, text, out }, printed)
    }

    fn finish(self, fault: Option<Fault>) -> (Self, Served) {
        let Gatherer { alloc, text, out } = self;
        let served = printed_or(out, text.as_str(), fault);
        (Gatherer { alloc, text, out }, served)
    }
}
