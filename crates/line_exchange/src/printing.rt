// The printer: it prints answers in the order of their lines.
ghost use Rattle.std.specs.Prelude.{◌≡◌, ◌≢◌, IfErr, IfOk, IfSome, OnErr, OnOk};
ghost use Rattle.std.specs.String.{string_bytes};
ghost use Rattle.std.specs.Io.KnownBytes.{Appends, Keeps};
ghost use Rattle.command_output.specs.Lines.{line};
ghost use Rattle.line_exchange.specs.Begun.{Begins};
ghost use Rattle.live_lines.specs.Answers.{answer_text};
ghost use Rattle.line_exchange.specs.Prints.{PrintsSo};

use crate::answer_writer::AnswerWriter;
use crate::exchange::LineQueues;
use crate::line_fault::LineFault;
use crate::messages::{Answered, Stream};
use crate::printed::Printed;
use crate::tally::Tally;
use live_lines::Answer;
use packet_ways::BoardName;
use std::alloc::{AllocError, Global};
use std::io;
use std::sync::Wait;

// An answer's line.
fn line_of(alloc: Global, answer: &Answer) -> Result<String, AllocError>
    ensures { IfOk result (λ text. string_bytes text ≡ line (answer_text answer.now)) }
{
    let mut text = answer.text(alloc)?;
    text.push('\n')?;
    Ok(text)
}

// Prints an answer's line.
fn print_one<O: AnswerWriter>(alloc: Global, answer: &Answer, out: &mut O) -> Result<(), LineFault>
    ensures ok { OnOk result (Appends (O.contents out.old) (O.contents out.new) (line (answer_text answer.now))) }
    ensures still { IfErr result (λ why. why ≢ LineFault.Failed → out.new ≡ out.old) }
    ensures begun { IfErr result (λ why. why ≡ LineFault.Failed
        → Begins (O.contents out.old) (O.contents out.new) (line (answer_text answer.now))) }
    ensures failed { IfErr result (λ why. why ≡ LineFault.Failed → O.has_failed out.new) }
{
    let Ok(text) = line_of(alloc, answer) else {
        return Err(LineFault::Memory);
    };
    match out.put(text.as_bytes()) {
        Ok(()) => Ok(()),
        Err(_) => Err(LineFault::Failed),
    }
}

// The answer to a line. While it isn't there, what was printed is flushed. None where no answer comes any more.
fn next<J: Stream, B: BoardName, O: AnswerWriter, R: Wait>(
    rt: &R,
    exchange: &LineQueues<J, B>,
    place: u64,
    out: &mut O,
) -> io::Result<Option<Answered<J, B>>>
    ensures place { IfOk result (λ o. IfSome o (λ answered. answered.place ≡ place)) }
    ensures keeps { Keeps (O.contents out.old) (O.contents out.new) }
    ensures failed { OnErr result (O.has_failed out.new) }
{
    if let Some(answered) = exchange.answers.try_take(rt, place) {
        return Ok(Some(answered));
    }
    match out.hand_on() {
        Ok(()) => Ok(exchange.answers.take(rt, place)),
        Err(error) => Err(error),
    }
}

// Prints the answers in the order of their lines, until none comes any more, or one can't be printed.
#[tactic(auto, using(crate::proofs::SaidLines::none_printed_by))]
fn print_each<J: Stream, B: BoardName, O: AnswerWriter, R: Wait>(
    rt: &R,
    alloc: Global,
    exchange: &LineQueues<J, B>,
    out: &mut O,
) -> Printed
    ensures printed { PrintsSo O.AnswerWriter J.input J.editors out.old out.new result }
    ensures opening { result.tally.known.opening ≡ B.opening }
    ensures book { result.tally.lines.book ≡ J.book }
{
    let mut tally = Tally::new(
        exchange.known.again(),
        &exchange.starts,
        exchange.book.begin(),
    );
    for _ in rt.forever() {
        let answered = match next(rt, exchange, tally.count, out) {
            Ok(Some(answered)) => answered,
            Ok(None) => return Printed { tally, end: None },
            Err(_) => return Printed {
                tally,
                end: Some(LineFault::Failed),
            },
        };
        let answered = tally.filled(answered, exchange.read_behind(tally.count));
        let Some(more) = tally.with(&answered) else {
            return Printed {
                tally,
                end: Some(LineFault::Internal),
            };
        };
        match print_one(alloc, &answered.answer, out) {
            Ok(()) => tally = more,
            Err(LineFault::Failed) => return Printed {
                tally: more,
                end: Some(LineFault::Failed),
            },
            Err(fault) => return Printed {
                tally,
                end: Some(fault),
            },
        }
        exchange.print_to(tally.count);
    }
    Printed { tally, end: None }
}

/// Prints the answers in the order of their lines, each as soon as it is there, until none comes any more. Where one can't be printed
/// no more lines are answered.
pub fn print_all<J: Stream, B: BoardName, O: AnswerWriter, R: Wait>(
    rt: &R,
    alloc: Global,
    exchange: &LineQueues<J, B>,
    out: &mut O,
) -> Printed
    ensures printed { PrintsSo O.AnswerWriter J.input J.editors out.old out.new result }
    ensures opening { result.tally.known.opening ≡ B.opening }
    ensures book { result.tally.lines.book ≡ J.book }
{
    let printed = print_each(rt, alloc, exchange, out);
    exchange.shut(rt);
    exchange.end(rt);
    printed
}
