// The lines of an input, as they come.
ghost use Rattle.std.specs.Prelude.{◌≡◌, ◌≢◌, ℕ, List, IfErr, IfOk, IfSome, None, is_some};
ghost use Rattle.input_lines.specs.Reading.{IsLineAt};
ghost use Rattle.line_exchange.specs.Inputs.{Input};
ghost use Rattle.line_exchange.specs.Reads.{AreReadOf, IsReadSo, MayFailSo};
ghost use Rattle.line_exchange.specs.Streams.{IsAskedBy};

use crate::line_fault::LineFault;
use crate::line_source::LineSource;
use crate::messages::{Ask, Stream};
use input_lines::{NextLine, next_line};
use live_lines::{Asked, asked_in};
use std::alloc::{AllocError, Global};
use std::io::{BufRead, Error, ErrorKind};
use std::marker::PhantomData;

/// The lines of an input, as they come, for so many editors.
#[derive(Drop)]
pub struct InputSource<S> {
    pub alloc: Global,
    pub editors: u8,
    pub input: S,
    // The line that was read last.
    pub line: Vec<u8>,
}

// What a line asks for, and nothing where there is none.
fn asked_of(
    alloc: Global,
    next: NextLine,
    line: &[u8],
    editors: u8,
) -> Result<Option<Asked>, AllocError>
    ensures asked { IfOk result (λ o. IfSome o (λ asked.
        (xs : List ℕ) (k : ℕ) → IsLineAt xs k next line.now → IsAskedBy xs editors k asked)) }
    ensures some { IfOk result (λ o. IfSome o (λ asked. next ≢ NextLine.End)) }
    ensures end { IfOk result (λ o. o ≡ None → next ≡ NextLine.End) }
{
    match next {
        NextLine::Line => Ok(Some(asked_in(alloc, line, editors)?)),
        NextLine::LongerLine => Ok(Some(Asked::NotUnderstood)),
        NextLine::End => Ok(None),
    }
}

// Why a line could not be read.
fn fault_of(error: &Error) -> LineFault {
    match error.kind() {
        ErrorKind::OutOfMemory => LineFault::Memory,
        _ => LineFault::Failed,
    }
}

#[tactic(auto, using(crate::proofs::ReadLines::read_may_fail))]
// Reads the next line. None where no line is left.
fn read_ask<J: Stream, S: BufRead>(
    alloc: Global,
    editors: u8,
    input: &mut S,
    line: &mut Vec<u8>,
    place: u64,
) -> Result<Option<Ask<J>>, LineFault>
    requires editors { editors ≡ J.editors }
    requires read { AreReadOf J.input place (S.remaining input.old) }
    ensures read { IfOk result (λ o. IsReadSo J.input place (is_some o) (S.remaining input.new)) }
    ensures failed { IfErr result (λ why. MayFailSo J.input why) }
{
    let next = match next_line(input, line) {
        Ok(next) => next,
        Err(error) => return Err(fault_of(&error)),
    };
    match asked_of(alloc, next, line, editors) {
        Ok(Some(asked)) => Ok(Some(Ask {
            place,
            asked,
            behind: 0,
            of: PhantomData,
        })),
        Ok(None) => Ok(None),
        Err(_) => Err(LineFault::Memory),
    }
}

impl<S> InputSource<S> {
    /// The lines of this input.
    pub fn new(alloc: Global, editors: u8, input: S) -> InputSource<S>
        ensures input { result.input ≡ input }
        ensures editors { result.editors ≡ editors }
    {
        InputSource {
            alloc,
            editors,
            input,
            line: Vec::new(alloc),
        }
    }
}

impl<J: Stream, S: BufRead> LineSource<J> for InputSource<S> {
    ghost use Rattle.std.specs.Prelude.{◌≡◌};
    ghost use Rattle.line_exchange.specs.Reads.{AreReadOf};

    ghost has_given = { λ source place. (source.editors ≡ J.editors) × AreReadOf J.input place (S.remaining source.input) };

    fn next_ask(&mut self, place: u64) -> Result<Option<Ask<J>>, LineFault> {
        read_ask(
            self.alloc,
            self.editors,
            &mut self.input,
            &mut self.line,
            place,
        )
    }
}
