// Reading a rehearsal.
ghost use Rattle.std.specs.Prelude.{◌≡◌, IfErr, IfOk};
ghost use Rattle.value_syntax.specs.Reading.{texts_of};
ghost use Rattle.value_syntax.specs.Scripts.{lines_of};
ghost use Rattle.rehearsal_syntax.specs.Said.{IsFirstRefused, SayRehearsal, bare, words_of};

use crate::line::RehearsalLine;
use crate::line_reading::{NotRead, line_in};
use crate::refused::LineRefused;
use crate::stage::Stage;
use std::alloc::{AllocError, Global};
use value_syntax::lines_in;

/// The lines of a rehearsal, or the first line of the text that isn't understood.
pub fn read_rehearsal(
    alloc: Global,
    text: &str,
) -> Result<Result<Vec<RehearsalLine>, LineRefused>, AllocError>
    ensures found { IfOk result (λ read. IfOk read (λ lines. SayRehearsal (lines_of text.now) lines.items)) }
    ensures refused { IfOk result (λ read. IfErr read (λ refused. IsFirstRefused (lines_of text.now) refused.number)) }
{
    let texts = lines_in(alloc, text)?;
    let mut lines = Vec::new(alloc);
    let mut stage = Stage::Empty;
    for index in 0..texts.len() {
        let words = words_in(alloc, texts[index])?;
        if words.is_empty() {
            continue;
        }
        let line = match line_in(alloc, stage, &words) {
            Ok(line) => line,
            Err(NotRead::Memory) => return Err(AllocError),
            Err(NotRead::Form(form)) => {
                let number = index + 1;
                return Ok(Err(LineRefused { number, form }));
            }
        };
        stage = stage.behind(&line);
        lines.push(line)?;
    }
    Ok(Ok(lines))
}

// The words of a line.
fn words_in<'a>(alloc: Global, text: &'a str) -> Result<Vec<&'a str>, AllocError>
    ensures { IfOk result (λ words. texts_of words.items ≡ words_of text.entry.now) }
{
    let parts = bare_of(text).split(' ');
    parts.filter(|part| !part.is_empty()).collect(alloc)
}

// A line without its comment.
fn bare_of<'a>(text: &'a str) -> &'a str
    ensures { result.now ≡ bare text.entry.now }
{
    match text.split_once('#') {
        Some((front, _)) => front,
        None => text,
    }
}
