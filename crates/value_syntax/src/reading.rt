// Reading a script.
ghost use Rattle.std.specs.Prelude.{◌≡◌, ◌==◌, ◌<◌, ◌^◌, ℕ, List, All, IfOk, decimal, map};
ghost use Rattle.std.specs.List.{slice_split};
ghost use Rattle.graph_edits.specs.declared.edits.Op.{Op};
ghost use Rattle.value_syntax.specs.OpText.{Fits, op_text};
ghost use Rattle.value_syntax.specs.declared.line.ScriptLine.{ScriptLine};
ghost use Rattle.value_syntax.specs.Reading.{AreLines, IfRead, Reads, ReadsList, texts_of};
ghost use Rattle.value_syntax.specs.Scripts.{AreFit, AreOfSessions, IsChange, IsEdit, IsLine, IsWritten, MayStand, Script, lines_of, route_words, words_of};

use crate::line::ScriptLine;
use crate::op_words::{node, number, op};
use graph_edits::{Change, Op};
use std::alloc::{AllocError, Global};

// The words of a line.
fn words_in<'a>(alloc: Global, text: &'a str) -> Result<Vec<&'a str>, AllocError>
    ensures { IfOk result (λ words. texts_of words.items ≡ words_of text.entry.now) }
{
    text.split(' ').collect(alloc)
}

// What stands between the line feeds of a text, in front of them and behind.
fn parts_in<'a>(alloc: Global, text: &'a str) -> Result<Vec<&'a str>, AllocError>
    ensures { IfOk result (λ parts. texts_of parts.items ≡ slice_split (λ b. b == 10) text.entry.now) }
{
    text.split('\n').collect(alloc)
}

/// The lines of a text: what stands between the line feeds. Behind the last feed there may be nothing.
pub fn lines_in<'a>(alloc: Global, text: &'a str) -> Result<Vec<&'a str>, AllocError>
    ensures { IfOk result (λ lines. texts_of lines.items ≡ lines_of text.entry.now) }
{
    let mut lines = parts_in(alloc, text)?;
    let Some(last) = lines.pop() else {
        return Ok(lines);
    };
    if !last.is_empty() {
        lines.push(last)?;
    }
    Ok(lines)
}

// Each word as an op.
fn ops_in(alloc: Global, words: &[&str]) -> Result<Option<Vec<Op>>, AllocError>
    ensures found { IfRead result (λ ops. (map op_text ops.items ≡ texts_of words.now) × All Fits ops.items) }
    ensures only { (ops : List Op) → All Fits ops → map op_text ops ≡ texts_of words.now → ReadsList result ops }
{
    let mut ops = Vec::new(alloc);
    for word in words {
        let Some(op) = op(alloc, *word)? else {
            return Ok(None);
        };
        ops.push(op)?;
    }
    Ok(Some(ops))
}

/// The change whose ops are these words. `None` where a word is no op, or there are none or too many.
pub fn change_in(alloc: Global, words: &[&str]) -> Result<Option<Change>, AllocError>
    ensures found { IfRead result (λ change. (map op_text change ≡ texts_of words.now) × IsChange change) }
    ensures only { (ops : List Op) → IsChange ops → map op_text ops ≡ texts_of words.now → Reads result ops }
{
    let Some(ops) = ops_in(alloc, words)? else {
        return Ok(None);
    };
    Ok(Change::new(&ops).ok())
}

// A session that has an editor.
fn session_in(alloc: Global, text: &str, editors: u8) -> Result<Option<u8>, AllocError>
    ensures found { IfRead result (λ session. (text.now ≡ decimal session) × (session < editors)) }
    ensures only { (session : ℕ) → session < editors → text.now ≡ decimal session → Reads result session }
{
    match number(alloc, text, u8::MAX as u64)? {
        Some(session) if session < editors as u64 => Ok(Some(session as u8)),
        _ => Ok(None),
    }
}

// A session that has an editor, and its change.
fn edit_in(alloc: Global, words: &[&str], editors: u8) -> Result<Option<(u8, Change)>, AllocError>
    ensures found { IfRead result (λ edit. IsEdit editors edit (texts_of words.now)) }
    ensures only { (edit : ℕ × List Op) → IsEdit editors edit (texts_of words.now) → Reads result edit }
{
    let Some((first, rest)) = words.split_first() else {
        return Ok(None);
    };
    let Some(session) = session_in(alloc, first, editors)? else {
        return Ok(None);
    };
    match change_in(alloc, rest)? {
        Some(change) => Ok(Some((session, change))),
        None => Ok(None),
    }
}

// The ends of a route.
fn route_in(alloc: Global, words: &[&str]) -> Result<Option<(u16, u16)>, AllocError>
    ensures found { IfRead result (λ ends. texts_of words.now ≡ route_words ends.0 ends.1) }
    ensures fits { IfRead result (λ ends. (ends.0 < 2 ^ 16) × (ends.1 < 2 ^ 16)) }
    ensures only { (a b : ℕ) → a < 2 ^ 16 → b < 2 ^ 16 → texts_of words.now ≡ route_words a b → Reads result (a, b) }
{
    let [word, from, to] = words else {
        return Ok(None);
    };
    if *word != "route" {
        return Ok(None);
    }
    let Some(from) = node(alloc, from)? else {
        return Ok(None);
    };
    match node(alloc, to)? {
        Some(to) => Ok(Some((from, to))),
        None => Ok(None),
    }
}

// One line.
fn line_in(alloc: Global, text: &str, editors: u8) -> Result<Option<ScriptLine>, AllocError>
    ensures found { IfRead result (λ line. IsLine text.now line × MayStand editors line) }
    ensures only { (line : ScriptLine) → MayStand editors line → IsLine text.now line → Reads result line }
{
    let words = words_in(alloc, text)?;
    if let Some((session, change)) = edit_in(alloc, &words, editors)? {
        return Ok(Some(ScriptLine::Edit { session, change }));
    }
    match route_in(alloc, &words)? {
        Some((from, to)) => Ok(Some(ScriptLine::Route { from, to })),
        None => Ok(None),
    }
}

// Each text as a line.
fn lines_read(
    alloc: Global,
    texts: &[&str],
    editors: u8,
) -> Result<Option<Vec<ScriptLine>>, AllocError>
    ensures found { IfRead result (λ script. AreLines texts.now script.items × AreFit editors script.items) }
    ensures only { (script : Script) → AreFit editors script → AreLines texts.now script → ReadsList result script }
{
    let mut script = Vec::new(alloc);
    for text in texts {
        let Some(line) = line_in(alloc, *text, editors)? else {
            return Ok(None);
        };
        script.push(line)?;
    }
    Ok(Some(script))
}

/// The lines of a script for so many editors, of the sessions from 0 on. `None` where a line is of neither form.
pub fn script(alloc: Global, text: &str, editors: u8) -> Result<Option<Vec<ScriptLine>>, AllocError>
    ensures found { IfRead result (λ script. IsWritten text.now script.items × AreFit editors script.items) }
    ensures only { (script : Script) → AreFit editors script → IsWritten text.now script → ReadsList result script }
    ensures sessions { IfRead result (λ script. AreOfSessions editors script.items) }
{
    let lines = lines_in(alloc, text)?;
    lines_read(alloc, &lines, editors)
}
