// What a line asks for.
ghost use Rattle.std.specs.Prelude.{◌≡◌, ◌≢◌, ◌↔◌, ◌∷◌, ◌<◌, ◌^◌, [], ℕ, List, All, None, Option, IfOk, IsTrue, decimal, map};
ghost use Rattle.graph_edits.specs.declared.edits.Op.{Op};
ghost use Rattle.value_syntax.specs.OpText.{op_text};
ghost use Rattle.value_syntax.specs.Scripts.{IsChange};
ghost use Rattle.value_syntax.specs.Reading.{IfRead, Reads, ReadsPair, texts_of};
ghost use Rattle.live_lines.specs.declared.asked.Asked.{Asked};
ghost use Rattle.live_lines.specs.declared.words.Word.{Word};
ghost use Rattle.live_lines.specs.Lines.{AddressAsks, Asks, AsksBehind, AsksJust, BackupAsks, HopAsks, IsAskedIn, IsNamed, IsOp, IsTicket, LacksOps, LaunchAsks, NodeAsks, RouteAsks, TablesAsks, WordsAsk, ticket_word, without_return};

use crate::digits::{hop_of, launch_of};
use crate::words::{Word, is_folder, word_in, words_in};
use graph_edits::Change;
use packet_bytes::WireRefused;
use requests::WORN_LIMIT;
use schemes::{Address, Packet};
use std::alloc::{AllocError, Global};
use value_syntax::{change_in, node, number, op};

/// What a line asks for.
#[derive(PartialEq, Eq, Drop)]
pub enum Asked {
    /// A change of a session, under a ticket of its own or under the next one.
    Edit {
        /// Below the number of editors.
        session: u8,
        /// 1 to the greatest ticket, where one is named.
        ticket: Option<u64>,
        change: Change,
    },
    /// The last ticket of a session, which is below the number of editors.
    Resume {
        session: u8,
    },
    /// The way of a packet from a node to a node.
    Route {
        from: u16,
        to: u16,
    },
    /// Where a node is to be found.
    Address {
        node: u16,
    },
    /// The packet that a node sends to an address.
    Launch {
        from: u16,
        to: Address,
    },
    /// What a node does with a packet.
    Hop {
        at: u16,
        packet: Packet,
    },
    /// How much is done, and how much waits.
    State,
    /// That what was answered is in the newest generation.
    Wait,
    /// The tables of the newest generation, put into a folder.
    Tables {
        /// One byte or more, each above a blank.
        folder: String,
    },
    /// The accepted changes and their tickets, written to a new device.
    Backup {
        /// One byte or more, each above a blank.
        file: String,
    },
    /// What the service tells a monitor of itself.
    Metrics,
    /// What is to be launched or to hop has no spelling.
    Unread(WireRefused),
    /// Something of a session that has no editor.
    NoSession,
    /// An edit, in which a word in the place of an op isn't one.
    NotOps,
    /// Nothing that is known.
    NotUnderstood,
}

/// A session, as it is named in a line.
#[derive(Clone, Copy, Drop)]
enum Named {
    /// It has an editor.
    Edited(u8),
    /// It has none.
    Unedited,
}

/// A session, and whether it has an editor.
fn session_in(alloc: Global, text: &str, editors: u8) -> Result<Option<Named>, AllocError>
    ensures found { IfRead result (IsNamed text.now editors) }
    ensures only { IfOk result (λ o. o ≡ None → (session : ℕ) → session < 2 ^ 64 → text.now ≢ decimal session) }
{
    match number(alloc, text, u64::MAX)? {
        Some(session) if session < editors as u64 => Ok(Some(Named::Edited(session as u8))),
        Some(_) => Ok(Some(Named::Unedited)),
        None => Ok(None),
    }
}

/// A ticket, or `-` for the next one.
fn ticket_in(alloc: Global, text: &str) -> Result<Option<Option<u64>>, AllocError>
    ensures found { IfRead result (λ ticket. (text.now ≡ ticket_word ticket) × IsTicket ticket) }
    ensures only { (ticket : Option ℕ) → IsTicket ticket → text.now ≡ ticket_word ticket → Reads result ticket }
{
    if text == "-" {
        return Ok(Some(None));
    }
    match number(alloc, text, WORN_LIMIT)? {
        Some(0) | None => Ok(None),
        ticket => Ok(Some(ticket)),
    }
}

/// Whether each word is an op.
fn are_ops(alloc: Global, words: &[&str]) -> Result<bool, AllocError>
    ensures { IfOk result (λ are. IsTrue are ↔ All IsOp (texts_of words.now)) }
{
    for word in words {
        let Some(_op) = op(alloc, *word)? else {
            return Ok(false);
        };
    }
    Ok(true)
}

/// A ticket and a change.
fn change_behind(alloc: Global, words: &[&str]) -> Result<Option<(Option<u64>, Change)>, AllocError>
    ensures found { IfRead result (λ edit. (texts_of words.now ≡ ticket_word edit.0 ∷ map op_text edit.1)
        × IsTicket edit.0 × IsChange edit.1) }
    ensures only { (ticket : Option ℕ) (ops : List Op) → IsTicket ticket → IsChange ops
        → texts_of words.now ≡ ticket_word ticket ∷ map op_text ops → Reads result (ticket, ops) }
{
    let [ticket, ops @ ..] = words else {
        return Ok(None);
    };
    let Some(ticket) = ticket_in(alloc, ticket)? else {
        return Ok(None);
    };
    match change_in(alloc, ops)? {
        Some(change) => Ok(Some((ticket, change))),
        None => Ok(None),
    }
}

/// Whether a word isn't an op, of words behind this ticket.
#[tactic(auto, using(crate::proofs::Asking::ops_lack_none, crate::proofs::Asking::others_lack))]
fn lacks_behind(
    alloc: Global,
    ticket: Option<u64>,
    ops: &[&str],
    words: &[&str],
) -> Result<bool, AllocError>
    requires parts { texts_of words.now ≡ ticket_word ticket ∷ texts_of ops.now }
    requires named { IsTicket ticket }
    ensures { IfOk result (λ lacks. IsTrue lacks ↔ LacksOps (texts_of words.now)) }
{
    if are_ops(alloc, ops)? {
        return Ok(false);
    }
    Ok(true)
}

/// Whether a word behind a ticket isn't an op.
#[tactic(auto, using(crate::proofs::Asking::nothing_lacks, crate::proofs::Asking::no_ticket_lacks))]
fn lacks_ops(alloc: Global, words: &[&str]) -> Result<bool, AllocError>
    ensures { IfOk result (λ lacks. IsTrue lacks ↔ LacksOps (texts_of words.now)) }
{
    let Some((text, ops)) = words.split_first() else {
        return Ok(false);
    };
    match ticket_in(alloc, text)? {
        Some(ticket) => lacks_behind(alloc, ticket, ops, words),
        None => Ok(false),
    }
}

/// What is asked for behind `edit`, of a session that has an editor.
#[tactic(auto, using(crate::proofs::Asking::edit_asked, crate::proofs::Asking::edit_of_others, crate::proofs::Asking::no_change))]
fn edit_by(
    alloc: Global,
    session: u8,
    rest: &[&str],
    words: &[&str],
    editors: u8,
) -> Result<Asked, AllocError>
    requires parts { texts_of words.now ≡ decimal session ∷ texts_of rest.now }
    requires editor { session < editors }
    ensures { IfOk result (AsksJust (AsksBehind editors Word.Edit (texts_of words.now))) }
{
    if let Some((ticket, change)) = change_behind(alloc, rest)? {
        return Ok(Asked::Edit {
            session,
            ticket,
            change,
        });
    }
    if lacks_ops(alloc, rest)? {
        return Ok(Asked::NotOps);
    }
    Ok(Asked::NotUnderstood)
}

/// What is asked for behind `edit`.
#[tactic(auto, using(crate::proofs::Asking::nothing_edited, crate::proofs::Asking::edit_of_none, crate::proofs::Asking::no_edit))]
fn edit_of(alloc: Global, words: &[&str], editors: u8) -> Result<Asked, AllocError>
    ensures { IfOk result (AsksJust (AsksBehind editors Word.Edit (texts_of words.now))) }
{
    let Some((text, rest)) = words.split_first() else {
        return Ok(Asked::NotUnderstood);
    };
    match session_in(alloc, text, editors)? {
        Some(Named::Edited(session)) => edit_by(alloc, session, rest, words, editors),
        Some(Named::Unedited) => Ok(Asked::NoSession),
        None => Ok(Asked::NotUnderstood),
    }
}

/// What is asked for behind `resume`, of a session that has an editor.
#[tactic(auto, using(crate::proofs::Asking::resume_alone))]
fn resume_by(session: u8, rest: &[&str], words: &[&str], editors: u8) -> Asked
    requires parts { texts_of words.now ≡ decimal session ∷ texts_of rest.now }
    requires editor { session < editors }
    ensures { AsksJust (AsksBehind editors Word.Resume (texts_of words.now)) result }
{
    alone(rest, Asked::Resume { session })
}

/// What is asked for behind `resume`.
#[tactic(auto, using(crate::proofs::Asking::nothing_resumed, crate::proofs::Asking::resume_of_none, crate::proofs::Asking::no_resume))]
fn resume_of(alloc: Global, words: &[&str], editors: u8) -> Result<Asked, AllocError>
    ensures { IfOk result (AsksJust (AsksBehind editors Word.Resume (texts_of words.now))) }
{
    let Some((text, rest)) = words.split_first() else {
        return Ok(Asked::NotUnderstood);
    };
    match session_in(alloc, text, editors)? {
        Some(Named::Edited(session)) => Ok(resume_by(session, rest, words, editors)),
        Some(Named::Unedited) => Ok(Asked::NoSession),
        None => Ok(Asked::NotUnderstood),
    }
}

/// The nodes that two words are.
fn nodes_in(alloc: Global, words: &[&str]) -> Result<Option<(u16, u16)>, AllocError>
    ensures found { IfRead result (λ ends. texts_of words.now ≡ decimal ends.0 ∷ decimal ends.1 ∷ []) }
    ensures fits { IfRead result (λ ends. (ends.0 < 2 ^ 16) × (ends.1 < 2 ^ 16)) }
    ensures only { (from to : ℕ) → from < 2 ^ 16 → to < 2 ^ 16
        → texts_of words.now ≡ decimal from ∷ decimal to ∷ [] → Reads result (from, to) }
{
    let [from, to] = words else {
        return Ok(None);
    };
    let Some(from) = node(alloc, from)? else {
        return Ok(None);
    };
    match node(alloc, to)? {
        Some(to) => Ok(Some((from, to))),
        None => Ok(None),
    }
}

/// What is asked for behind `route`.
#[tactic(auto, using(crate::proofs::Asking::route_asked, crate::proofs::Asking::no_route))]
fn route_of(alloc: Global, words: &[&str]) -> Result<Asked, AllocError>
    ensures { IfOk result (AsksJust (RouteAsks (texts_of words.now))) }
{
    match nodes_in(alloc, words)? {
        Some((from, to)) => Ok(Asked::Route { from, to }),
        None => Ok(Asked::NotUnderstood),
    }
}

/// What is asked for behind `address`.
#[tactic(auto, using(crate::proofs::Asking::address_asked, crate::proofs::Asking::no_address))]
fn address_of(alloc: Global, words: &[&str]) -> Result<Asked, AllocError>
    ensures { IfOk result (AsksJust (AddressAsks (texts_of words.now))) }
{
    let [text] = words else {
        return Ok(Asked::NotUnderstood);
    };
    match node(alloc, text)? {
        Some(node) => Ok(Asked::Address { node }),
        None => Ok(Asked::NotUnderstood),
    }
}

/// A node, and the word behind it.
fn node_and_digits<'a>(
    alloc: Global,
    words: &[&'a str],
) -> Result<Option<(u16, &'a str)>, AllocError>
    ensures found { IfRead result (λ p. (texts_of words.now ≡ decimal p.0 ∷ p.1.now ∷ []) × (p.0 < 2 ^ 16)) }
    ensures only { (node : ℕ) (digits : List ℕ) → node < 2 ^ 16
        → texts_of words.now ≡ decimal node ∷ digits ∷ [] → ReadsPair result node digits }
{
    let [first, digits] = words else {
        return Ok(None);
    };
    match node(alloc, first)? {
        Some(node) => Ok(Some((node, *digits))),
        None => Ok(None),
    }
}

/// What is asked for behind `launch`.
fn launch_in(alloc: Global, words: &[&str]) -> Result<Asked, AllocError>
    ensures { IfOk result (AsksJust (NodeAsks LaunchAsks (texts_of words.now))) }
{
    match node_and_digits(alloc, words)? {
        Some((from, digits)) => Ok(launch_of(from, digits.as_bytes())),
        None => Ok(Asked::NotUnderstood),
    }
}

/// What is asked for behind `hop`.
fn hop_in(alloc: Global, words: &[&str]) -> Result<Asked, AllocError>
    ensures { IfOk result (AsksJust (NodeAsks HopAsks (texts_of words.now))) }
{
    match node_and_digits(alloc, words)? {
        Some((at, digits)) => Ok(hop_of(at, digits.as_bytes())),
        None => Ok(Asked::NotUnderstood),
    }
}

/// What is asked for behind `tables`.
#[tactic(auto, using(crate::proofs::Asking::tables_asked, crate::proofs::Asking::no_tables))]
fn tables_of(alloc: Global, words: &[&str]) -> Result<Asked, AllocError>
    ensures { IfOk result (AsksJust (TablesAsks (texts_of words.now))) }
{
    let [folder] = words else {
        return Ok(Asked::NotUnderstood);
    };
    if !is_folder(folder) {
        return Ok(Asked::NotUnderstood);
    }
    let folder = String::from_str(alloc, folder)?;
    Ok(Asked::Tables { folder })
}

/// What is asked for behind `backup`.
#[tactic(auto, using(crate::proofs::Asking::backup_asked, crate::proofs::Asking::no_backup))]
fn backup_of(alloc: Global, words: &[&str]) -> Result<Asked, AllocError>
    ensures { IfOk result (AsksJust (BackupAsks (texts_of words.now))) }
{
    let [file] = words else {
        return Ok(Asked::NotUnderstood);
    };
    if !is_folder(file) {
        return Ok(Asked::NotUnderstood);
    }
    let file = String::from_str(alloc, file)?;
    Ok(Asked::Backup { file })
}

/// What is asked for by a first word alone.
fn alone(words: &[&str], asked: Asked) -> Asked
    ensures empty { texts_of words.now ≡ [] → result ≡ asked }
    ensures others { texts_of words.now ≢ [] → result ≡ Asked.NotUnderstood }
{
    if words.is_empty() {
        asked
    } else {
        Asked::NotUnderstood
    }
}

/// What is asked for behind a first word.
#[tactic(auto, using(crate::proofs::Asking::alone_asked))]
fn behind(alloc: Global, first: Word, words: &[&str], editors: u8) -> Result<Asked, AllocError>
    ensures { IfOk result (AsksJust (AsksBehind editors first (texts_of words.now))) }
{
    match first {
        Word::Edit => edit_of(alloc, words, editors),
        Word::Resume => resume_of(alloc, words, editors),
        Word::Route => route_of(alloc, words),
        Word::Address => address_of(alloc, words),
        Word::Launch => launch_in(alloc, words),
        Word::Hop => hop_in(alloc, words),
        Word::State => Ok(alone(words, Asked::State)),
        Word::Wait => Ok(alone(words, Asked::Wait)),
        Word::Tables => tables_of(alloc, words),
        Word::Backup => backup_of(alloc, words),
        Word::Metrics => Ok(alone(words, Asked::Metrics)),
    }
}

/// What words ask for.
#[tactic(auto, using(crate::proofs::Asking::words_asked, crate::proofs::Asking::no_words, crate::proofs::Asking::nothing_asked))]
fn asked_by(alloc: Global, words: &[&str], editors: u8) -> Result<Asked, AllocError>
    ensures { IfOk result (AsksJust (WordsAsk editors (texts_of words.now))) }
{
    let Some((text, others)) = words.split_first() else {
        return Ok(Asked::NotUnderstood);
    };
    match word_in(text) {
        Some(first) => behind(alloc, first, others, editors),
        None => Ok(Asked::NotUnderstood),
    }
}

/// A line without the carriage return at its end, where one stands there.
fn without_return(line: &[u8]) -> &[u8]
    ensures { result.now ≡ without_return line.now }
{
    let count = line.len();
    if count > 0 && line[count - 1] == b'\r' {
        &line[..count - 1]
    } else {
        line
    }
}

/// What a line asks for, in a service with editors for the sessions from 0 on, so many. The line is what stands before its line
/// feed; a carriage return at its end doesn't count. An `Err` means that memory was refused.
pub fn asked_in(alloc: Global, line: &[u8], editors: u8) -> Result<Asked, AllocError>
    ensures { IfOk result (IsAskedIn editors line.now) }
{
    asked_in_text(alloc, without_return(line), editors)
}

/// What the bytes of a line ask for.
#[tactic(auto, using(crate::proofs::Asking::no_text))]
fn asked_in_text(alloc: Global, line: &[u8], editors: u8) -> Result<Asked, AllocError>
    ensures { IfOk result (AsksJust (Asks editors line.now)) }
{
    let Ok(text) = str::from_utf8(line) else {
        return Ok(Asked::NotUnderstood);
    };
    let words = words_in(alloc, text)?;
    asked_by(alloc, &words, editors)
}
