//! A group of entries, as a payload.
ghost use Rattle.std.specs.Prelude.{◌≡◌, ◌≤◌, length, IfOk, OnOk};
ghost use Rattle.byte_forms.specs.Reading.{GivesOr};
ghost use Rattle.journal.specs.Records.{text_behind};
ghost use Rattle.journal.specs.Spelling.{IsGroup, group_of, payload_of};

use crate::entry::{Entries, Entry};
use crate::layout::{CLOSED_GATE, COUNT_SIZE, GATE_SIZE, LENGTH_SIZE, MOST_ENTRIES, MOST_PAYLOAD};
use byte_forms::{ReadError, items_of, put_u16, put_u32, u16_at};
use std::alloc::{AllocError, Global};

/// The group that the bytes are the payload of.
#[tactic(auto, unfolding(crate::specs::Spelling::group_of))]
pub(crate) fn read_group<E: Entry>(alloc: Global, bytes: &[u8]) -> Result<Vec<E>, ReadError>
    ensures { GivesOr (λ v. v.items) result (group_of E.form bytes.now) }
{
    let (count, rest) = u16_at(bytes).ok_or(ReadError::Malformed)?;
    let count = count as usize;
    if count < 1 || count > MOST_ENTRIES {
        return Err(ReadError::Malformed);
    }
    let (entries, rest) = items_of::<Entries<E>>(alloc, count, rest)?;
    if !rest.is_empty() {
        return Err(ReadError::Malformed);
    }
    Ok(entries)
}

/// How long a group's payload is.
pub(crate) fn payload_len<E: Entry>(entries: &[E]) -> usize
    requires few { length entries.now ≤ MOST_ENTRIES }
    ensures len { result ≡ length (payload_of E.form entries.now) }
    ensures most { result ≤ MOST_PAYLOAD }
{
    let mut len = COUNT_SIZE;
    for entry in entries {
        len += entry.text_len();
    }
    len
}

/// What is written behind a group's gate: its length, its payload, and the next gate, closed. One
/// buffer, made once.
pub(crate) fn text_of<E: Entry>(alloc: Global, entries: &[E]) -> Result<Vec<u8>, AllocError>
    requires some { 1 ≤ length entries.now }
    requires few { length entries.now ≤ MOST_ENTRIES }
    ensures text { IfOk result (λ v. v.items ≡ text_behind E.form entries.now) }
    ensures is_group { OnOk result (IsGroup E.form entries.now) }
{
    let len = payload_len(entries);
    let mut text = Vec::with_capacity(alloc, LENGTH_SIZE + len + GATE_SIZE)?;
    put_u32(&mut text, len as u32)?;
    put_u16(&mut text, entries.len() as u16)?;
    for entry in entries {
        entry.put(&mut text)?;
    }
    text.push(CLOSED_GATE)?;
    Ok(text)
}
