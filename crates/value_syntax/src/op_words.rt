//! Numbers and ops as they are written.
ghost use Rattle.std.specs.Prelude.{◌≡◌, ◌≤◌, ◌<◌, ◌^◌, ℕ, List, decimal};
ghost use Rattle.graph_edits.specs.declared.edits.Op.{Op};
ghost use Rattle.value_syntax.specs.OpText.{Fits, IsEdge, LeadsWith, op_text, pair_text};
ghost use Rattle.value_syntax.specs.Reading.{IfRead, Reads, ReadsPair};

use graph_edits::Op;
use std::alloc::{AllocError, Global};

/// The number that a text is the plain decimal form of, without sign and leading zeros, where it is at most `most`.
pub fn number(alloc: Global, text: &str, most: u64) -> Result<Option<u64>, AllocError>
    ensures found { IfRead result (λ n. (text.now ≡ decimal n) × (n ≤ most)) }
    ensures only { (n : ℕ) → n ≤ most → text.now ≡ decimal n → Reads result n }
{
    let Ok(n) = text.parse::<u64>() else {
        return Ok(None);
    };
    if n > most {
        return Ok(None);
    }
    let plain = format!(in alloc; "{n}")?;
    if plain.as_str() == text {
        Ok(Some(n))
    } else {
        Ok(None)
    }
}

/// A node's number.
pub fn node(alloc: Global, text: &str) -> Result<Option<u16>, AllocError>
    ensures found { IfRead result (λ n. text.now ≡ decimal n) }
    ensures fits { IfRead result (λ n. n < 2 ^ 16) }
    ensures only { (n : ℕ) → n < 2 ^ 16 → text.now ≡ decimal n → Reads result n }
{
    match number(alloc, text, 65_535)? {
        Some(n) => Ok(Some(n as u16)),
        None => Ok(None),
    }
}

/// An edge's weight.
fn weight(alloc: Global, text: &str) -> Result<Option<u32>, AllocError>
    ensures found { IfRead result (λ n. text.now ≡ decimal n) }
    ensures only { (n : ℕ) → n < 2 ^ 32 → text.now ≡ decimal n → Reads result n }
{
    match number(alloc, text, 4_294_967_295)? {
        Some(n) => Ok(Some(n as u32)),
        None => Ok(None),
    }
}

/// The node in front of the first colon, and the text behind it.
fn leading_node<'a>(alloc: Global, text: &'a str) -> Result<Option<(u16, &'a str)>, AllocError>
    ensures found { IfRead result (λ p. LeadsWith text.entry.now p.0 p.1.now) }
    ensures only { (a : ℕ) (rest : List ℕ) → a < 2 ^ 16 → LeadsWith text.entry.now a rest → ReadsPair result a rest }
{
    let Some((front, rest)) = text.split_once(':') else {
        return Ok(None);
    };
    match node(alloc, front)? {
        Some(node) => Ok(Some((node, rest))),
        None => Ok(None),
    }
}

/// Two nodes, as `A:B`.
fn ends(alloc: Global, text: &str) -> Result<Option<(u16, u16)>, AllocError>
    ensures found { IfRead result (λ p. text.now ≡ pair_text p.0 p.1) }
    ensures only { (a b : ℕ) → a < 2 ^ 16 → b < 2 ^ 16 → text.now ≡ pair_text a b → Reads result (a, b) }
{
    let Some((a, rest)) = leading_node(alloc, text)? else {
        return Ok(None);
    };
    match node(alloc, rest)? {
        Some(b) => Ok(Some((a, b))),
        None => Ok(None),
    }
}

/// Two nodes and a weight, as `A:B:W`.
fn edge(alloc: Global, text: &str) -> Result<Option<(u16, u16, u32)>, AllocError>
    ensures found { IfRead result (λ e. IsEdge text.now e.0 e.1 e.2) }
    ensures only { (a b w : ℕ) → a < 2 ^ 16 → b < 2 ^ 16 → w < 2 ^ 32 → IsEdge text.now a b w → Reads result (a, b, w) }
{
    let Some((a, rest)) = leading_node(alloc, text)? else {
        return Ok(None);
    };
    let Some((b, last)) = leading_node(alloc, rest)? else {
        return Ok(None);
    };
    match weight(alloc, last)? {
        Some(w) => Ok(Some((a, b, w))),
        None => Ok(None),
    }
}

/// An op, as `add:A:B:W`, `set:A:B:W` or `cut:A:B`.
pub fn op(alloc: Global, text: &str) -> Result<Option<Op>, AllocError>
    ensures found { IfRead result (λ op. text.now ≡ op_text op) }
    ensures only { (op : Op) → Fits op → text.now ≡ op_text op → Reads result op }
{
    let Some((kind, rest)) = text.split_once(':') else {
        return Ok(None);
    };
    if kind == "add" {
        Ok(edge(alloc, rest)?.map(|e| Op::Add(e.0, e.1, e.2)))
    } else if kind == "set" {
        Ok(edge(alloc, rest)?.map(|e| Op::Set(e.0, e.1, e.2)))
    } else if kind == "cut" {
        Ok(ends(alloc, rest)?.map(|p| Op::Cut(p.0, p.1)))
    } else {
        Ok(None)
    }
}
