//! A list of edges, a line each.
ghost use Rattle.std.specs.Prelude.{◌≡◌, ◌<◌, ◌≤◌, All, Err, IfErr, IfOk, IfSome, Ok};
ghost use Rattle.std.specs.List.{flat_map};
ghost use Rattle.std.specs.Option.{option_map};
ghost use Rattle.std.specs.Result.{result_ok};
ghost use Rattle.value_syntax.specs.Reading.{texts_of};
ghost use Rattle.network_load.specs.Lists.{HasEndsTo, IfAccepted, IfNoneRead, IfRefused, OnRead, begins, edge_said, list_says, parts_at, plain_number, says_nothing, unless_empty, with_line, words_of};

use std::alloc::{AllocError, Global};
use thiserror::Error;
use value_syntax::{lines_in, number};

/// The greatest weight that a line may say. A network takes fewer.
const MOST_WEIGHT: u64 = 4_294_967_295;

/// An edge as a line says it.
#[derive(Clone, Copy, Debug, PartialEq, Eq, Drop)]
pub struct Edge {
    /// The number of the line, from 1.
    pub line: usize,
    pub a: u16,
    pub b: u16,
    pub weight: u32,
}

/// What is wrong with a line.
#[derive(Clone, Copy, Debug, PartialEq, Eq, Drop, Error)]
pub enum LineFault<'a> {
    #[error("a line is `A B W`")]
    Fields,
    /// A word that is no plain number, or none of a node.
    #[error("`{word}` is no number of a node, 0 to {last}")]
    End { word: &'a str, last: u16 },
    #[error("the weight is a plain number below 4294967296")]
    Weight,
}

impl LineFault<'_> {
    /// The exit status of the program: 2 where the line isn't of its form.
    pub fn status(&self) -> u8
        ensures some { 1 ≤ result }
        ensures few { result ≤ 2 }
    {
        match self {
            LineFault::End { .. } => 1,
            LineFault::Fields | LineFault::Weight => 2,
        }
    }
}

/// The first line that says no edge though it should.
#[derive(Clone, Copy, Debug, PartialEq, Eq, Drop, Error)]
#[error("{fault}")]
pub struct LineRefused<'a> {
    /// Its number, from 1.
    pub line: usize,
    pub fault: LineFault<'a>,
}

/// The edges of a list whose nodes are 0 to `last`.
pub fn read_list<'a>(
    alloc: Global,
    text: &'a str,
    last: u16,
) -> Result<Result<Vec<Edge>, LineRefused<'a>>, AllocError>
    ensures found { IfAccepted result (λ edges. list_says last text.entry.now ≡ Ok edges.items) }
    ensures ends { IfAccepted result (λ edges. All (HasEndsTo last) edges.items) }
    ensures refused { IfRefused result (λ refused. list_says last text.entry.now ≡ Err refused.line) }
{
    let lines = lines_in(alloc, text)?;
    let mut edges = Vec::new(alloc);
    for index in 0..lines.len() {
        let line = index + 1;
        if let Some(fault) = take_line(alloc, &mut edges, last, line, lines[index])? {
            return Ok(Err(LineRefused { line, fault }));
        }
    }
    Ok(Ok(edges))
}

// Takes what a line says, or answers what is wrong with it.
fn take_line<'a>(
    alloc: Global,
    edges: &mut Vec<Edge>,
    last: u16,
    line: usize,
    text: &'a str,
) -> Result<Option<LineFault<'a>>, AllocError>
    requires { All (HasEndsTo last) edges.old.items }
    ensures taken { IfNoneRead result (with_line last line text.entry.now edges.old.items ≡ Ok edges.new.items) }
    ensures ends { IfNoneRead result (All (HasEndsTo last) edges.new.items) }
    ensures refused { OnRead result (with_line last line text.entry.now edges.old.items ≡ Err line) }
{
    let words = words_in(alloc, text)?;
    if says_nothing(&words) {
        return Ok(None);
    }
    match edge_in(alloc, last, line, &words)? {
        Ok(edge) => {
            edges.push(edge)?;
            Ok(None)
        }
        Err(fault) => Ok(Some(fault)),
    }
}

// Whether a line of these words says nothing.
fn says_nothing(words: &[&str]) -> bool
    ensures { result ≡ says_nothing (texts_of words.now) }
{
    match words.first() {
        Some(word) => begins(b'#', word.as_bytes()),
        None => true,
    }
}

fn begins(byte: u8, text: &[u8]) -> bool
    ensures { result ≡ begins byte text.now }
{
    match text.first() {
        Some(first) => *first == byte,
        None => false,
    }
}

// The edge that a line of these words says, or what is wrong with them.
fn edge_in<'a>(
    alloc: Global,
    last: u16,
    line: usize,
    words: &[&'a str],
) -> Result<Result<Edge, LineFault<'a>>, AllocError>
    ensures said { IfOk result (λ edge. result_ok edge ≡ edge_said last line (texts_of words.now)) }
    ensures ends { IfAccepted result (HasEndsTo last) }
{
    let [a, b, weight] = words else {
        return Ok(Err(LineFault::Fields));
    };
    let Some(weight) = weight_in(alloc, *weight)? else {
        return Ok(Err(LineFault::Weight));
    };
    let Some(from) = node_in(alloc, last, *a)? else {
        return Ok(Err(LineFault::End { word: *a, last }));
    };
    let Some(to) = node_in(alloc, last, *b)? else {
        return Ok(Err(LineFault::End { word: *b, last }));
    };
    Ok(Ok(Edge {
        line,
        a: from,
        b: to,
        weight,
    }))
}

// The number of a node up to the last one.
#[tactic(auto, using(crate::proofs::Numbers::number_read, crate::proofs::Numbers::none_read))]
fn node_in(alloc: Global, last: u16, word: &str) -> Result<Option<u16>, AllocError>
    ensures is { IfOk result (λ node. node ≡ plain_number last word.now) }
    ensures ends { IfOk result (λ node. IfSome node (λ n. n ≤ last)) }
{
    match number(alloc, word, last as u64)? {
        Some(node) => Ok(Some(node as u16)),
        None => Ok(None),
    }
}

#[tactic(auto, using(crate::proofs::Numbers::number_read, crate::proofs::Numbers::none_read))]
fn weight_in(alloc: Global, word: &str) -> Result<Option<u32>, AllocError>
    ensures { IfOk result (λ weight. weight ≡ plain_number 4294967295 word.now) }
{
    match number(alloc, word, MOST_WEIGHT)? {
        Some(weight) => Ok(Some(weight as u32)),
        None => Ok(None),
    }
}

// What stands between such characters, in front of them and behind.
fn parts_in<'a>(alloc: Global, text: &'a str, at: char) -> Result<Vec<&'a str>, AllocError>
    requires { at < 128 }
    ensures { IfOk result (λ parts. texts_of parts.items ≡ parts_at at text.entry.now) }
{
    text.split(at).collect(alloc)
}

// The parts of each text.
fn cut_each<'a>(alloc: Global, texts: &[&'a str], at: char) -> Result<Vec<&'a str>, AllocError>
    requires { at < 128 }
    ensures { IfOk result (λ parts. texts_of parts.items ≡ flat_map (parts_at at) (texts_of texts.now)) }
{
    let mut parts = Vec::new(alloc);
    for text in texts {
        let more = parts_in(alloc, *text, at)?;
        parts.extend_from_slice(&more)?;
    }
    Ok(parts)
}

// Those that aren't empty.
fn kept<'a>(alloc: Global, parts: &[&'a str]) -> Result<Vec<&'a str>, AllocError>
    ensures { IfOk result (λ words. texts_of words.items ≡ flat_map unless_empty (texts_of parts.now)) }
{
    let mut words = Vec::new(alloc);
    for part in parts {
        if !part.is_empty() {
            words.push(*part)?;
        }
    }
    Ok(words)
}

// The words of a line: what stands between blanks, tabs and carriage returns, where something does.
fn words_in<'a>(alloc: Global, text: &'a str) -> Result<Vec<&'a str>, AllocError>
    ensures { IfOk result (λ words. texts_of words.items ≡ words_of text.entry.now) }
{
    let parts = parts_in(alloc, text, ' ')?;
    let smaller = cut_each(alloc, &parts, '\t')?;
    let smallest = cut_each(alloc, &smaller, '\r')?;
    kept(alloc, &smallest)
}
