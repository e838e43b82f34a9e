//! The words by which landmarks are chosen, as they are asked for.
ghost use Rattle.std.specs.Prelude.{◌≡◌, ◌<◌, ◌↔◌, ℕ, List, All, IfOk, IsTrue, length};
ghost use Rattle.value_syntax.specs.declared.words.LandmarkWords.{LandmarkWords};
ghost use Rattle.value_syntax.specs.WordsText.{AreNodes, IsAsked, nodes_text, words_text};
ghost use Rattle.value_syntax.specs.Reading.{IfRead, ReadsList, ReadsWords};
ghost use Rattle.value_syntax.specs.Words.{AreWords, AreZeroAt, IsWithin};

use crate::draws::Draws;
use crate::op_words::{node, number};
use std::alloc::{AllocError, Global};

/// Which word each node has.
#[derive(Debug, PartialEq, Eq, Drop)]
pub enum LandmarkWords {
    /// The greatest word everywhere: no node is a landmark. Written `none`.
    Greatest,
    /// 0 at these nodes, which then are the landmarks, and the greatest word elsewhere. Written `at:2,5`.
    ZeroAt(Vec<u16>),
    /// The words of a xoshiro256++, seeded by a SplitMix64 that begins at this number. Written `draw:7`.
    Drawn(u64),
}

/// What a text asks for, where it is of one of the three forms.
pub fn landmark_words(alloc: Global, text: &str) -> Result<Option<LandmarkWords>, AllocError>
    ensures found { IfRead result (λ words. (text.now ≡ words_text words) × IsAsked words) }
    ensures only { (words : LandmarkWords) → IsAsked words → text.now ≡ words_text words → ReadsWords result words }
{
    if text == "none" {
        return Ok(Some(LandmarkWords::Greatest));
    }
    let Some((kind, rest)) = text.split_once(':') else {
        return Ok(None);
    };
    if kind == "at" {
        Ok(node_list(alloc, rest)?.map(|nodes| LandmarkWords::ZeroAt(nodes)))
    } else if kind == "draw" {
        Ok(number(alloc, rest, u64::MAX)?.map(|seed| LandmarkWords::Drawn(seed)))
    } else {
        Ok(None)
    }
}

/// One node or more, as `2,5`.
fn node_list(alloc: Global, text: &str) -> Result<Option<Vec<u16>>, AllocError>
    ensures found { IfRead result (λ nodes. (text.now ≡ nodes_text nodes.items) × AreNodes nodes.items) }
    ensures only { (nodes : List ℕ) → AreNodes nodes → text.now ≡ nodes_text nodes → ReadsList result nodes }
{
    let mut nodes = Vec::new(alloc);
    let mut rest = text;
    while let Some((front, behind)) = rest.split_once(',') {
        let Some(node) = node(alloc, front)? else {
            return Ok(None);
        };
        nodes.push(node)?;
        rest = behind;
    }
    let Some(last) = node(alloc, rest)? else {
        return Ok(None);
    };
    nodes.push(last)?;
    Ok(Some(nodes))
}

impl LandmarkWords {
    /// Whether each node that is named is below `nodes`.
    pub fn is_within(&self, nodes: u16) -> bool
        ensures { IsTrue result ↔ IsWithin self.now nodes }
    {
        match self {
            LandmarkWords::ZeroAt(named) => named.iter().all(|node| *node < nodes),
            _ => true,
        }
    }

    /// A word for each of so many nodes.
    pub fn of_nodes(&self, alloc: Global, nodes: u16) -> Result<Vec<u64>, AllocError>
        requires { IsWithin self.now nodes }
        ensures words { IfOk result (λ words. AreWords self.now nodes words.items) }
        ensures count { IfOk result (λ words. length words.items ≡ nodes) }
    {
        match self {
            LandmarkWords::Greatest => vec![in alloc; u64::MAX; nodes as usize],
            LandmarkWords::ZeroAt(named) => zero_at(alloc, named, nodes),
            LandmarkWords::Drawn(seed) => {
                let mut draws = Draws::seeded(*seed);
                draws.next(alloc, nodes)
            }
        }
    }
}

fn zero_at(alloc: Global, named: &[u16], nodes: u16) -> Result<Vec<u64>, AllocError>
    requires { All (λ node. node < nodes) named.now }
    ensures { IfOk result (λ words. AreZeroAt named.now nodes words.items) }
{
    let mut words = vec![in alloc; u64::MAX; nodes as usize]?;
    for node in named {
        words[*node as usize] = 0;
    }
    Ok(words)
}
