//! The values of a command's fields, read from the texts of its arguments.
ghost use Rattle.std.specs.Prelude.{◌≡◌, ◌↔◌, IfErr, IfOk, IsTrue, List, All, Some, codes, decimal, map, option_map};
ghost use Rattle.clap.specs.Walk.{all_of, first_of, texts};
ghost use Rattle.graph_edits.specs.declared.edits.Op.{Op};
ghost use Rattle.value_syntax.specs.OpText.{Fits, op_text};
ghost use Rattle.command_line.specs.Asked.{AreEnds, AreNodes, AreOpsGiven, AreWordsGiven, IsLive, IsNumber, IsOptional, IsUsual, IsWithin, is_flagged, nodes_of};
ghost use Rattle.command_line.specs.Fields.{Landmarks, Ops};
ghost use Rattle.command_line.specs.Readings.{IsOpRefusal, IsRead, Reads, rows_in};

use crate::refused::WordsRefused;
use clap::ArgMatches;
use graph_edits::{Change, Op, Shape};
use std::alloc::Global;
use value_syntax::{LandmarkWords, landmark_words, number, op};

/// The texts of a command's arguments, and where memory comes from to read them.
#[derive(Drop)]
pub(crate) struct Arguments<'a, 'b> {
    pub(crate) alloc: Global,
    pub(crate) found: &'b ArgMatches<'a>,
}

impl<'a, 'b> Arguments<'a, 'b> {
    // The text that an argument has.
    fn given(&self, id: &str) -> Option<&'a str>
        ensures { option_map (λ text. text.now) result ≡ first_of id.now (rows_in self.now) }
    {
        self.found.get_str(id)
    }

    // All texts that an argument has.
    fn all_given(&self, id: &str) -> Option<&'b [&'a str]>
        ensures { option_map (λ all. texts all.now) result ≡ all_of id.now (rows_in self.now) }
    {
        self.found.get_strs(id)
    }

    pub(crate) fn text(&self, id: &str) -> Result<&'a str, WordsRefused>
        ensures { Reads (λ text. text.now) (λ text. first_of id.now (rows_in self.now) ≡ Some text) result }
    {
        match self.given(id) {
            Some(text) => Ok(text),
            None => Err(WordsRefused::Usage),
        }
    }

    // The number from one to another that a text is.
    fn number_in(&self, text: &str, least: u64, most: u64) -> Result<u64, WordsRefused>
        ensures { Reads (λ n. n) (λ n. (text.now ≡ decimal n) × IsWithin least most n) result }
    {
        match number(self.alloc, text, most)? {
            Some(number) if number >= least => Ok(number),
            _ => Err(WordsRefused::Usage),
        }
    }

    pub(crate) fn number(&self, id: &str, least: u64, most: u64) -> Result<u64, WordsRefused>
        ensures { Reads (λ n. n) (IsNumber (first_of id.now (rows_in self.now)) least most) result }
    {
        self.number_in(self.text(id)?, least, most)
    }

    pub(crate) fn usual(
        &self,
        id: &str,
        least: u64,
        most: u64,
        usual: u64,
    ) -> Result<u64, WordsRefused>
        ensures { Reads (λ n. n) (IsUsual (first_of id.now (rows_in self.now)) least most usual) result }
    {
        match self.given(id) {
            Some(text) => self.number_in(text, least, most),
            None => Ok(usual),
        }
    }

    pub(crate) fn optional(
        &self,
        id: &str,
        least: u64,
        most: u64,
    ) -> Result<Option<u64>, WordsRefused>
        ensures { Reads (λ n. n) (IsOptional (first_of id.now (rows_in self.now)) least most) result }
    {
        match self.given(id) {
            Some(text) => Ok(Some(self.number_in(text, least, most)?)),
            None => Ok(None),
        }
    }

    // The rounds mean nothing to a service that isn't live.
    pub(crate) fn live(&self) -> Result<Option<u16>, WordsRefused>
        ensures { Reads (λ rounds. rounds) (IsLive (first_of (codes "live") (rows_in self.now)) (first_of (codes "rounds") (rows_in self.now))) result }
    {
        if self.flag("live") {
            return Ok(Some(self.usual("rounds", 1, 65_535, 16)? as u16));
        }
        match self.given("rounds") {
            Some(_) => Err(WordsRefused::Usage),
            None => Ok(None),
        }
    }

    // Whether a flag is given.
    pub(crate) fn flag(&self, id: &str) -> bool
        ensures value { result ≡ is_flagged (first_of id.now (rows_in self.now)) }
        ensures given { IsTrue result ↔ (first_of id.now (rows_in self.now) ≡ Some (codes "true")) }
    {
        match self.given(id) {
            Some(text) => text == "true",
            None => false,
        }
    }

    pub(crate) fn nodes(&self, id: &str) -> Result<Vec<u16>, WordsRefused>
        ensures { Reads (λ nodes. nodes.items) (AreNodes (all_of id.now (rows_in self.now))) result }
    {
        let mut nodes = Vec::new(self.alloc);
        let Some(given) = self.all_given(id) else {
            return Ok(nodes);
        };
        for text in given {
            let node = self.number_in(*text, 0, 65_535)?;
            nodes.push(node as u16)?;
        }
        Ok(nodes)
    }

    // The first two nodes are a pair, and by twos those behind them.
    pub(crate) fn pairs(&self) -> Result<Vec<(u16, u16)>, WordsRefused>
        ensures { Reads (λ pairs. pairs.items) (λ pairs. AreEnds (rows_in self.now) (nodes_of pairs)) result }
    {
        let from = self.number("from", 0, 65_535)? as u16;
        let to = self.number("to", 0, 65_535)? as u16;
        let more = self.nodes("more")?;
        if more.len() % 2 == 1 {
            return Err(WordsRefused::Usage);
        }
        let mut pairs = Vec::new(self.alloc);
        pairs.push((from, to))?;
        for i in 0..more.len() / 2 {
            pairs.push((more[2 * i], more[2 * i + 1]))?;
        }
        Ok(pairs)
    }

    pub(crate) fn words(&self) -> Result<LandmarkWords, WordsRefused>
        ensures { IsRead (rows_in self.now) Landmarks (AreWordsGiven (rows_in self.now)) (λ words. words) result }
    {
        let Some(text) = self.given("words") else {
            return Err(WordsRefused::Usage);
        };
        match landmark_words(self.alloc, text)? {
            Some(words) => Ok(words),
            None => Err(WordsRefused::Words),
        }
    }

    pub(crate) fn change(&self) -> Result<Change, WordsRefused>
        ensures { IsRead (rows_in self.now) Ops (AreOpsGiven (rows_in self.now)) (λ change. change) result }
    {
        let Some(texts) = self.all_given("ops") else {
            return Err(WordsRefused::Usage);
        };
        let ops = self.ops_in(texts)?;
        match Change::new(&ops) {
            Ok(change) => Ok(change),
            Err(Shape::Empty) => Err(WordsRefused::Usage),
            Err(Shape::TooLong) => Err(WordsRefused::TooLong),
        }
    }

    // Each text as an op.
    fn ops_in(&self, given: &[&str]) -> Result<Vec<Op>, WordsRefused>
        ensures found { IfOk result (λ ops. (map op_text ops.items ≡ texts given.now) × All Fits ops.items) }

        ensures same { (ops : List Op) → All Fits ops → map op_text ops ≡ texts given.now
            → IfOk result (λ read. read.items ≡ ops) }

        ensures cause { IfErr result (IsOpRefusal (texts given.now)) }
    {
        let mut ops = Vec::new(self.alloc);
        for text in given {
            let Some(op) = op(self.alloc, *text)? else {
                return Err(WordsRefused::Op);
            };
            ops.push(op)?;
        }
        Ok(ops)
    }
}
