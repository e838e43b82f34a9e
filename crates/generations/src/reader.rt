// Readers: they look at the board that is shown, and wait for nobody.
ghost use Rattle.std.specs.Prelude.{◌≡◌, Some, IfOk, IfErr};
ghost use Rattle.left_right.specs.Sides.{view as view_of};
ghost use Rattle.generations.specs.Beginnings.{GoesOn, board_after};
ghost use Rattle.generations.specs.Lawful.{IsLawful};
ghost use Rattle.generations.specs.Knowledges.{Learns, all_seen};
ghost use Rattle.generations.specs.Misses.{IsMissed};

use crate::fold::Board;
use crate::history::History;
use crate::replica::Replica;
use crossbeam_utils::rule::{Outcome, Protocol};
use left_right::reader::{Reader, Reading};
use std::marker::Model;
use thiserror::Error;

/// The board that is shown is the fold of its list, and each thread knows a beginning of that.
pub struct Publication;

impl Protocol<Replica, Option<History>> for Publication {
    ghost use Rattle.std.specs.Prelude.{None};
    ghost use Rattle.generations.specs.Shares.{IsConsistent};

    ghost holds = { IsConsistent };

    ghost first = { None };
}

/// A step that sees the copy that is shown.
pub struct Observation;

impl Outcome<Replica, Option<History>> for Observation {
    ghost use Rattle.generations.specs.Shares.{Observes};

    ghost then = { Observes };
}

/// What a writer tells: all that was posted when it told. Contracts see it as that beginning of the list.
#[derive(Drop)]
pub struct Told {
    history: History,
}

impl Model for Told {
    ghost use Rattle.generations.specs.Beginnings.{Beginning};

    ghost Value = { Beginning };

    ghost view = { λ t. t.history };
}

impl Told {
    pub(crate) fn new(history: History) -> Told
        ensures { result ≡ history }
    {
        Told { history }
    }

    /// What was told, as a history, which can be compared with others.
    pub fn history(&self) -> History
        ensures { result ≡ self.now }
    {
        self.history.again()
    }

    /// The same again: it takes no memory.
    pub fn again(&self) -> Told
        ensures { result ≡ self.now }
    {
        Told {
            history: self.history.again(),
        }
    }
}

/// A reader of the board. Contracts see it as what it saw, and all that it knows.
#[derive(Drop)]
pub struct BoardReader {
    reader: Reader<Replica, Option<History>, Publication>,
    seen: History,
    /// What it was told beyond that, until it sees it.
    told: Option<History>,
}

impl Model for BoardReader {
    ghost use Rattle.std.specs.Prelude.{◌≡◌, Some};
    ghost use Rattle.left_right.specs.Sides.{view as view_of};
    ghost use Rattle.generations.specs.Knowledges.{Knowledge, known_by, IsAhead};

    ghost Value = { Knowledge };

    ghost view = { λ r. known_by r.seen r.told };

    ghost invariant = { λ r. (view_of r.reader.place ≡ Some r.seen) × IsAhead r.seen r.told };
}

/// A reader with the board that it looks at. Contracts see it as the beginning of the list that the board is the fold of.
pub struct Look {
    reading: Reading<Replica, Option<History>, Publication>,
    history: History,
}

impl Model for Look {
    ghost use Rattle.std.specs.Prelude.{◌≡◌, Some};
    ghost use Rattle.left_right.specs.Sides.{view as view_of};
    ghost use Rattle.generations.specs.Beginnings.{Beginning, board_after};

    ghost Value = { Beginning };

    ghost view = { λ l. l.history };

    ghost invariant = { λ l. (l.reading.part.value.board ≡ board_after l.history) × (view_of l.reading.place ≡ Some l.history) };
}

/// Why a look gives no board.
#[derive(Clone, Copy, Debug, PartialEq, Eq, Drop, Error)]
pub enum Shut {
    /// `left_right` refused the entry.
    #[error("the board took no entry")]
    Refused = 1,
    /// `left_right` gave a board that ends before what was told. No run has shown it, and no clause of `left_right`
    /// rules it out.
    #[error("the board is behind what was told")]
    Behind = 2,
}

impl BoardReader {
    // A reader that was told nothing beyond what it saw.
    pub(crate) fn new(
        reader: Reader<Replica, Option<History>, Publication>,
        seen: History,
    ) -> BoardReader
        requires { view_of reader.place ≡ Some seen }
        ensures { result ≡ all_seen seen }
    {
        BoardReader {
            reader,
            seen,
            told: None,
        }
    }

    /// All that it saw or was told.
    pub fn known(&self) -> History
        ensures all { result ≡ self.now.all }
        ensures seen { GoesOn self.now.seen result }
    {
        match &self.told {
            Some(history) => history.again(),
            None => self.seen.again(),
        }
    }

    /// From now on it sees no less than what was told. It takes no memory and waits for nobody.
    pub fn learn(&mut self, told: &Told)
        requires { told.now.opening ≡ self.old.all.opening }
        ensures { Learns self.old told.now self.new }
    {
        let known = self.known();
        if !known.covers(&told.history) {
            self.told = Some(told.history.again());
        }
    }

    /// Looks at the board. It takes no memory and waits for nobody.
    pub fn look(self) -> Result<Look, (Shut, BoardReader)>
        ensures seen { IfOk result (λ look. GoesOn self.seen look) }
        ensures learnt { IfOk result (λ look. GoesOn self.all look) }
        ensures shut { IfErr result (λ e. IsMissed e.0 self e.1) }
    {
        let BoardReader { reader, seen, told } = self;
        match reader.enter_as::<Observation>() {
            Ok(reading) => {
                let shown: &Replica = reading.get();
                let history = shown.history.again();
                match told {
                    None => Ok(Look { reading, history }),
                    Some(told) => {
                        if history.covers(&told) {
                            return Ok(Look { reading, history });
                        }
                        let reader = BoardReader {
                            reader: reading.leave(),
                            seen: history,
                            told: Some(told),
                        };
                        Err((Shut::Behind, reader))
                    }
                }
            }
            Err(reader) => Err((Shut::Refused, BoardReader { reader, seen, told })),
        }
    }
}

impl Look {
    /// The board as the writer had it between two postings.
    pub fn board(&self) -> &Board
        ensures fold { result.now ≡ board_after self.now }
        ensures lawful { IsLawful self.now.opening.starts self.now.opening.count self.now.log }
    {
        self.history.len();
        let shown: &Replica = self.reading.get();
        &shown.board
    }

    /// Gives the reader back, which saw this much.
    pub fn leave(self) -> BoardReader
        ensures { result ≡ all_seen self }
    {
        let Look { reading, history } = self;
        BoardReader::new(reading.leave(), history)
    }
}
