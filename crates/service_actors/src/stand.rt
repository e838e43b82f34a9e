// How a board stood when it was told.
ghost use Rattle.packet_ways.specs.Standing.{Counts, IsNewest};
ghost use Rattle.service_actors.specs.Stands.{HasNewest};

use crate::told::KnownPostings;
use packet_ways::BoardName;

/// What was told of the board that `J` names, and how the board stood then.
#[derive(Drop)]
pub struct Stand<J: BoardName> {
    pub told: KnownPostings<J>,
    /// How many changes were accepted.
    pub count: u64,
    /// The number of the newest generation, where there is one.
    pub generation: Option<u64>,
    ghost counted: { Counts told count },
    ghost newest: { HasNewest told generation },
}

/// What was told of the board that `J` names, once it had a generation.
#[derive(Drop)]
pub struct Shown<J: BoardName> {
    pub told: KnownPostings<J>,
    /// The number of the newest generation.
    pub generation: u64,
    ghost newest: { IsNewest told generation },
}

impl<J: BoardName> Stand<J> {
    /// The same again.
    pub fn again(&self) -> Stand<J> {
        Stand {
            told: self.told.again(),
            count: self.count,
            generation: self.generation,
        }
    }

    /// What was told, where there is a generation.
    pub fn shown(&self) -> Option<Shown<J>> {
        let generation = self.generation?;
        Some(Shown {
            told: self.told.again(),
            generation,
        })
    }
}
