// The landmark words of rebuilds.
ghost use Rattle.std.specs.Prelude.{IfOk};
ghost use Rattle.value_syntax.specs.Words.{IsWithin};
ghost use Rattle.service_actors.specs.Source.{IsSourceOf};

use std::alloc::{AllocError, Global};
use value_syntax::{Draws, LandmarkWords};

/// Where the landmark words of a rebuild come from.
#[derive(Drop)]
pub enum WordSource {
    /// The same words for each.
    Same(Vec<u64>),
    /// The next words that a seed draws.
    Drawn(Draws),
}

impl WordSource {
    /// The words that were asked for, of so many nodes.
    pub fn of(alloc: Global, asked: &LandmarkWords, nodes: u16) -> Result<WordSource, AllocError>
        requires { IsWithin asked.now nodes }
        ensures { IfOk result (λ source. IsSourceOf asked.now nodes source) }
    {
        match asked {
            LandmarkWords::Drawn(seed) => Ok(WordSource::Drawn(Draws::seeded(*seed))),
            _ => Ok(WordSource::Same(asked.of_nodes(alloc, nodes)?)),
        }
    }
}
