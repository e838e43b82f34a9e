// A cluster, as it was found.
ghost use Rattle.std.specs.Prelude.{◌≡◌};

use distances::{Reach, Reached};
use std::marker::Model;

/// The members of a cluster, in ascending order of distance from its centre, and then of node.
#[derive(Drop)]
pub struct Cluster {
    pub(crate) reach: Reach,
}

impl Model for Cluster {
    ghost use Rattle.distances.specs.Reach.{Members};

    ghost Value = { Members };

    ghost view = { λ cluster. cluster.reach };
}

impl Cluster {
    /// The members, the centre first.
    pub fn members(&self) -> &[Reached]
        ensures { result.now ≡ self.now.members }
    {
        self.reach.members()
    }

    /// How many entries the search popped.
    pub fn pops(&self) -> u64
        ensures { result ≡ self.now.pops }
    {
        self.reach.pops()
    }
}
