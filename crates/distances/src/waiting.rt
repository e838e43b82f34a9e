// The key of the heap: a distance and a node in one number.
ghost use Rattle.std.specs.Prelude.{◌≡◌, ◌<◌, ◌^◌};

use crate::search::Settled;
use std::marker::Model;

/// A node that waits at a distance. The order is by distance, then by node.
///
/// It is one number: the distance counts in steps of 2^16, and the node, which is below 2^16, stands behind it. So one
/// comparison of numbers compares the pairs.
#[derive(Clone, Copy, PartialEq, Eq, PartialOrd, Ord)]
pub struct Waiting(u64);

impl Model for Waiting {
    ghost use Rattle.std.specs.Prelude.{◌/◌, ◌%◌, ◌*◌, ◌+◌};
    ghost use Rattle.distances.specs.declared.search.Settled.{Settled};

    ghost Value = { Settled };

    ghost view = { λ a. record { distance = a.0 / 65536; node = a.0 % 65536 } };

    ghost inverse = { λ s. record { 0 = s.distance * 65536 + s.node } };
}

impl Waiting {
    /// The key of a node at a distance.
    pub fn new(of: Settled) -> Waiting
        requires { of.distance < 2 ^ 48 }
        ensures { result ≡ of }
    {
        Waiting(of.distance * 65536 + of.node as u64)
    }

    /// The node and its distance.
    pub fn settled(self) -> Settled
        ensures { result ≡ self }
    {
        Settled {
            distance: self.0 / 65536,
            node: (self.0 % 65536) as u16,
        }
    }
}
