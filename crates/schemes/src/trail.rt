// How a scheme carries a packet from end to end.
ghost use Rattle.std.specs.Prelude.{◌≡◌, ◌++◌, ◌∷◌, [], ◌+◌, ◌-◌, ◌^◌, min, IfOk, IfErr, OnOk};
ghost use Rattle.schemes.specs.Tables.{tables};
ghost use Rattle.schemes.specs.Trails.{IsTrailOf, IsCarryRefusal, as_carried, IsCarriedWhereConnected, IsUnreachableWhereApart};

use crate::packet::{Address, Move, Packet, Refused};
use crate::scheme::Scheme;
use std::alloc::{AllocError, Global};
use thiserror::Error;

/// The way of a packet: the nodes that it visited, from the first to the last, the ports by which it went, and the
/// length of its way.
#[derive(Drop)]
pub struct Trail {
    pub nodes: Vec<u16>,
    pub ports: Vec<u16>,
    pub length: u64,
}

/// Why there is no trail.
#[derive(Clone, Copy, Debug, PartialEq, Eq, Drop, Error)]
pub enum CarryRefused {
    /// A node isn't below the number of nodes.
    #[error("no node")]
    NoNode = 1,
    /// No tree leads to the destination.
    #[error("unreachable")]
    Unreachable = 2,
    /// A node on the way can't carry the packet on.
    #[error("stray packet")]
    Stray = 3,
    /// The packet ran out of hops.
    #[error("no hop left")]
    Spent = 4,
    /// There was no memory for the trail.
    #[error("out of memory")]
    Memory = 5,
}

fn carried(refused: Refused) -> CarryRefused
    ensures { result ≡ as_carried refused }
{
    match refused {
        Refused::NoNode => CarryRefused::NoNode,
        Refused::Unreachable => CarryRefused::Unreachable,
        Refused::Stray => CarryRefused::Stray,
        Refused::Spent => CarryRefused::Spent,
    }
}

/// The trail of a packet that hasn't gone yet.
fn starting_at(alloc: Global, node: u16) -> Result<Trail, AllocError>
    ensures { IfOk result (λ trail. (trail.nodes.items ≡ node ∷ []) × ((trail.ports.items ≡ []) × (trail.length ≡ 0))) }
{
    let mut nodes = Vec::new(alloc);
    nodes.push(node)?;
    Ok(Trail {
        nodes,
        ports: Vec::new(alloc),
        length: 0,
    })
}

/// How much two distances differ.
fn difference(here: u64, there: u64) -> u64
    ensures { result ≡ (here - there) + (there - here) }
{
    if here < there {
        there - here
    } else {
        here - there
    }
}

/// One hop more.
fn lengthen(trail: &mut Trail, port: u16, next: u16, hop: u64) -> Result<(), AllocError>
    ensures nodes { OnOk result (trail.new.nodes.items ≡ trail.old.nodes.items ++ next ∷ []) }
    ensures ports { OnOk result (trail.new.ports.items ≡ trail.old.ports.items ++ port ∷ []) }
    ensures length { OnOk result (trail.new.length ≡ min (trail.old.length + hop) (2 ^ 64 - 1)) }
{
    trail.nodes.push(next)?;
    trail.ports.push(port)?;
    trail.length = trail.length.saturating_add(hop);
    Ok(())
}

impl Scheme {
    /// The trail of the packet that `u` sends to an address, to where it is delivered. Memory is refused for the trail
    /// alone. A hop is as long as the distances of its two nodes differ in the packet's tree; a length past a u64 stays
    /// at the greatest u64, which only a scheme of made-up tables can reach.
    pub fn carry(&self, alloc: Global, u: u16, to: &Address) -> Result<Trail, CarryRefused>
        ensures trail { IfOk result (λ trail. IsTrailOf (tables self.now) u to.now trail) }
        ensures refused { IfErr result (IsCarryRefusal (tables self.now) u to.now) }
        ensures connected { IsCarriedWhereConnected self.now u to.now result }
        ensures apart { IsUnreachableWhereApart self.now u to.now result }
    {
        let mut packet = match self.decide(u, to) {
            Ok(packet) => packet,
            Err(refused) => return Err(carried(refused)),
        };
        let Ok(mut trail) = starting_at(alloc, u) else {
            return Err(CarryRefused::Memory);
        };
        let mut at = u;
        let mut here = self.distance(at, packet.root);
        loop {
            match self.node_step(at, &packet) {
                Ok(Move::Delivered) => return Ok(trail),
                Ok(
                    Move::Forward {
                        port,
                        next,
                        packet: left,
                    },
                ) => {
                    let there = self.distance(next, packet.root);
                    let Ok(()) = lengthen(&mut trail, port, next, difference(here, there)) else {
                        return Err(CarryRefused::Memory);
                    };
                    at = next;
                    here = there;
                    packet = left;
                }
                Err(refused) => return Err(carried(refused)),
            }
        }
    }
}
