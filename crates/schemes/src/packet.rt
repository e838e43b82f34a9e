// What goes from node to node.
ghost use Rattle.std.specs.Prelude.{◌≡◌};

use heavy_labels::Label;
use thiserror::Error;

/// Where a node is to be found: its nearest landmark and its label in that landmark's tree, or the node alone where no
/// landmark reaches it.
#[derive(PartialEq, Eq, Debug, Drop)]
pub struct Address {
    pub generation: u64,
    pub node: u16,
    pub home: Option<Home>,
}

impl Address {
    /// An equal address. It takes no memory.
    pub fn copy(&self) -> Address
        ensures { result ≡ self.now }
    {
        let home = match &self.home {
            Some(home) => Some(home.copy()),
            None => None,
        };
        Address {
            generation: self.generation,
            node: self.node,
            home,
        }
    }
}

/// A landmark, and a label in its tree.
#[derive(PartialEq, Eq, Debug, Drop)]
pub struct Home {
    pub landmark: u16,
    pub label: Label,
}

impl Home {
    /// An equal home. It takes no memory.
    pub fn copy(&self) -> Home
        ensures { result ≡ self.now }
    {
        Home {
            landmark: self.landmark,
            label: self.label.copy(),
        }
    }
}

/// A packet on its way in the tree of `root`.
#[derive(PartialEq, Eq, Debug, Drop)]
pub struct Packet {
    pub generation: u64,
    pub destination: u16,
    pub root: u16,
    /// The destination's label in that tree.
    pub label: Label,
    /// Over how many edges it may still go.
    pub hops_left: u16,
}

impl Packet {
    /// An equal packet. It takes no memory.
    pub fn copy(&self) -> Packet
        ensures { result ≡ self.now }
    {
        Packet {
            generation: self.generation,
            destination: self.destination,
            root: self.root,
            label: self.label.copy(),
            hops_left: self.hops_left,
        }
    }
}

/// What a node does with a packet.
#[derive(PartialEq, Eq, Debug, Drop)]
pub enum Move {
    /// The node is the destination.
    Delivered,
    /// The packet goes on, by a port of the node, to the node behind it.
    Forward {
        port: u16,
        next: u16,
        packet: Packet,
    },
}

impl Move {
    /// An equal move. It takes no memory.
    pub fn copy(&self) -> Move
        ensures { result ≡ self.now }
    {
        match self {
            Move::Delivered => Move::Delivered,
            Move::Forward { port, next, packet } => Move::Forward {
                port: *port,
                next: *next,
                packet: packet.copy(),
            },
        }
    }
}

/// Why a scheme gives no address, no packet or no move.
#[derive(Clone, Copy, Debug, PartialEq, Eq, Drop, Error)]
pub enum Refused {
    /// A node isn't below the number of nodes.
    #[error("no node")]
    NoNode = 1,
    /// No tree leads to the destination.
    #[error("unreachable")]
    Unreachable = 2,
    /// The packet isn't one that this node can carry on.
    #[error("stray packet")]
    Stray = 3,
    /// The packet has no hop left.
    #[error("no hop left")]
    Spent = 4,
}
