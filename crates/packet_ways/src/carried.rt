// What becomes of a packet.

/// A packet from a node to a node.
#[derive(Clone, Copy, Drop)]
pub struct Trip {
    pub from: u16,
    pub to: u16,
}

/// What became of a packet.
#[derive(Debug, PartialEq, Eq, Drop)]
pub enum Carried {
    /// It went over these nodes, its first and last among them, in this generation alone. The length is the way's in the graph of
    /// that generation.
    Along {
        generation: u64,
        nodes: Vec<u16>,
        length: u64,
    },
    /// In this generation no way leads there.
    Unreachable {
        generation: u64,
    },
    /// A node isn't one of the device's.
    NoNode,
}
