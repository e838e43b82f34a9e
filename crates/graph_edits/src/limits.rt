// The limits of a network. Each stands here once, and as a word of `specs/Edges.antt`.

/// The most nodes that a graph may have. The fewest are 1.
pub const MOST_NODES: u16 = 16_384;

/// The most edges that a graph may have.
pub const MOST_EDGES: usize = 65_536;

/// The greatest weight of an edge. The smallest is 1.
pub const GREATEST_WEIGHT: u32 = 1_000_000;

/// The most ops that a change may have. The fewest are 1.
pub const MOST_OPS: usize = 16;
