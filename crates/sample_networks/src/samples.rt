//! Tables that several tests work with.
use crate::tables::Edge;

/// A path of five nodes.
pub const PATH: [Edge; 4] = [(0, 1, 1), (1, 2, 1), (2, 3, 1), (3, 4, 1)];

/// A triangle whose long side is as long as the way round.
pub const TRIANGLE: [Edge; 3] = [(0, 1, 1), (1, 2, 1), (0, 2, 2)];

/// Two pairs of nodes, apart.
pub const PAIRS: [Edge; 2] = [(0, 1, 5), (2, 3, 5)];

/// A ring of nine nodes with two chords.
pub const RING: [Edge; 11] = [
    (0, 1, 2),
    (1, 2, 1),
    (2, 3, 3),
    (3, 4, 1),
    (4, 5, 2),
    (5, 6, 1),
    (6, 7, 4),
    (7, 8, 1),
    (8, 0, 2),
    (1, 5, 3),
    (3, 7, 2),
];
