use distances::Nearest;
use graph_edits::Graph;
use landmarks::Landmarks;

/// What the scheme of a generation is built from.
#[derive(Clone, Copy)]
pub struct Survey<'a> {
    pub graph: &'a Graph,
    pub landmarks: &'a Landmarks,
    /// The nearest landmark of each node of the graph.
    pub nearest: &'a Nearest,
    /// The number of the generation.
    pub generation: u64,
}
