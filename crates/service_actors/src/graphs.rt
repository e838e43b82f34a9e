// The graphs of the newest generations.
ghost use Rattle.std.specs.Arc.{arc_value};
ghost use Rattle.std.specs.Prelude.{◌≡◌, ◌<◌, IfOk};

use graph_edits::Graph;
use std::alloc::{AllocError, AllocFailed, Global};
use std::sync::Arc;

// As many as the shelf has.
const MOST_GRAPHS: usize = 4;

/// The graph of a generation.
#[derive(Drop)]
pub struct GenerationGraph {
    pub generation: u64,
    pub graph: Graph,
}

/// The graphs of the newest generations. An older one goes when it is pushed out and no packet is on its way in it.
#[derive(Drop)]
pub struct Graphs {
    newest: [Option<Arc<GenerationGraph, Global>>; MOST_GRAPHS],
    // Where the next one goes.
    next: usize,
    ghost within: { next < 4 },
}

impl Graphs {
    /// None yet.
    pub fn new() -> Graphs {
        Graphs {
            newest: [None, None, None, None],
            next: 0,
        }
    }

    /// Puts one in the place of the oldest, which is handed out.
    pub fn push(
        &mut self,
        graph: Arc<GenerationGraph, Global>,
    ) -> Option<Arc<GenerationGraph, Global>> {
        let oldest = self.newest[self.next].replace(graph);
        self.next = (self.next + 1) % MOST_GRAPHS;
        oldest
    }

    /// That of a generation, where it is one of the newest.
    pub fn of(&self, generation: u64) -> Option<Arc<GenerationGraph, Global>> {
        for graph in self.newest.iter().flatten() {
            if graph.generation == generation {
                return Arc::try_clone(graph).ok();
            }
        }
        None
    }
}

/// A copy of a generation's graph, for those that carry packets in it.
pub fn shared_graph(
    alloc: Global,
    generation: u64,
    graph: &Graph,
) -> Result<Arc<GenerationGraph, Global>, AllocError>
    ensures number { IfOk result (λ shared. (arc_value shared).generation ≡ generation) }
    ensures graph { IfOk result (λ shared. (arc_value shared).graph ≡ graph.now) }
{
    let graph = graph.try_clone(alloc)?;
    match Arc::new(alloc, GenerationGraph { generation, graph }) {
        Ok(shared) => Ok(shared),
        Err(AllocFailed { value: _ }) => Err(AllocError),
    }
}
