// The scheme of a graph by landmark words.
ghost use Rattle.std.specs.Prelude.{IfOk};
ghost use Rattle.scheme_builds.specs.Schemes.{IsSchemeOf};

use crate::words::first_words;
use graph_edits::Graph;
use landmarks::choose;
use node_table::build_by_lists;
use schemes::Scheme;
use std::alloc::{AllocError, Allocator, Global};

/// The scheme of a graph, with the landmarks that these words give and this generation. Of the words the first count, one
/// for each node, and for each that is missing the greatest. The members of each root's tree are numbered over lists in an arena
/// made for them over the scratch, so any stack will do, and the scheme keeps nothing of that. An `Err` means that memory was
/// refused, by the scratch or beside it.
pub fn scheme_of<A: Allocator + Clone>(
    alloc: Global,
    graph: &Graph,
    words: &[u64],
    generation: u64,
    scratch: A,
) -> Result<Scheme, AllocError>
    ensures { IfOk result (λ scheme. IsSchemeOf graph.now words.now generation scheme) }
{
    let nodes = graph.nodes() as usize;
    let first = first_words(alloc, words, nodes)?;
    let landmarks = choose(alloc, nodes, &first)?;
    build_by_lists(alloc, graph, &landmarks, generation, scratch)
}
