//! The network of a table.
ghost use Rattle.std.specs.Prelude.{◌≡◌, Ok, [], ◌∷◌, IfOk, IfErr, OnOk, length};
ghost use Rattle.std.specs.FinMap.{len};
ghost use Rattle.graph_edits.specs.Changes.{after};
ghost use Rattle.sample_networks.specs.Tables.{IsOfTable, IsRowRefused, IsTableRefused, added};

use graph_edits::{Change, Code, EditRefused, Graph, MOST_NODES, Op};
use std::alloc::{AllocError, Global};
use thiserror::Error;

/// Two nodes, and the weight of the edge between them.
pub type Edge = (u16, u16, u32);

/// Why a table has no network.
#[derive(Clone, Copy, Debug, PartialEq, Eq, Drop, Error)]
pub enum TableRefused {
    /// A network can't have so many nodes.
    #[error("node count out of range")]
    Nodes,
    /// The first row that adds no edge, counted from 0, and why.
    #[error("row {place} adds no edge: {code}")]
    Row { place: usize, code: Code },
    /// Memory ran out.
    #[error("out of memory")]
    Memory,
}

impl From<AllocError> for TableRefused {
    ghost use Rattle.sample_networks.specs.declared.tables.TableRefused.TheVariants.{Memory};

    ghost from_gives = { λ _ e. e ≡ Memory };

    fn from(_: AllocError) -> Self {
        TableRefused::Memory
    }
}

/// The network of so many nodes with exactly these edges. Where memory is refused, it is asked for once more.
pub fn graph_of(alloc: Global, nodes: u16, edges: &[Edge]) -> Result<Graph, TableRefused>
    ensures ok { IfOk result (λ graph. IsOfTable nodes edges.now graph) }
    ensures count { IfOk result (λ graph. len graph.edges ≡ length edges.now) }
    ensures refused { IfErr result (λ refused. IsTableRefused nodes edges.now refused) }
{
    match graph_once(alloc, nodes, edges) {
        Err(TableRefused::Memory) => graph_once(alloc, nodes, edges),
        answer => answer,
    }
}

fn graph_once(alloc: Global, nodes: u16, edges: &[Edge]) -> Result<Graph, TableRefused>
    ensures ok { IfOk result (λ graph. IsOfTable nodes edges.now graph) }
    ensures count { IfOk result (λ graph. len graph.edges ≡ length edges.now) }
    ensures refused { IfErr result (λ refused. IsTableRefused nodes edges.now refused) }
{
    if nodes < 1 || nodes > MOST_NODES {
        return Err(TableRefused::Nodes);
    }
    let mut graph = Graph::empty(alloc, nodes)?;
    for place in 0..edges.len() {
        add_row(&mut graph, place, edges[place])?;
    }
    Ok(graph)
}

// Adds the edge of the row at this place.
fn add_row(graph: &mut Graph, place: usize, row: Edge) -> Result<(), TableRefused>
    ensures ok { OnOk result (after graph.old (added row ∷ []) ≡ Ok graph.new) }
    ensures refused { IfErr result (λ refused. IsRowRefused place (after graph.old (added row ∷ [])) refused) }
{
    let (a, b, weight) = row;
    let change = match Change::new(&[Op::Add(a, b, weight)]) {
        Ok(change) => change,
        Err(_) => unreachable!(),
    };
    match graph.apply(&change) {
        Ok(()) => Ok(()),
        Err(EditRefused::Op { index: _, code }) => Err(TableRefused::Row { place, code }),
        Err(EditRefused::Memory) => Err(TableRefused::Memory),
    }
}
