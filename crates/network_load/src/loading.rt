//! A list that becomes a device.
ghost use Rattle.std.specs.Prelude.{◌≡◌, ◌<◌, ◌≤◌, ◌-◌, All, IfErr, IfOk, IfSome, Some, length};
ghost use Rattle.graph_edits.specs.Edges.{most_nodes};
ghost use Rattle.network_load.specs.Lists.{HasEndsTo, list_says};
ghost use Rattle.network_load.specs.Loads.{IsFirstOf, IsLoadOf, IsLoadRefused, IsNodeCount, IsToldOf, changes_for, first_tickets, last_for, nodes_in};
ghost use Rattle.network_load.specs.Networks.{IsRefusedAt};

use crate::image::image_of;
use crate::list::{Edge, LineFault, LineRefused, read_list};
use crate::network::{EdgeRefused, network_of};
use checkpoint::WriteRefused;
use graph_edits::{Code, MOST_NODES, MOST_OPS};
use requests::SESSIONS;
use std::alloc::{AllocError, Global};
use thiserror::Error;

/// A device that is to be put somewhere.
#[derive(Debug, PartialEq, Eq, Drop)]
pub struct Made {
    /// What it holds.
    pub bytes: Vec<u8>,
    pub count: u64,
    pub edges: usize,
    pub nodes: u16,
}

/// Why a list becomes no device.
#[derive(Clone, Copy, Debug, PartialEq, Eq, Drop, Error)]
pub enum LoadRefused<'a> {
    /// A line says no edge.
    #[error("line {line}: {fault}")]
    Line {
        line: usize,
        fault: LineFault<'a>,
    },
    /// The network doesn't take the edge of a line. Where one of its nodes was there already, `first` is the line that has it.
    #[error("line {line}: {code}")]
    Edge {
        line: usize,
        code: Code,
        first: Option<usize>,
    },
    /// There would be no node.
    #[error("node count out of range")]
    NodeCount,
    #[error("out of memory")]
    Memory,
    /// A call of the disk in memory failed. No run is known that ends so.
    #[error("device failed")]
    Device,
}

impl From<AllocError> for LoadRefused<'_> {
    ghost use Rattle.network_load.specs.declared.loading.LoadRefused.TheVariants.{Memory};

    ghost from_gives = { λ _ e. e ≡ Memory };

    fn from(_: AllocError) -> Self {
        LoadRefused::Memory
    }
}

/// The device of a list. It has so many nodes, or one more than the greatest number in the list. Its edges are those of the list; its count and the
/// last ticket of session 0 are as if they had come as changes of 16 edges each.
pub fn load_list<'a>(
    alloc: Global,
    text: &'a str,
    nodes: Option<u16>,
) -> Result<Made, LoadRefused<'a>>
    requires { IfSome nodes IsNodeCount }
    ensures made { IfOk result (IsLoadOf text.entry.now nodes) }
    ensures refused { IfErr result (IsLoadRefused text.entry.now nodes) }
{
    let edges = match read_list(alloc, text, last_of(nodes))? {
        Ok(edges) => edges,
        Err(LineRefused { line, fault }) => return Err(LoadRefused::Line { line, fault }),
    };
    let nodes = nodes.unwrap_or(nodes_of(&edges));
    if nodes < 1 {
        return Err(LoadRefused::NodeCount);
    }
    let graph = match network_of(alloc, nodes, &edges) {
        Ok(graph) => graph,
        Err(EdgeRefused::Edge { place, code }) => return Err(told_edge(&edges, place, code)),
        Err(EdgeRefused::Memory) => return Err(LoadRefused::Memory),
    };
    let count = changes_for(edges.len());
    let tickets = first_tickets(count);
    match image_of(alloc, count, &graph, nodes, &tickets) {
        Ok(bytes) => Ok(Made {
            bytes,
            count,
            edges: edges.len(),
            nodes,
        }),
        Err(WriteRefused::Memory) => Err(LoadRefused::Memory),
        Err(WriteRefused::Device) => Err(LoadRefused::Device),
    }
}

// The greatest number that a node may have.
fn last_of(nodes: Option<u16>) -> u16
    ensures { result ≡ last_for nodes }
{
    nodes.unwrap_or(MOST_NODES).saturating_sub(1)
}

// One more than the greatest number.
#[tactic(auto, using(crate::proofs::Counting::nodes_to))]
fn nodes_of(edges: &[Edge]) -> u16
    requires { All (HasEndsTo (most_nodes - 1)) edges.now }
    ensures nodes { result ≡ nodes_in edges.now }
    ensures few { result ≤ most_nodes }
{
    let mut nodes: u16 = 0;
    for edge in edges {
        nodes = nodes.max(edge.a.max(edge.b) + 1);
    }
    nodes
}

// How many changes of `MOST_OPS` edges so many edges are.
fn changes_for(edges: usize) -> u64
    ensures { result ≡ changes_for edges }
{
    edges.div_ceil(MOST_OPS) as u64
}

// The last tickets where session 0 has sent so many changes, and no other any.
fn first_tickets(count: u64) -> [u64; SESSIONS]
    ensures { result ≡ first_tickets count }
{
    let mut tickets = [0; SESSIONS];
    tickets[0] = count;
    tickets
}

// What is told of an edge that is refused.
fn told_edge<'a>(edges: &[Edge], place: usize, code: Code) -> LoadRefused<'a>
    requires { place < length edges.now }
    ensures { IsToldOf edges.now place code result }
{
    let edge = edges[place];
    let first = match code {
        Code::EdgeThere => line_of(&edges[..place], edge),
        _ => None,
    };
    LoadRefused::Edge {
        line: edge.line,
        code,
        first,
    }
}

// The first line that has an edge between the same nodes.
fn line_of(edges: &[Edge], edge: Edge) -> Option<usize>
    ensures { IfSome result (λ line. IsFirstOf edges.now line edge) }
{
    for other in edges {
        if (other.a, other.b) == (edge.a, edge.b) || (other.b, other.a) == (edge.a, edge.b) {
            return Some(other.line);
        }
    }
    None
}
