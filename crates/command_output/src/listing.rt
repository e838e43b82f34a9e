//! A graph, as the program prints it.
ghost use Rattle.std.specs.Prelude.{◌≡◌, ◌++◌, IfOk, OnOk};
ghost use Rattle.std.specs.List.{flat_map};
ghost use Rattle.std.specs.String.{string_bytes};
ghost use Rattle.command_output.specs.Lines.{line_up, listing_text};

use crate::lines::{EdgeLine, Totals};
use graph_edits::Graph;
use std::alloc::{AllocError, Global};

/// The totals, and then each edge once, in ascending order.
pub fn listing_of(alloc: Global, count: u64, graph: &Graph) -> Result<String, AllocError>
    ensures { IfOk result (λ text. string_bytes text ≡ listing_text count graph.now) }
{
    let mut text = String::new(alloc);
    let totals = Totals {
        count,
        edges: graph.edges(),
    };
    writeln!(text, "{totals}")?;
    for node in 0..graph.nodes() {
        push_edges(&mut text, node, graph.neighbours(node))?;
    }
    Ok(text)
}

// The edges of one node to greater ones.
fn push_edges(text: &mut String, node: u16, row: &[(u16, u32)]) -> Result<(), AllocError>
    ensures { OnOk result (string_bytes text.new ≡ string_bytes text.old ++ flat_map (line_up node) row.now) }
{
    for (neighbour, weight) in row {
        push_edge(text, node, *neighbour, *weight)?;
    }
    Ok(())
}

fn push_edge(text: &mut String, node: u16, neighbour: u16, weight: u32) -> Result<(), AllocError>
    ensures { OnOk result (string_bytes text.new ≡ string_bytes text.old ++ line_up node (neighbour, weight)) }
{
    if node < neighbour {
        let edge = EdgeLine {
            a: node,
            b: neighbour,
            weight,
        };
        writeln!(text, "{edge}")?;
    }
    Ok(())
}
