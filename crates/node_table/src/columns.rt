// The tree of one root, as numbered members, and the entry of each.
ghost use Rattle.std.specs.Prelude.{◌≡◌, ◌<◌, ◌≤◌, ℕ, Option, IfOk, length, map, nat_eq, slice_index};
ghost use Rattle.std.specs.List.{All, IsDistinct};
ghost use Rattle.distances.specs.Workspace.{AreLinked};
ghost use Rattle.node_table.specs.Columns.{linked_member, AreRowsWithin, IsTreeWithin};
ghost use Rattle.node_table.specs.RowLists.{AreReached, entry_by, nodes_linked, nodes_numbered, rows_by};
ghost use Rattle.schemes.specs.Places.{ArePlaces};

use crate::numbering::Numbering;
use distances::Linked;
use graph_edits::{Graph, MOST_NODES};
use heavy_labels::{Numbered, NumberedMember};
use route_tree::{MOST_MEMBERS, Member};
use schemes::Entry;
use std::alloc::{AllocError, Global};

const _: () = prove!(MOST_NODES as usize <= MOST_MEMBERS);

const _: () = prove!(MOST_MEMBERS <= u16::MAX as usize + 1);

/// What is reached, as a member of the tree.
fn member(there: &Linked) -> Member
    ensures { result ≡ linked_member there.now }
{
    Member {
        node: there.reached.node,
        parent: there.reached.parent,
        up: there.up,
        down: there.down,
    }
}

fn members(alloc: Global, reached: &[Linked]) -> Result<Vec<Member>, AllocError>
    ensures { IfOk result (λ all. all.items ≡ map linked_member reached.now) }
{
    let mut all = Vec::with_capacity(alloc, reached.len())?;
    for there in reached {
        all.push(member(there))?;
    }
    Ok(all)
}

/// Notes for each node that is reached its place in the list. What the table has for other nodes stays.
fn note_places(reached: &[Linked], places: &mut [u16])
    requires few { length reached.now ≤ MOST_MEMBERS }
    requires nodes { All (λ x. x < length places.old) (nodes_linked reached.now) }
    ensures length { length places.new ≡ length places.old }
    ensures places { ArePlaces (nodes_linked reached.now) places.new }
{
    for (place, there) in reached.iter().enumerate() {
        places[there.reached.node as usize] = place as u16;
    }
}

/// A numbered member's entry for the root. The places tell where its node was reached.
pub(crate) fn entry_of(
    root: u16,
    reached: &[Linked],
    places: &[u16],
    member: &NumberedMember,
) -> Entry
    requires places { member.now.node < length places.now }
    requires reached { slice_index places.now member.now.node < length reached.now }
    ensures { result ≡ entry_by root reached.now places.now member.now }
{
    let place = places[member.node as usize] as usize;
    let there = &reached[place].reached;
    Entry::new(there.distance, root, there.parent, member.tree_record)
}

/// The numbered members of the tree of what is reached from a root. The places are room for a number for each node: what they
/// held doesn't matter, and they then tell where each member was reached.
pub(crate) fn number_reached<N: Numbering>(
    alloc: Global,
    graph: &Graph,
    root: u16,
    reached: &[Linked],
    places: &mut [u16],
    numbering: &N,
) -> Result<Numbered, AllocError>
    requires inside { root < graph.now.nodes }
    requires places { length places.old ≡ graph.now.nodes }
    requires tree { (limit : ℕ → Option ℕ) × IsTreeWithin graph.now limit root reached.now }
    requires ports { AreLinked graph.now reached.now }
    ensures apart { IfOk result (λ numbered. IsDistinct nat_eq (nodes_numbered numbered.items)) }
    ensures inside { IfOk result (λ numbered. All (λ n. n.node < graph.now.nodes) numbered.items) }
    ensures reached { IfOk result (λ numbered. AreReached reached.now places.new numbered.items) }
    ensures column { IfOk result (λ numbered. (limit : ℕ → Option ℕ)
        → IsTreeWithin graph.now limit root reached.now
        → AreRowsWithin graph.now limit root (rows_by root reached.now places.new numbered.items)) }
{
    // It tells that the graph is sound.
    let _sound = graph.nodes();
    let members = members(alloc, reached)?;
    note_places(reached, places);
    let numbered = numbering.numbered(alloc, &members, places)?;
    Ok(numbered)
}
