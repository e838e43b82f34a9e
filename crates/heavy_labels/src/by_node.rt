// The members of a tree in the order of their nodes.
ghost use Rattle.std.specs.Prelude.{◌≡◌, ◌≤◌, ◌↔◌, IfOk, IsPermutation, IsTrue, length, map};
ghost use Rattle.std.specs.List.Sorted.{IsNonDecreasingBy};
ghost use Rattle.route_tree.specs.Members.{AreMembers};
ghost use Rattle.route_tree.specs.Places.{HasPlaces};
ghost use Rattle.heavy_labels.specs.ByNode.{AreByNode, AreSpots, IsPlaceOf};

use route_tree::{MOST_MEMBERS, Member};
use std::alloc::{AllocError, Allocator};

/// A member's node, and its place among the members.
#[derive(Clone, Copy)]
pub(crate) struct Spot {
    node: u16,
    place: u16,
}

/// Each member's node and place, in the order of the members.
fn spots<A: Allocator>(alloc: A, members: &[Member]) -> Result<Vec<Spot, A>, AllocError>
    requires { length members.now ≤ MOST_MEMBERS }
    ensures { IfOk result (λ all. AreSpots members.now (length members.now) all.items) }
{
    let mut all = Vec::new(alloc);
    all.reserve_exact(members.len())?;
    for i in 0..members.len() {
        all.push(Spot {
            node: members[i].node,
            place: i as u16,
        })?;
    }
    Ok(all)
}

/// Sorts spots by node.
fn sort_by_node<A: Allocator>(spots: &mut Vec<Spot, A>)
    ensures same { IsPermutation spots.old.items spots.new.items }
    ensures ascend { IsNonDecreasingBy (λ s. s.node) spots.new.items }
{
    spots.sort_unstable_by_key(|spot| spot.node);
}

/// The places of spots.
fn places_in<A: Allocator>(alloc: A, spots: &[Spot]) -> Result<Vec<u16, A>, AllocError>
    ensures { IfOk result (λ all. all.items ≡ map (λ s. s.place) spots.now) }
{
    let mut all = Vec::new(alloc);
    all.reserve_exact(spots.len())?;
    for spot in spots {
        all.push(spot.place)?;
    }
    Ok(all)
}

/// The places of the members, in ascending order of nodes: their nodes are sorted.
fn by_sorting<A: Allocator + Clone>(alloc: A, members: &[Member]) -> Result<Vec<u16, A>, AllocError>
    requires { AreMembers members.now }
    ensures { IfOk result (λ all. AreByNode members.now all.items) }
{
    let mut spots = spots(alloc.clone()?, members)?;
    sort_by_node(&mut spots);
    let places = places_in(alloc, spots.as_slice())?;
    Ok(places)
}

/// Whether the member at a place has the node x.
fn is_place_of(members: &[Member], place: u16, x: usize) -> bool
    ensures { IsTrue result ↔ IsPlaceOf members.now place x }
{
    match members.get(place as usize) {
        Some(member) => member.node as usize == x,
        None => false,
    }
}

/// The places of the members, in ascending order of nodes: the table is asked for each node.
fn by_table<A: Allocator>(
    alloc: A,
    members: &[Member],
    places: &[u16],
) -> Result<Vec<u16, A>, AllocError>
    requires members { AreMembers members.now }
    requires places { HasPlaces members.now places.now }
    ensures { IfOk result (λ all. AreByNode members.now all.items) }
{
    let mut all = Vec::new(alloc);
    all.reserve_exact(members.len())?;
    for x in 0..places.len() {
        if is_place_of(members, places[x], x) {
            all.push(places[x])?;
        }
    }
    Ok(all)
}

/// How many nodes a table may have for each member, so that going over it is less than sorting the members.
const NODES_A_MEMBER: usize = 8;

/// The places of the members, in ascending order of nodes.
pub(crate) fn places_by_node<A: Allocator + Clone>(
    alloc: A,
    members: &[Member],
    places: &[u16],
) -> Result<Vec<u16, A>, AllocError>
    requires members { AreMembers members.now }
    requires places { HasPlaces members.now places.now }
    ensures { IfOk result (λ all. AreByNode members.now all.items) }
{
    if places.len() / NODES_A_MEMBER <= members.len() {
        return by_table(alloc, members, places);
    }
    by_sorting(alloc, members)
}
