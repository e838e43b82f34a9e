ghost use Rattle.std.specs.Prelude.{◌≡◌, ◌<◌, ◌≤◌, ◌+◌, ℕ, IfOk, length, Some, None, slice_index_or, slice_set};
ghost use Rattle.route_tree.specs.Growth.{IsEachOnce};
ghost use Rattle.route_tree.specs.Places.{place_of, Finds, HasPlaces};
ghost use Rattle.route_tree.specs.declared.member.Member.{Member};

use crate::member::{MOST_MEMBERS, Member};
use std::alloc::{AllocError, Allocator};

/// How long a table is that has room for these members' nodes.
fn room_for(members: &[Member]) -> usize
    ensures { (k : ℕ) (d : Member) → k < length members.now → (slice_index_or members.now k d).node < result }
{
    let mut room = 0;
    for member in members {
        let needed = member.node as usize + 1;
        if room < needed {
            room = needed;
        }
    }
    room
}

/// A table with the place of each member at its node.
pub fn table_of<A: Allocator>(alloc: A, members: &[Member]) -> Result<Vec<u16, A>, AllocError>
    requires few { length members.now ≤ MOST_MEMBERS }
    requires once { IsEachOnce members.now }
    ensures { IfOk result (λ table. HasPlaces members.now table.items) }
{
    let mut table = Vec::new(alloc);
    table.resize(room_for(members), 0)?;
    for i in 0..members.len() {
        let node = members[i].node;
        table[node as usize] = i as u16;
    }
    Ok(table)
}

/// A table from nodes to the places of members: what stands at x is the place of node x.
#[derive(Drop)]
pub struct Places<A: Allocator> {
    table: Vec<Option<u16>, A>,
}

impl<A: Allocator> Places<A> {
    /// A table with room for these members' nodes, and no place in it.
    pub fn empty(alloc: A, members: &[Member]) -> Result<Places<A>, AllocError>
        ensures { IfOk result (λ p. Finds members.now 0 p.table.items) }
    {
        let mut table = Vec::new(alloc);
        table.resize(room_for(members), None)?;
        Ok(Places { table })
    }

    /// The place of a node's member, if it stands in the table.
    pub fn find(&self, node: u16) -> Option<u16>
        ensures { result ≡ place_of self.now.table.items node }
    {
        match self.table.get(node as usize) {
            Some(place) => *place,
            None => None,
        }
    }

    /// Enters the place of a node's member.
    pub fn put(&mut self, node: u16, place: u16)
        requires { node < length self.old.table.items }
        ensures { self.new.table.items ≡ slice_set self.old.table.items node (Some place) }
    {
        self.table[node as usize] = Some(place);
    }
}
