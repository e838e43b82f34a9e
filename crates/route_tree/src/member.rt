ghost use Rattle.std.specs.Prelude.{◌≡◌, ◌<◌, ◌≤◌, ◌↔◌, IfOk, IsTrue, Some, None, length};
ghost use Rattle.route_tree.specs.Members.{AreMembers, IsNext, IsRoot, HasBoth};
ghost use Rattle.route_tree.specs.Places.{Finds};

use crate::places::Places;
use std::alloc::{AllocError, Allocator};

/// The most members that a tree may have: as many as there may be nodes. This project's profile.
pub const MOST_MEMBERS: usize = 16_384;

/// A member of a tree. The root has no parent and no ports, each other member has all three.
#[derive(Clone, Copy)]
pub struct Member {
    pub node: u16,
    pub parent: Option<u16>,
    /// The node's own port, towards its parent.
    pub up: Option<u16>,
    /// Its parent's port, towards the node.
    pub down: Option<u16>,
}

impl Member {
    fn is_root(&self) -> bool
        ensures { IsTrue result ↔ IsRoot self.now }
    {
        self.parent.is_none() && self.up.is_none() && self.down.is_none()
    }

    fn has_both(&self) -> bool
        ensures { IsTrue result ↔ HasBoth self.now }
    {
        self.up.is_some() && self.down.is_some()
    }
}

/// Whether the member at `at` may follow those before it.
fn is_next<A: Allocator>(places: &Places<A>, members: &[Member], at: usize) -> bool
    requires there { at < length members.now }
    requires finds { Finds members.now at places.now.table.items }
    ensures { IsTrue result ↔ IsNext members.now at }
{
    let member = members[at];
    if places.find(member.node).is_some() {
        return false;
    }
    if at == 0 {
        return member.is_root();
    }
    if !member.has_both() {
        return false;
    }
    match member.parent {
        Some(parent) => places.find(parent).is_some(),
        None => false,
    }
}

/// Whether these are the members of one tree, as [`crate::RouteTree::grow`] takes them: one to
/// [`MOST_MEMBERS`], no node twice, the root first, and each other behind its parent. It takes
/// linear time, and memory for a table of the nodes, which it gives back.
pub fn are_members<A: Allocator>(alloc: A, members: &[Member]) -> Result<bool, AllocError>
    ensures { IfOk result (λ b. IsTrue b ↔ AreMembers members.now) }
{
    if members.len() == 0 || members.len() > MOST_MEMBERS {
        return Ok(false);
    }
    let mut places = Places::empty(alloc, members)?;
    for i in 0..members.len() {
        if !is_next(&places, members, i) {
            return Ok(false);
        }
        places.put(members[i].node, i as u16);
    }
    Ok(true)
}
