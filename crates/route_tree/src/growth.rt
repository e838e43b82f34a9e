ghost use Rattle.std.specs.Prelude.{◌≡◌, ◌+◌, ◌++◌, ◌<◌, ◌≤◌, ◌∷◌, [], IfOk, OnOk, drop, length, slice_index_or, suc, take};
ghost use Rattle.route_tree.specs.Rose.{Tree, tree, of_list, count};
ghost use Rattle.route_tree.specs.Order.{ascending, HaveEachNodeOnce};
ghost use Rattle.route_tree.specs.Front.{heavy_to_front};
ghost use Rattle.route_tree.specs.Growth.{subtrees, first_or};
ghost use Rattle.route_tree.specs.Members.{AreMembers};
ghost use Rattle.route_tree.specs.declared.member.Member.{Member};
ghost use Rattle.route_tree.specs.Places.{HasPlaces};
ghost use Rattle.route_tree.specs.Slots.{IsHung, StandsAt, Waits};

use crate::heavy::heavy_first;
use crate::member::{MOST_MEMBERS, Member};
use crate::twig::Twig;
use std::alloc::{AllocError, Allocator};

/// The children that wait for their parents, a slot a member.
type Slots<A> = Vec<Vec<Twig<A>, A>, A>;

/// A slot for each member, with no children yet.
fn empty_slots<A: Allocator + Clone>(alloc: &A, members: &[Member]) -> Result<Slots<A>, AllocError>
    ensures { IfOk result (λ s. Waits members.now (length members.now) s.items) }
{
    let mut slots = Vec::new(alloc.clone()?);
    slots.reserve_exact(members.len())?;
    for _m in members {
        slots.push(Vec::new(alloc.clone()?))?;
    }
    Ok(slots)
}

/// The children in the order of a route tree.
fn in_order<A: Allocator>(mut children: Vec<Twig<A>, A>) -> Vec<Twig<A>, A>
    requires { HaveEachNodeOnce children.items }
    ensures { result.items ≡ heavy_to_front (ascending children.items) }
{
    heavy_first(children.as_mut_slice());
    children
}

/// A member's tree, once all its children are there.
fn close<A: Allocator>(member: Member, children: Vec<Twig<A>, A>) -> Twig<A>
    requires once { HaveEachNodeOnce children.items }
    requires few { count (of_list children.items) ≤ MOST_MEMBERS }
    ensures { result ≡ tree member.node member.up member.down (of_list (heavy_to_front (ascending children.items))) }
{
    Twig::new(member.node, member.up, member.down, in_order(children))
}

/// Where the parent of the member at `at` stands, by the table of places.
pub fn parent_place(places: &[u16], members: &[Member], at: usize) -> usize
    requires below_root { 0 < at }
    requires there { at < length members.now }
    requires members { AreMembers members.now }
    requires places { HasPlaces members.now places.now }
    ensures { (d : Member) → StandsAt members.now at (slice_index_or members.now at d).parent result }
{
    let Some(parent) = members[at].parent else {
        unreachable!()
    };
    places[parent as usize] as usize
}

/// A slot with a tree more. Most members have one child, so a slot has room for one at first.
fn put<A: Allocator>(slot: &mut Vec<Twig<A>, A>, twig: Twig<A>) -> Result<(), AllocError>
    ensures { OnOk result (slot.new.items ≡ slot.old.items ++ twig ∷ []) }
{
    if slot.is_empty() {
        slot.reserve_exact(1)?;
    }
    slot.push(twig)?;
    Ok(())
}

/// Puts a tree into its parent's slot, behind those that came before.
fn hang<A: Allocator>(slots: &mut Slots<A>, place: usize, twig: Twig<A>) -> Result<(), AllocError>
    requires { place < length slots.old.items }
    ensures { OnOk result (IsHung slots.old.items place twig slots.new.items) }
{
    put(&mut slots[place], twig)?;
    Ok(())
}

/// Takes the last of the slots.
fn take_last<A: Allocator>(slots: &mut Slots<A>, at: usize) -> Vec<Twig<A>, A>
    requires { length slots.old.items ≡ at + 1 }
    ensures value { result ≡ slice_index_or slots.old.items at result }
    ensures items { slots.new.items ≡ take at slots.old.items ++ drop (suc at) slots.old.items }
{
    let Some(children) = slots.pop() else {
        unreachable!()
    };
    children
}

/// Closes the tree of the last member that has a slot, and hangs it on its parent.
fn close_last<A: Allocator>(
    slots: &mut Slots<A>,
    places: &[u16],
    members: &[Member],
    at: usize,
) -> Result<(), AllocError>
    requires below_root { 0 < at }
    requires there { at < length members.now }
    requires members { AreMembers members.now }
    requires places { HasPlaces members.now places.now }
    requires waits { Waits members.now (at + 1) slots.old.items }
    ensures { OnOk result (Waits members.now at slots.new.items) }
{
    let children = take_last(slots, at);
    let twig = close(members[at], children);
    let place = parent_place(places, members, at);
    hang(slots, place, twig)?;
    Ok(())
}

/// The tree of the members, from the farthest up.
pub fn grown<A: Allocator + Clone>(
    alloc: A,
    members: &[Member],
    places: &[u16],
) -> Result<Twig<A>, AllocError>
    requires members { AreMembers members.now }
    requires places { HasPlaces members.now places.now }
    ensures { IfOk result (λ t. (d : Tree) → t ≡ first_or d (subtrees members.now)) }
{
    let mut slots = empty_slots(&alloc, members)?;
    let mut left = members.len();
    while left > 1 {
        left -= 1;
        close_last(&mut slots, places, members, left)?;
    }
    let children = take_last(&mut slots, 0);
    Ok(close(members[0], children))
}
