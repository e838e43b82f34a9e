// Paths in a tree, by the parents of its members.
ghost use Rattle.std.specs.Prelude.{◌≡◌, ◌↔◌, None, Some, IfOk, IsTrue};
ghost use Rattle.distances.specs.Workspace.{reached_of};
ghost use Rattle.single_route.specs.ListedLines.{AreParentsBefore, HasMember, HasOneRoot, IsFork, IsLine, IsListedPath};

use distances::Linked;
use std::alloc::{AllocError, Global};

/// Whether what is above is this node.
fn is_node(above: Option<u16>, node: u16) -> bool
    ensures { IsTrue result ↔ (above ≡ Some node) }
{
    match above {
        Some(other) => other == node,
        None => false,
    }
}

/// A node and all that is above it in a tree, up to the root. The members are gone over once, from the last to the first: what
/// is above a member stands before it.
fn line_up(alloc: Global, members: &[Linked], node: u16) -> Result<Vec<u16>, AllocError>
    requires before { AreParentsBefore (reached_of members.now) }
    requires member { HasMember node (reached_of members.now) }
    ensures { IfOk result (λ line. IsLine (reached_of members.now) (Some node) line.items None) }
{
    let mut line = Vec::new(alloc);
    let mut above = Some(node);
    let mut left = members;
    while let Some((member, before)) = left.split_last() {
        left = before;
        if !is_node(above, member.reached.node) {
            continue;
        }
        line.push(member.reached.node)?;
        above = member.reached.parent;
    }
    Ok(line)
}

/// Two lists without what they end with both, and the first node of that.
#[derive(Clone, Copy)]
struct Fork<'a> {
    up: &'a [u16],
    at: Option<u16>,
    down: &'a [u16],
}

/// Where two lines to the root come together.
fn fork_of<'a>(up: &'a [u16], down: &'a [u16]) -> Fork<'a>
    ensures { IsFork up.now down.now result.up.now result.down.now result.at }
{
    let mut fork = Fork { up, at: None, down };
    while let Some((above, up_left)) = fork.up.split_last() {
        let Some((below, down_left)) = fork.down.split_last() else {
            break;
        };
        if above != below {
            break;
        }
        fork = Fork {
            up: up_left,
            at: Some(*above),
            down: down_left,
        };
    }
    fork
}

/// The path in a tree from one of its members to another: up to the first node that is above both, and down.
pub(crate) fn path_between(
    alloc: Global,
    members: &[Linked],
    from: u16,
    to: u16,
) -> Result<Vec<u16>, AllocError>
    requires before { AreParentsBefore (reached_of members.now) }
    requires one_root { HasOneRoot (reached_of members.now) }
    requires from { HasMember from (reached_of members.now) }
    requires to { HasMember to (reached_of members.now) }
    ensures { IfOk result (λ path. IsListedPath (reached_of members.now) from to path.items) }
{
    let up = line_up(alloc, members, from)?;
    let down = line_up(alloc, members, to)?;
    let fork = fork_of(&up, &down);
    let Some(at) = fork.at else { unreachable!() };
    let mut path = Vec::from_slice(alloc, fork.up)?;
    path.push(at)?;
    let mut back = Vec::from_slice(alloc, fork.down)?;
    back.reverse();
    path.extend_from_slice(&back)?;
    Ok(path)
}
