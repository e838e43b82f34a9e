//! Route trees: the tree that the parents of its members give, under any allocator.
//!
//! A tree comes as a list of [`Member`]s, the root first and each other member behind its parent,
//! as a search from the root finds them. [`RouteTree::grow`] makes the tree of that list from the
//! farthest member up, in time linear in the members but for the sorting of children. Under each
//! member the heavy child stands first, that is the child with most members, ties to the smaller
//! node, and the others follow by ascending node. So the tree is a function of the members alone.
//!
//! A contract sees a tree as a `Tree` of `specs/Rose.antt`: a node, its two ports, and the forest
//! below it. The layer above rests on one contract:
//!
//! - `grow` gives the tree that `subtrees` defines, in which the members stand, each once, with
//!   their parents and ports (`each_once`);
//! - each `RouteTree` keeps `IsRouteTree`, which [`RouteTree::root`] hands out: a root without
//!   ports, both ports at each other member, the heavy child first below each, and no more than
//!   [`MOST_MEMBERS`] members.
//!
//! Want of memory is the only refusal. What a refused call took, it has given back.
//!
//! ```rust
//! fn star(alloc: Global) -> Result<Option<RouteTree<Global>>, AllocError> {
//!     let root = Member { node: 7, parent: None, up: None, down: None };
//!     let leaf = Member { node: 3, parent: Some(7), up: Some(0), down: Some(0) };
//!     let members = [root, leaf];
//!     if !are_members(alloc, &members)? {
//!         return Ok(None);
//!     }
//!     Ok(Some(RouteTree::grow(alloc, 7, &members)?))
//! }
//! ```
//!
//! A tree can't outlive its arena's reset: a twig that is used past it is refused as `borrow-e0502`
//! (cannot borrow `arena` as mutable because it is also borrowed as immutable).
//!
//! ```text
//! let tree = RouteTree::grow(&arena, 7, &members)?;
//! let twig = tree.root();
//! let reset = arena.reset();      // refused here
//! let node = twig.node();
//! ```
#![tactic(auto)]

mod growth;
mod heavy;
mod member;
mod places;
mod route_tree;
mod twig;

pub use growth::parent_place;
pub use member::{MOST_MEMBERS, Member, are_members};
pub use places::table_of;
pub use route_tree::RouteTree;
pub use twig::Twig;
