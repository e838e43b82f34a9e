//! Records and labels of a route tree, and one step by a label.
//!
//! A tree's members are numbered in preorder: a member first, then all below its heavy child (that of
//! the greatest size), then all below its other children by ascending node. Each member gets a
//! [`Record`] of six small fields and a [`Label`]: its number, and for each light edge between the root
//! and it that edge's port. A light edge halves the size at least, so a label has few ports: at most
//! [`MOST_LIGHTS`]. [`step`] sends whoever has a label one edge on by the record of the member where
//! they are (Thorup and Zwick, Compact Routing Schemes; the form of the record is this project's
//! profile).
//!
//! The contract that the layers above use is that of [`number`]: the records and labels are those of
//! the definition, and from any member the steps by any member's label follow the tree path between
//! the two, visit no member twice, and end with [`TreeStep::Arrived`]. [`number_members`] gives each
//! member the same record and label, in the order of the members, and makes no tree: it goes over a few
//! lists of numbers, by which member is whose parent and by ascending node, and nothing calls itself.
//! `AreNumbersOf` of `specs/Numbered` says what both list.
//!
//! ```text
//! let all = number(alloc, &tree)?;
//! match step(&all[0].tree_record, &all[4].label) {
//!     TreeStep::Arrived => ..,        // all[0] is all[4]
//!     TreeStep::Port(port) => ..,     // on by this port of all[0]
//!     TreeStep::NoParent => ..,       // never where both are of one tree
//!     TreeStep::NoLight => ..,        // never where both are of one tree
//! }
//! ```
#![tactic(auto)]

mod ahead;
mod by_node;
mod flat;
mod heavy_kids;
mod label;
mod measured_tree;
mod numbered_member;
mod preorder;
mod sizes;
mod tree_record;
mod tree_step;

pub use flat::number_members;
pub use label::{Label, MOST_LIGHTS};
pub use numbered_member::{Numbered, NumberedMember};
pub use preorder::number;
pub use tree_record::Record;
pub use tree_step::{TreeStep, step};
