//! One route in the time of three searches.
//!
//! A packet from one node to another goes in the tree of its own node, where the other is nearer to that than to any landmark, and
//! else in the tree of the landmark that is nearest to where it goes; in a tree it goes up to the first node that is above both,
//! and down again. That is what a scheme's tables come to, and none of them is needed to find one such trail: the nearest
//! landmarks, one or two trees of least distances and their parents give it. So a route takes three searches of the network and
//! memory for its nodes, however large the scheme would be. No tree lies on a stack, and no thread or heap of its own is needed.
//!
//! The contract that the layers above use is that of [`Routes::route`] (`IsAnswer` of `specs/Answers`): the answer is the trail under these landmarks (`IsTrailBetween` of `specs/LandmarkTrails`, which speaks of
//! walks and landmarks alone), a good trip; Unreachable comes only where no walk leads there, and NoNode exactly where a node is
//! none of the network's. That there is at most one such trail, and that every scheme that keeps all rules carries its packets
//! over it, are laws: [`trail_laws`].
//!
//! Many routes in one network share the search for the nearest landmarks, and the room of the other searches:
//!
//! ```text
//! let mut routes = Routes::new(alloc, &graph, &landmarks)?;
//! routes.route(0, 4)?     // Trail { nodes: 0 1 2 3 4, ports: .., length: 4 }
//! routes.route(3, 1)?
//! ```
#![tactic(auto)]

mod laws;
mod no_trail;
mod paths;
mod routes;
mod trees;
mod ways;

pub use laws::trail_laws;
pub use no_trail::NoTrail;
pub use routes::Routes;
