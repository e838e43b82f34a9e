//! Landmarks: the nodes whose random word lies below a bound.
//!
//! A compact routing scheme keeps one tree for each landmark, so there should be few of them, and
//! each node should have one near. Drawing each node by its own word, with chance 1 / q where q is
//! the square root of the number of nodes rounded up, gives both (Thorup and Zwick, Compact Routing
//! Schemes). The words are handed in: this crate draws nothing, so the same words give the same
//! landmarks.
//!
//! The contract that the layers above use is that of [`choose`]: node v is a landmark
//! exactly when its word is below [`bound`].
//!
//! ```text
//! let landmarks = choose(alloc, 3, &[u64::MAX, 0, u64::MAX])?;
//! landmarks.holds(1)      // true
//! landmarks.count()       // 1
//! ```
#![tactic(auto)]

mod landmarks;
mod near;

pub use landmarks::{Landmarks, bound, choose};
pub use near::Near;
