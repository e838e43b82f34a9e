//! Which nodes are good landmarks: so few, and so placed, that no router's table is large.
//!
//! A node's table has an entry for each landmark that reaches it, and one for each other node that is nearer to it than every landmark; and
//! its directory has a member for each node that is nearer to it than to every landmark (`clusters`). So a landmark shortens the tables
//! around it, and makes all tables of its part one entry longer, but for those that had an entry for it. The size of a table is the number
//! of its entries and members.
//!
//! A choice begins with the landmarks of a [`Start`]. As long as some table is larger than [`Limits::most_entries`], and fewer landmarks
//! stand than [`Limits::most`], the node with the largest table becomes a landmark too: of nodes whose tables are as large, the one whose
//! nearest nodes lie nearer, and then the smaller one. What stands then are the landmarks under which the largest table was smallest, and
//! then all tables together.
//!
//! # How it counts
//!
//! [`Balls::of`] finds, once for all starts and in threads, the nodes nearest to each node: so many that a node with one more is over the
//! limit. Which of them are nearer than every landmark is then one number a node. A new landmark is one search, of the nodes that are nearer to it than
//! to the landmarks before it; just their numbers fall, and the sizes of the tables that lose them. So no table is made, and nothing is
//! counted twice. A node that has more such nodes than its ball counts as over the limit ([`Measure::unknown`]), and the others as exact.
//!
//! # The contract
//!
//! [`choose_from`] and [`choose_best`]: the chosen are nodes of the network, each once and in ascending order, and no more than the limit
//! allows (`IsChoice` of `specs/Choices`). No clause says that a choice is good: that is counted, and tests hold the count against one that builds everything anew. Whoever
//! needs to know builds the scheme (`lab_landmarks`). The same words give the same choice, whatever the number of workers.
//!
//! ```text
//! let limit = default_limit(graph.nodes());
//! let limits = Limits { most_entries: limit, most: limit };
//! let balls = Balls::of(rt, alloc, &graph, limits.most_entries, workers)?;
//! let choice = choose_best(rt, alloc, &balls, &words, limits)?;
//! choice.nodes        // the landmarks
//! ```
#![tactic(auto)]

mod balls;
mod choices;
mod limits;
mod rows;
mod search;
mod starts;
mod tables;

pub use balls::Balls;
pub use choices::{Choice, choose_best, choose_from};
pub use limits::{Limits, default_limit};
pub use starts::Start;
pub use tables::Measure;
