//! Schemes of graphs by landmark words: built alone or in several threads, checked, and asked.
//!
//! Whoever routes in a graph needs its scheme by one word for each node: a word below the bound makes its node a landmark. Of words that are too many the first
//! count, and for words that are too few the greatest stands in ([`first_words`]), so any words will do.
//!
//! [`scheme_of`] chooses the landmarks and builds, in one call: the scheme keeps all rules, serves the graph, has exactly the landmarks that these words give, and
//! the generation that was handed in (`IsSchemeOf` of `specs/Schemes`).
//!
//! [`scheme_of_in_threads`] promises the same. The trees of the roots don't look at one another: so the roots are cut into ranges, each worker builds its range in a
//! thread of its own, and the ranges are joined in the order of the roots. Where no thread can be made, the caller builds that range itself. The tables are the
//! same, whatever the number of workers (a test holds it). [`scheme_in_threads`] takes landmarks, and has the contract of [`node_table::build`]. [`workers_here`]
//! says how many workers pay on this machine, and [`workers_for`] how many pay where there are so many processors.
//!
//! One worker builds a network of fewer than [`LEAST_SHARED`] nodes by [`node_table::build`], which grows each root's tree and drops it before the next.
//! [`scheme_of`], one worker in a larger network, and each range of several workers number members over lists, as [`node_table::build_by_lists`] does, in less time.
//! So no tree here is deeper than [`LEAST_SHARED`], and no call needs a large stack.
//!
//! [`scheme_of_in_turns`] builds the same beside threads that mustn't wait: before each root, others that wait for the worker's processor run.
//!
//! A range has 384 roots at most. In a larger network the workers build range after range, round by round, and what a round has built is joined before the next: so
//! beside the tables a build takes little memory, however large they are.
//!
//! ```text
//! let scheme = scheme_of(alloc, &graph, &[u64::MAX, 0], generation, &heap)?;
//! let workers = workers_here(rt, graph.nodes());
//! let scheme = scheme_of_in_threads(rt, alloc, &graph, &words, generation, workers)?;
//! ```
//!
//! # Queries
//!
//! [`carry_in`] carries a packet in a scheme: over a good trail where a walk is there, and it is unreachable where none is. [`check_scheme`] builds the scheme of
//! the graph by these words and checks it: it finds no fault, and counts exactly the landmarks that the words choose (`IsCheckAnswer`). What the build needs beside
//! the tables lies in a heap of the call's own, in threads one for each range, of [`SCRATCH_LEN`] bytes each; where that isn't enough the query answers that memory
//! has run out.
//!
//! ```text
//! let trail = carry_in(alloc, &graph, &scheme, 0, 4)?;                           // trail.nodes, trail.ports, trail.length
//! let checked = check_scheme(rt, alloc, &graph, &words, generation, workers)?;   // checked.landmarks, checked.fault
//! ```
#![tactic(auto)]

mod queries;
mod ranges;
mod scheme;
mod threads;
mod turns;
mod words;
mod workers;

pub use queries::{Checked, Route, carry_in, check_scheme};
pub use ranges::SCRATCH_LEN;
pub use scheme::scheme_of;
pub use threads::{scheme_in_threads, scheme_of_in_threads, scheme_of_in_turns};
pub use words::first_words;
pub use workers::{LEAST_SHARED, MOST_WORKERS, workers_for, workers_here};
