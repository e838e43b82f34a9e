//! Tests of trees and labels, of schemes and their checker, of builds, routes, and the choice of landmarks.
//!
//! There is nothing here but tests: so the crates below are proved once in the gate, and not again with their tests. What is worked out
//! by hand stands in tables. What is drawn, or is large, is held against what knows nothing of the code that is tested:
//!
//! - steps by labels against ways that climb the parents (`numbers`);
//! - schemes against plain distances, and routes against both (`drawn`);
//! - [`certificate::check`] against a second checker, which is slow and plain, on schemes of which one drawn part is changed
//!   (`second_checker`, `changes`);
//! - chosen landmarks against a plain chooser, which counts every table anew for each landmark (`choices`).
//!
//! Trees, numbers and schemes are the same under each allocator, and schemes under each number of workers. `./refuse-memory` runs
//! `memory` with each allocation refused in turn, and with no thread to be had.
#![tactic(auto)]

#[cfg(test)]
mod changed;
#[cfg(test)]
mod changes;
#[cfg(test)]
mod choices;
#[cfg(test)]
mod drawn;
#[cfg(test)]
mod helpers;
#[cfg(test)]
mod memory;
#[cfg(test)]
mod numbers;
#[cfg(test)]
mod second_checker;
#[cfg(test)]
mod trees;
#[cfg(test)]
mod worked;
