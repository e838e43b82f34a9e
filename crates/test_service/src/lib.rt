//! Tests of the service, by what it prints: of a script, and of lines as they come.
//!
//! There is nothing here but tests: moments that a device, a gate or an output holds; lines of 64 sessions and long scripts, judged by a plain
//! network; the fewest and the most threads; each call of the device failing, and outputs that refuse; tables that are put while edits go on; a clock
//! that `metrics` goes by. Inputs and outputs of the program that fail are in conformance/faults.txt, and want of memory is in `./refuse-memory`.
#![tactic(auto)]

#[cfg(test)]
mod faults;
#[cfg(test)]
mod held;
#[cfg(test)]
mod helpers;
#[cfg(test)]
mod plain;
#[cfg(test)]
mod scripts;
#[cfg(test)]
mod sessions;
#[cfg(test)]
mod stage;
#[cfg(test)]
mod tables;
#[cfg(test)]
mod threads;
