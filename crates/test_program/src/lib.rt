//! Tests of the programs' commands, on real files and on devices in memory, of a user's words, and of networks that become devices.
//!
//! There is nothing here but tests: so the crates below are proved once in the gate, and not again with their tests. What words, lines and bytes a
//! command takes and prints are steps of `conformance/`, its files, inputs and outputs that fail too. Here stands what no command shows: devices that
//! are held, devices in memory, the longest path, a table that is replaced while it is read, values that are read of words, and drawn networks, each
//! opened as a store and compared with a list of the test's own. Expected texts are those of docs/FORMATS.md.
#![tactic(auto)]

#[cfg(test)]
mod asked_for;
#[cfg(test)]
mod devices;
#[cfg(test)]
mod files;
#[cfg(test)]
mod helpers;
#[cfg(test)]
mod memory_devices;
#[cfg(test)]
mod networks;
#[cfg(test)]
mod printed;
#[cfg(test)]
mod read_words;
