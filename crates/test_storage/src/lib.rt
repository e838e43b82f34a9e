//! Tests of storage: disks, journals, devices of both layouts, stores and desks.
//!
//! There is nothing here but tests: so the crates below are proved once in the gate, and not again with their tests. Disks in memory fail
//! and stop where a plan says, and crash to images whose bytes another program dealt. Each call of a format, an opening, a roll, a
//! migration, a backup and a commit that rolls fails and stops in turn, under five crash words. Journals are filled to their last byte, and
//! devices are spoilt byte by byte: what is read of them is what a slow reader reads, which is written from docs/FORMATS.md alone. What a
//! crash leaves of a commit without a roll is in conformance/crashes.txt.
#![tactic(auto)]

#[cfg(test)]
mod tests;
