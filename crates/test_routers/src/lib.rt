//! Tests of routers: their tables, views of them, shelves of them, and lines of an input.
//!
//! There is nothing here but tests. Sample and drawn networks: packets go from table to table for all pairs and are compared with `carry`
//! of the scheme, and each view with the `RouterTable` of the same bytes, by value and in bytes. Tables with a byte changed, with a digest
//! of their own or the old one, cut, or drawn; bytes that nobody tested; shelves of up to six generations, loaded in every order; lines
//! with each ending, as long as one may be and longer, of readers that give drawn pieces or fail at each call; and each refusal of memory.
//! Lines and their answers, ways, and files that are loaded or not are in conformance/routers.txt, router_tables.txt and table_bytes.txt.
#![tactic(auto)]

#[cfg(test)]
mod tests;
