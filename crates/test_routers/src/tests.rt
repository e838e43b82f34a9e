// What the tests share: networks, schemes and their tables; and a table by the digits of its bytes.
use input_lines::{LONGEST_LINE, NextLine, next_line};
use packet_bytes::{ADDRESS_SIZE, PACKET_SIZE, Wire};
use rand_core::{Rng, SeedableRng};
use rand_xoshiro::Xoshiro256PlusPlus;
use router_lines::{Answer, LoadRefused, Shelf, asked_in};
use router_table::{ReadRefused, RouterTable};
use sample_networks::{
    Edge, PAIRS, PATH, RING, TRIANGLE, drawn_edges, drawn_nodes, graph_of, words_at,
};
use scheme_builds::scheme_of;
use schemes::{Address, CarryRefused, Move, NodeRows, Packet, Refused, Scheme, Trail};
use sha2::{Digest, Sha256};
use std::alloc::{AllocError, AllocGlobal, Global};
use std::fmt::Debug;
use std::io::{self, BufRead, BufReader, ErrorKind, Read};
use std::process::Abort;
use table_view::{
    BytesRefused, Hop, TableFile, TableView, address_bytes, address_in, figures_in, hop_bytes,
    hop_in, launch_bytes, launch_in, neighbour_in,
};

mod changed;
mod lines;
mod shelves;
mod untested;
mod ways;

// What a test stands on: what ends it, and memory.
trait Host: Abort + AllocGlobal {}

impl<R: Abort + AllocGlobal> Host for R {}

// The value of an answer that has to have one.
fn got<T, E: Drop>(rt: &impl Abort, answer: Result<T, E>) -> T {
    match answer {
        Ok(value) => value,
        Err(_) => panic!(rt; "no value"),
    }
}

// Sees that two values are the same.
fn same<T: Copy + PartialEq + Debug>(rt: &impl Abort, found: T, want: T, name: &str) {
    assert_eq!(rt; found, want, "{name}");
}

// What stands at a place.
fn nth<'a, T>(rt: &impl Abort, list: &'a [T], place: usize) -> &'a T {
    got(rt, list.get(place).ok_or("too short"))
}

// The answer of a call, which is made again where memory was refused.
fn again<T, F: FnMut() -> Result<T, AllocError>>(rt: &impl Abort, mut call: F) -> T
    requires { F.IsAlwaysCallable call }
{
    match call() {
        Ok(answer) => answer,
        Err(_) => got(rt, call()),
    }
}

// The last node of the path 0, 1, 2, 3, 4 of edges of weight 1 with the landmark 2, from docs/FORMATS.md; conformance/table_bytes.txt has
// all bytes of its table of generation 7. In hex: 5 nodes, and which it is; then its address behind the generation, with the light port 1
// of node 2; one port, to 3; in the tree of 2 it has number 4 behind one light edge, in that of 3 number 1, in its own number 0; it lists
// itself.
const LAST: (&str, &str) = (
    "00050004",
    "00040100020004010001000000000000000000000000000000000000000000000000000100030003\
     00020004000400040000ffff0100030001000100010000ffff000004000000000000ffffffff0000010004000000",
);

fn table_once(
    alloc: Global,
    generation: u64,
    (node, rest): (&str, &str),
) -> Result<Vec<u8>, AllocError> {
    let text = format!(in alloc; "545a5441424c3031{generation:016x}{node}{generation:016x}{rest}")?;
    let Ok(mut bytes) = hex::decode(alloc, text.as_str()) else {
        return Err(AllocError);
    };
    let digest = Sha256::digest(bytes.as_slice());
    bytes.extend_from_slice(&digest)?;
    Ok(bytes)
}

// The bytes of a table: its letters and version, its generation, these digits of the number of nodes and the node, the generation again,
// these digits of all behind it, and the digest. It is made again where memory is refused.
fn table_bytes(rt: &impl Host, generation: u64, parts: (&str, &str)) -> Vec<u8> {
    again(rt, || table_once(rt.alloc(), generation, parts))
}

// The scheme of these edges with these landmarks.
fn scheme_at(rt: &impl Host, nodes: u16, edges: &[Edge], at: &[u16]) -> Scheme {
    let alloc = rt.alloc();
    let graph = got(rt, graph_of(alloc, nodes, edges));
    let words = got(rt, words_at(alloc, nodes, at));
    got(rt, scheme_of(alloc, &graph, &words, 7, alloc))
}

// The tables of all nodes, written.
fn files_of(rt: &impl Host, scheme: &Scheme) -> Vec<Vec<u8>> {
    let mut files = Vec::new(rt.alloc());
    for node in 0..scheme.parts().nodes {
        let table = got(rt, RouterTable::of(rt.alloc(), scheme, node));
        got(rt, files.push(got(rt, table.write(rt.alloc()))));
    }
    files
}

// The tables of a ring of nine nodes, written.
fn ring_files(rt: &impl Host) -> Vec<Vec<u8>> {
    files_of(rt, &scheme_at(rt, 9, &RING, &[2, 6]))
}

// The table that bytes spell.
fn read(rt: &impl Host, bytes: &[u8]) -> RouterTable {
    got(rt, RouterTable::read(rt.alloc(), bytes))
}

// The same bytes, but for one of which these bits are turned.
fn turned(rt: &impl Host, bytes: &[u8], at: usize, bits: u8) -> Vec<u8> {
    let mut other = got(rt, Vec::from_slice(rt.alloc(), bytes));
    *got(rt, other.get_mut(at).ok_or("too short")) ^= bits;
    other
}
