// How large the tables of a scheme are.
ghost use Rattle.std.specs.Prelude.{◌≡◌, IfOk, count_by};
ghost use Rattle.lab_landmarks.specs.Sizes.{directory_bytes, directory_lengths as lengths_of_directories, entry_counts as counts_of_entries, kept, listed_bytes, table_bytes, table_lengths as lengths_of_tables, table_size as size_in, IsGreatestSize};

use schemes::{Listed, Scheme};
use std::alloc::{AllocError, Global};

// How many bytes of a table an entry takes: its root and its place in the root's tree.
const ENTRY_LEN: u64 = 13;

// How many bytes a member of a directory takes, but for the ports of its label.
const MEMBER_LEN: u64 = 8;

// How many bytes a port takes.
const PORT_LEN: u64 = 2;

/// How many landmarks a scheme has.
pub(crate) fn landmark_count(scheme: &Scheme) -> usize
    ensures { result ≡ count_by (λ flag. flag) scheme.now.landmarks.items }
{
    scheme
        .parts()
        .landmarks
        .iter()
        .filter(|flag| **flag)
        .count()
}

/// How many entries each node has, in the order of the nodes.
pub(crate) fn entry_counts(alloc: Global, scheme: &Scheme) -> Result<Vec<u64>, AllocError>
    ensures { IfOk result (λ counts. counts.items ≡ counts_of_entries scheme.now) }
{
    let mut counts = Vec::with_capacity(alloc, scheme.parts().nodes as usize)?;
    for node in 0..scheme.parts().nodes {
        counts.push(scheme.entries_of(node).len() as u64)?;
    }
    Ok(counts)
}

/// How many members the directory of each node has, in the order of the nodes.
pub(crate) fn directory_lengths(alloc: Global, scheme: &Scheme) -> Result<Vec<u64>, AllocError>
    ensures { IfOk result (λ lengths. lengths.items ≡ lengths_of_directories scheme.now) }
{
    let mut lengths = Vec::with_capacity(alloc, scheme.parts().nodes as usize)?;
    for node in 0..scheme.parts().nodes {
        lengths.push(scheme.directory_of(node).len() as u64)?;
    }
    Ok(lengths)
}

/// How many entries and members the largest table has, taken together.
pub(crate) fn greatest_size(scheme: &Scheme) -> u64
    ensures { IsGreatestSize scheme.now result }
{
    let mut greatest = 0;
    for node in 0..scheme.parts().nodes {
        greatest = u64::max(greatest, table_size(scheme, node));
    }
    greatest
}

fn table_size(scheme: &Scheme, node: u16) -> u64
    ensures { result ≡ size_in scheme.now node }
{
    let entries = scheme.entries_of(node).len();
    (entries + scheme.directory_of(node).len()) as u64
}

/// How many bytes the table of each node takes, in the order of the nodes. One past a u64 stays at the greatest.
pub(crate) fn table_lengths(alloc: Global, scheme: &Scheme) -> Result<Vec<u64>, AllocError>
    ensures { IfOk result (λ lengths. lengths.items ≡ lengths_of_tables scheme.now) }
{
    let mut lengths = Vec::with_capacity(alloc, scheme.parts().nodes as usize)?;
    for node in 0..scheme.parts().nodes {
        lengths.push(table_length(scheme, node))?;
    }
    Ok(lengths)
}

fn table_length(scheme: &Scheme, node: u16) -> u64
    ensures { result ≡ kept (table_bytes scheme.now node) }
{
    let entries = (scheme.entries_of(node).len() as u64).saturating_mul(ENTRY_LEN);
    entries.saturating_add(directory_length(scheme.directory_of(node)))
}

fn directory_length(directory: &[Listed]) -> u64
    ensures { result ≡ kept (directory_bytes directory.now) }
{
    let mut length: u64 = 0;
    for listed in directory {
        length = length.saturating_add(listed_length(listed));
    }
    length
}

fn listed_length(listed: &Listed) -> u64
    ensures { result ≡ listed_bytes listed.now }
{
    MEMBER_LEN + PORT_LEN * listed.label.lights().len() as u64
}
