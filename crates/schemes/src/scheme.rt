ghost use Rattle.std.specs.Prelude.{◌≡◌, ◌<◌, ◌≤◌, ◌^◌, ℕ, IfOk, length, slice_get};
ghost use Rattle.schemes.specs.Checks.{distance_of};
ghost use Rattle.schemes.specs.Laws.{AreTreesOf};
ghost use Rattle.schemes.specs.Ports.{index_of};
ghost use Rattle.schemes.specs.Service.{address_given, decide as packet_given, home_of, node_step as move_given, IsOfGeneration};
ghost use Rattle.schemes.specs.Tables.{AreAscending, RefersTo, entries_at, first_entry, first_listed, directory_at, nodes_of, roots_of, tables};

use crate::entry::Entry;
use crate::key_columns::KeyColumns;
use crate::packet::{Address, Home, Move, Packet, Refused};
use crate::parts::{Listed, Near, Parts};
use crate::rows::{RowsAt, move_from, packet_from};
use crate::search::{first_place, place_by_eighths, tables_ascend};
use heavy_labels::Label;
use std::alloc::{AllocError, Global};
use std::marker::Model;

/// A scheme: its tables, and whether they can be searched by halving. The roots by which entries are searched stand apart in a scheme
/// that was built; all else is searched in the tables. Contracts see the tables.
#[derive(Drop)]
pub struct Scheme {
    parts: Parts,
    apart: Option<KeyColumns>,
    ascending: bool,
}

impl Model for Scheme {
    ghost use Rattle.std.specs.Prelude.{◌↔◌, IfSome, IsTrue};
    ghost use Rattle.schemes.specs.declared.parts.Parts.{Parts};
    ghost use Rattle.schemes.specs.Apart.{AreApart};
    ghost use Rattle.schemes.specs.Tables.{AreAscending};

    ghost Value = { Parts };

    ghost view = { λ s. s.parts };

    ghost invariant = { λ s. (IsTrue s.ascending ↔ AreAscending s.parts) × IfSome s.apart (λ a. AreApart s.parts a) };
}

impl Scheme {
    /// A scheme of any tables. Whether they ascend is found here, once.
    pub fn assemble(parts: Parts) -> Scheme
        ensures { result ≡ parts }
    {
        let ascending = tables_ascend(&parts);
        Scheme {
            parts,
            apart: None,
            ascending,
        }
    }

    /// A scheme of any tables, with the numbers that it is searched by apart. An `Err` means that memory was refused.
    pub fn with_numbers_apart(alloc: Global, parts: Parts) -> Result<Scheme, AllocError>
        ensures { IfOk result (λ scheme. scheme ≡ parts) }
    {
        let mut scheme = Scheme::assemble(parts);
        scheme.apart = Some(KeyColumns::of(alloc, &scheme.parts)?);
        Ok(scheme)
    }

    /// The tables.
    pub fn parts(&self) -> &Parts
        ensures { result.now ≡ self.now }
    {
        &self.parts
    }

    /// The place of a node's first entry for a root, and how many entries were looked at.
    fn place_of_entry(&self, x: u16, root: u16) -> (Option<usize>, u32)
        ensures place { result.0 ≡ index_of root (roots_of (entries_at self.now x)) }
        ensures some { AreAscending self.now → 0 < length (entries_at self.now x) → 0 < result.1 }
        ensures few { AreAscending self.now → (k : ℕ) → length (entries_at self.now x) < 2 ^ k → result.1 ≤ k }
    {
        let entries = self.entries_of(x);
        match &self.apart {
            Some(apart) if self.ascending => place_by_eighths(entries, apart.roots_at(x), root),
            _ => first_place(entries, root, self.ascending),
        }
    }

    /// The place of a node's first label in a directory.
    fn place_of_label(&self, u: u16, v: u16) -> Option<usize>
        ensures { result ≡ index_of v (nodes_of (directory_at self.now u)) }
    {
        let (place, _) = first_place(self.directory_of(u), v, self.ascending);
        place
    }

    /// In how many trees a node has an entry.
    pub fn entries(&self, x: u16) -> usize
        requires { x < self.now.nodes }
        ensures count { result ≡ length (entries_at self.now x) }
        ensures trees { AreTreesOf self.now x result }
    {
        self.entries_of(x).len()
    }

    /// The place of a node's first entry for a root, and how many entries were looked at.
    pub fn find(&self, x: u16, root: u16) -> (Option<usize>, u32)
        requires { x < self.now.nodes }
        ensures place { result.0 ≡ index_of root (roots_of (entries_at self.now x)) }
        ensures some { AreAscending self.now → 0 < length (entries_at self.now x) → 0 < result.1 }
        ensures few { AreAscending self.now → (k : ℕ) → length (entries_at self.now x) < 2 ^ k → result.1 ≤ k }
    {
        self.place_of_entry(x, root)
    }

    /// A node's first entry for a root.
    #[tactic(auto, using(crate::proofs::Basics::Searches::root_within, crate::proofs::Basics::Searches::entry_found, crate::proofs::Basics::Searches::entry_missing))]
    pub fn entry(&self, x: u16, root: u16) -> Option<&Entry>
        ensures { RefersTo (first_entry root (entries_at self.now x)) result }
    {
        let (place, _) = self.place_of_entry(x, root);
        match place {
            Some(i) => Some(&self.entries_of(x)[i]),
            None => None,
        }
    }

    /// A node's distance from a root, 0 where it has no entry for it.
    pub(crate) fn distance(&self, x: u16, root: u16) -> u64
        ensures { result ≡ distance_of ((tables self.now).entry x root) }
    {
        match self.entry(x, root) {
            Some(entry) => entry.distance(),
            None => 0,
        }
    }

    /// A node's first label in a directory.
    #[tactic(auto, using(crate::proofs::Basics::Searches::node_within, crate::proofs::Basics::Searches::listed_found, crate::proofs::Basics::Searches::listed_missing))]
    pub fn listed(&self, u: u16, v: u16) -> Option<&Label>
        ensures { RefersTo (first_listed v (directory_at self.now u)) result }
    {
        match self.place_of_label(u, v) {
            Some(i) => Some(&self.directory_of(u)[i].label),
            None => None,
        }
    }

    /// The address of a node, under this scheme's generation.
    pub fn address(&self, v: u16) -> Result<Address, Refused>
        ensures { result ≡ address_given (tables self.now) v }
    {
        if v >= self.parts.nodes {
            return Err(Refused::NoNode);
        }
        Ok(Address {
            generation: self.parts.generation,
            node: v,
            home: self.home(v),
        })
    }

    /// A node's nearest landmark, and the node's label in its tree.
    fn home(&self, v: u16) -> Option<Home>
        ensures { result ≡ home_of ((tables self.now).nearest v) ((tables self.now).home v) }
    {
        let near = self.nearest(v)?;
        let label = self.home_label(v)?;
        Some(Home {
            landmark: near.landmark,
            label: label.copy(),
        })
    }

    /// The packet that a node sends to an address ([`packet_from`] of the node's rows).
    #[tactic(auto, using(crate::proofs::OnTheWay::Generations::decide_generation))]
    pub fn decide(&self, u: u16, address: &Address) -> Result<Packet, Refused>
        ensures packet { result ≡ packet_given (tables self.now) u address.now }
        ensures generation { IfOk result (λ packet. packet.generation ≡ self.now.generation) }
    {
        packet_from(&self.rows_at(u), address)
    }

    /// What a node does with a packet ([`move_from`] of the node's rows).
    #[tactic(auto, using(crate::proofs::OnTheWay::Generations::node_step_generation))]
    pub fn node_step(&self, x: u16, packet: &Packet) -> Result<Move, Refused>
        ensures moved { result ≡ move_given (tables self.now) x packet.now }
        ensures generation { IfOk result (IsOfGeneration packet.now.generation) }
    {
        move_from(&self.rows_at(x), packet)
    }

    /// The rows of a node.
    fn rows_at(&self, node: u16) -> RowsAt<'_>
        ensures scheme { result.scheme.now ≡ self.now }
        ensures node { result.node ≡ node }
    {
        RowsAt { scheme: self, node }
    }

    /// The node behind a port.
    pub(crate) fn over(&self, x: u16, port: u16) -> Option<u16>
        ensures { result ≡ (tables self.now).over x port }
    {
        match self.parts.ports.get(x as usize) {
            Some(ports) => port_at(ports.as_slice(), port),
            None => None,
        }
    }
}

fn port_at(ports: &[u16], port: u16) -> Option<u16>
    ensures { result ≡ slice_get ports.now port }
{
    let i = port as usize;
    if i < ports.len() {
        Some(ports[i])
    } else {
        None
    }
}
