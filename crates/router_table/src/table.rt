ghost use Rattle.std.specs.Prelude.{◌≡◌, IfErr, IfOk, MatchOption, MatchResult, Ok, map};
ghost use Rattle.schemes.specs.Service.{address_given, decide as packet_given, node_step as move_given};
ghost use Rattle.schemes.specs.Tables.{Tables, tables};
ghost use Rattle.router_table.specs.Fields.{table_of};
ghost use Rattle.router_table.specs.Handing.{hopped, launched};
ghost use Rattle.router_table.specs.Order.{IsTable};
ghost use Rattle.router_table.specs.Refusals.{IsFieldsAt, IsNoFields, IsRefusedFor, IsTableRefused};
ghost use Rattle.router_table.specs.Spelling.{SpellsTable};
ghost use Rattle.router_table.specs.Table.{IsTableOf, address_of, shown, table_at, tree_entry};

use crate::fields::Fields;
use crate::form::body_of;
use crate::head::Head;
use crate::reading::fields_of;
use crate::refused::{ReadRefused, TableRefused};
use crate::search::find;
use crate::tree_entry::TreeEntry;
use crate::writing::{address_in, bytes_of};
use heavy_labels::{Label, Record};
use schemes::{
    Address, Entry, Listed, Move, NodeRows, Packet, Refused, Scheme, move_from, packet_from,
};
use std::alloc::{AllocError, Global};
use std::marker::Model;

/// What one node keeps of a generation, in order. Contracts see its head and its lists.
#[derive(Drop)]
pub struct RouterTable {
    fields: Fields,
}

impl Model for RouterTable {
    ghost use Rattle.router_table.specs.Fields.{table_of};
    ghost use Rattle.router_table.specs.Order.{IsTable};
    ghost use Rattle.router_table.specs.Table.{Table};

    ghost Value = { Table };

    ghost view = { λ a. table_of a.fields };

    ghost invariant = { λ a. IsTable (table_of a.fields) };
}

/// Entries without their distances and parents.
fn tree_entries(alloc: Global, entries: &[Entry]) -> Result<Vec<TreeEntry>, AllocError>
    ensures { IfOk result (λ all. all.items ≡ map tree_entry entries.now) }
{
    entries
        .iter()
        .map(|entry| TreeEntry {
            root: entry.root(),
            tree_record: entry.tree_record(),
        })
        .collect(alloc)
}

/// The same members with their labels.
fn members(alloc: Global, directory: &[Listed]) -> Result<Vec<Listed>, AllocError>
    ensures { IfOk result (λ all. all.items ≡ directory.now) }
{
    let mut all = Vec::with_capacity(alloc, directory.len())?;
    for listed in directory {
        all.push(Listed {
            node: listed.node,
            label: listed.label.copy(),
        })?;
    }
    Ok(all)
}

/// What a scheme has of a node.
fn fields_at(alloc: Global, scheme: &Scheme, node: u16) -> Result<Fields, TableRefused>
    ensures { MatchResult result (λ fields. IsFieldsAt scheme.now node (table_of fields)) (IsNoFields scheme.now node) }
{
    let Ok(address) = scheme.address(node) else {
        return Err(TableRefused::NoNode);
    };
    let ports = Vec::from_slice(alloc, scheme.ports_of(node))?;
    let entries = tree_entries(alloc, scheme.entries_of(node))?;
    let directory = members(alloc, scheme.directory_of(node))?;
    Ok(Fields {
        head: Head {
            generation: address.generation,
            nodes: scheme.parts().nodes,
            node,
            home: address.home,
        },
        ports,
        entries,
        directory,
    })
}

impl RouterTable {
    /// The table of a node.
    pub fn of(alloc: Global, scheme: &Scheme, node: u16) -> Result<RouterTable, TableRefused>
        ensures table { IfOk result (λ table. table ≡ table_at scheme.now node) }
        ensures same { IfOk result (λ table. IsTableOf (tables scheme.now) node table) }
        ensures refused { IfErr result (IsTableRefused scheme.now node) }
    {
        let fields = fields_at(alloc, scheme, node)?;
        match RouterTable::in_order(fields) {
            Some(table) => Ok(table),
            None => Err(TableRefused::NotInOrder),
        }
    }

    /// The table of these fields, where they are in order.
    fn in_order(fields: Fields) -> Option<RouterTable>
        ensures { MatchOption result (IsTable (table_of fields) → ⊥)
            (λ table. (table ≡ table_of fields) × IsTable table) }
    {
        if fields.are_in_order() {
            Some(RouterTable { fields })
        } else {
            None
        }
    }

    /// The table that bytes spell, or the first thing that is wrong with them.
    pub fn read(alloc: Global, bytes: &[u8]) -> Result<RouterTable, ReadRefused>
        ensures read { IfOk result (SpellsTable bytes.now) }
        ensures refused { IfErr result (IsRefusedFor bytes.now) }
    {
        let body = body_of(bytes)?;
        let fields = fields_of(alloc, body)?;
        match RouterTable::in_order(fields) {
            Some(table) => Ok(table),
            None => Err(ReadRefused::NotInOrder),
        }
    }

    /// The bytes of the table. An `Err` means that memory was refused.
    pub fn write(&self, alloc: Global) -> Result<Vec<u8>, AllocError>
        ensures { IfOk result (λ bytes. SpellsTable bytes.items self.now) }
    {
        bytes_of(alloc, &self.fields)
    }

    /// Who the router is.
    pub fn head(&self) -> &Head
        ensures { result.now ≡ self.now.head }
    {
        &self.fields.head
    }

    /// Where the router is to be found.
    pub fn address(&self) -> Address
        ensures address { result ≡ address_of self.now.head }
        ensures same { (t : Tables) → IsTableOf t self.now.head.node self.now
            → Ok result ≡ address_given t self.now.head.node }
    {
        address_in(&self.fields.head)
    }

    /// The packet that the router sends to an address.
    #[tactic(auto, using(crate::proofs::Handings::same_launch))]
    pub fn launch(&self, to: &Address) -> Result<Packet, Refused>
        ensures packet { result ≡ launched self.now to.now }
        ensures same { (t : Tables) → IsTableOf t self.now.head.node self.now
            → result ≡ packet_given t self.now.head.node to.now }
    {
        packet_from(self, to)
    }

    /// What the router does with a packet.
    #[tactic(auto, using(crate::proofs::Handings::same_hop))]
    pub fn hop(&self, packet: &Packet) -> Result<Move, Refused>
        ensures moved { result ≡ hopped self.now packet.now }
        ensures same { (t : Tables) → IsTableOf t self.now.head.node self.now
            → result ≡ move_given t self.now.head.node packet.now }
    {
        move_from(self, packet)
    }
}

impl NodeRows for RouterTable {
    ghost shown = { shown };

    ghost place = { λ a. a.head.node };

    fn nodes(&self) -> u16 {
        self.fields.head.nodes
    }

    fn generation(&self) -> u64 {
        self.fields.head.generation
    }

    fn node(&self) -> u16 {
        self.fields.head.node
    }

    fn tree_record(&self, root: u16) -> Option<Record> {
        match find(self.fields.entries.as_slice(), root) {
            Some(entry) => Some(entry.tree_record),
            None => None,
        }
    }

    fn label(&self, member: u16) -> Option<&Label> {
        match find(self.fields.directory.as_slice(), member) {
            Some(listed) => Some(&listed.label),
            None => None,
        }
    }

    fn over(&self, port: u16) -> Option<u16> {
        self.fields.ports.as_slice().get(port as usize).copied()
    }
}
