// Bytes that were tested.
ghost use Rattle.std.specs.Prelude.{◌≡◌, ◌≢◌, IfErr, IfOk, slice_get};
ghost use Rattle.router_table.specs.Handing.{hopped, launched};
ghost use Rattle.router_table.specs.Refusals.{IsRefusedFor};
ghost use Rattle.router_table.specs.Spelling.{SpellsTable};
ghost use Rattle.router_table.specs.Table.{Table, address_of};
ghost use Rattle.router_table.specs.declared.refused.ReadRefused.TheVariants.{Memory};
ghost use Rattle.table_view.specs.Answers.{IsHop, IsLaunch, OfTable, SpellSome, figures_of};

use crate::answers::{Figures, address_in, figures_in, neighbour_in};
use crate::hops::{Hop, hop_in};
use crate::in_bytes::{hop_bytes, launch_bytes};
use crate::launches::launch_in;
use crate::order::is_body;
use crate::refused::BytesRefused;
use router_table::{ReadRefused, body_of};
use schemes::{Address, Move, Packet, Refused};
use std::marker::Model;

/// The bytes of a table in order. Contracts see the bytes, and speak of the one table that they spell.
#[derive(Drop)]
pub struct TableView<'a> {
    bytes: &'a [u8],
}

impl<'a> Model for TableView<'a> {
    ghost use Rattle.std.specs.Prelude.{ℕ, List};
    ghost use Rattle.table_view.specs.Answers.{SpellSome};

    ghost Value = { List ℕ };

    ghost view = { λ v. v.bytes.now };

    ghost invariant = { λ v. SpellSome v.bytes.now };
}

impl<'a> TableView<'a> {
    /// A view of the table that bytes spell, or the first thing that is wrong with them. It takes no memory.
    pub fn read(bytes: &'a [u8]) -> Result<TableView<'a>, ReadRefused>
        ensures view { IfOk result (λ view. view ≡ bytes.now) }
        ensures read { IfOk result (λ view. (a : Table) × SpellsTable bytes.now a) }
        ensures refused { IfErr result (IsRefusedFor bytes.now) }
        ensures no_memory { IfErr result (λ e. e ≢ Memory) }
    {
        let body = body_of(bytes)?;
        if !is_body(body) {
            return Err(ReadRefused::NotInOrder);
        }
        Ok(TableView { bytes })
    }

    /// A view of bytes that were tested.
    pub(crate) fn tested(bytes: &'a [u8]) -> TableView<'a>
        requires { SpellSome bytes.now }
        ensures { result ≡ bytes.now }
    {
        TableView { bytes }
    }

    /// The bytes.
    pub fn bytes(&self) -> &[u8]
        ensures { result.now ≡ self.now }
    {
        self.bytes
    }

    /// Who the router is, and how much its table has.
    pub fn figures(&self) -> Figures
        ensures { OfTable self.now (λ a. result ≡ figures_of a) }
    {
        match figures_in(self.bytes) {
            Some(figures) => figures,
            None => unreachable!(),
        }
    }

    /// The neighbour behind a port.
    pub fn neighbour(&self, port: usize) -> Option<u16>
        ensures { OfTable self.now (λ a. result ≡ slice_get a.ports port) }
    {
        match neighbour_in(self.bytes, port) {
            Some(neighbour) => neighbour,
            None => unreachable!(),
        }
    }

    /// Where the router is to be found.
    pub fn address(&self) -> Address
        ensures { OfTable self.now (λ a. result ≡ address_of a.head) }
    {
        match address_in(self.bytes) {
            Some(address) => address,
            None => unreachable!(),
        }
    }

    /// The packet that the router sends to an address.
    pub fn launch(&self, to: &Address) -> Result<Packet, Refused>
        ensures { OfTable self.now (λ a. result ≡ launched a to.now) }
    {
        match launch_in(self.bytes, to) {
            Some(launched) => launched,
            None => unreachable!(),
        }
    }

    /// What the router does with a packet.
    pub fn hop(&self, packet: &Packet) -> Result<Move, Refused>
        ensures { OfTable self.now (λ a. result ≡ hopped a packet.now) }
    {
        match hop_in(self.bytes, packet) {
            Some(moved) => moved,
            None => unreachable!(),
        }
    }

    /// Writes the packet that the router sends to the address that bytes spell. What is refused leaves `out` as it was.
    pub fn launch_bytes(&self, to: &[u8], out: &mut [u8]) -> Result<(), BytesRefused>
        ensures { IsLaunch self.now to.now out.old out.new result }
    {
        launch_bytes(self.bytes, to, out)
    }

    /// What the router does with the packet that bytes spell. One that goes on is written to `out`; else `out` stays as it was.
    pub fn hop_bytes(&self, packet: &[u8], out: &mut [u8]) -> Result<Hop, BytesRefused>
        ensures { IsHop self.now packet.now out.old out.new result }
    {
        hop_bytes(self.bytes, packet, out)
    }
}
