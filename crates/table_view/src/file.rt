// The bytes of a table's file, kept.
ghost use Rattle.std.specs.Prelude.{◌≡◌, ◌≢◌, IfErr, IfOk};
ghost use Rattle.std.proofs.Props.{props};
ghost use Rattle.router_table.specs.Handing.{hopped, launched};
ghost use Rattle.router_table.specs.Refusals.{IsRefusedFor};
ghost use Rattle.router_table.specs.Spelling.{SpellsTable};
ghost use Rattle.router_table.specs.Table.{address_of};
ghost use Rattle.router_table.specs.declared.refused.ReadRefused.TheVariants.{Memory};
ghost use Rattle.table_view.specs.Answers.{figures_of};
ghost use Rattle.table_view.specs.Files.{Spelled, spelled_prop};

use crate::answers::Figures;
use crate::view::TableView;
use router_table::ReadRefused;
use schemes::{Address, Move, Packet, Refused};
use std::marker::Model;

/// The bytes of a table in order, which were tested once, as long as they are kept. Contracts see the table that they spell.
#[derive(Drop)]
pub struct TableFile {
    bytes: Vec<u8>,
    ghost spelled: { Spelled bytes.items } by { spelled_prop bytes.items (Prim.hlevel props) },
}

impl Model for TableFile {
    ghost use Rattle.router_table.specs.Table.{Table};

    ghost Value = { Table };

    ghost view = { λ file. file.spelled.0 };
}

impl TableFile {
    /// The table that bytes spell, or the first thing that is wrong with them. It takes no memory but theirs.
    pub fn read(bytes: Vec<u8>) -> Result<TableFile, ReadRefused>
        ensures read { IfOk result (SpellsTable bytes.items) }
        ensures refused { IfErr result (IsRefusedFor bytes.items) }
        ensures no_memory { IfErr result (λ e. e ≢ Memory) }
    {
        match TableView::read(bytes.as_slice()) {
            Ok(_) => Ok(TableFile { bytes }),
            Err(refused) => Err(refused),
        }
    }

    /// A view of the table.
    pub fn view(&self) -> TableView<'_>
        ensures { SpellsTable result self.now }
    {
        TableView::tested(self.bytes.as_slice())
    }

    /// Who the router is, and how much its table has.
    pub fn figures(&self) -> Figures
        ensures { result ≡ figures_of self.now }
    {
        self.view().figures()
    }

    /// Where the router is to be found.
    pub fn address(&self) -> Address
        ensures { result ≡ address_of self.now.head }
    {
        self.view().address()
    }

    /// The packet that the router sends to an address.
    pub fn launch(&self, to: &Address) -> Result<Packet, Refused>
        ensures { result ≡ launched self.now to.now }
    {
        self.view().launch(to)
    }

    /// What the router does with a packet.
    pub fn hop(&self, packet: &Packet) -> Result<Move, Refused>
        ensures { result ≡ hopped self.now packet.now }
    {
        self.view().hop(packet)
    }
}
