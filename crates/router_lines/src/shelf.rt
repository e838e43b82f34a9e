// The tables of a router's newest generations.
ghost use Rattle.std.specs.Prelude.{◌≡◌, ◌-◌, ◌<◌, ◌≤◌, ◌↔◌, ◌∷◌, [], IfErr, IfOk, IfSome, IsOk, IsTrue, OnErr, OnOk, length, slice_index_or};
ghost use Rattle.std.specs.List.{insert, remove};
ghost use Rattle.byte_forms.specs.Reading.{Finds};
ghost use Rattle.router_lines.specs.Shelves.{IsAt, IsLoaded, IsNotLoaded, IsNotPut, IsPlaceOf, IsPut, generations_of, place_in, table_in};
ghost use Rattle.router_lines.specs.Answers.{IsAnswerTo, IsForgotten, IsLoadedBy, moved_by, newest_address, sent_by};

use crate::answer::Answer;
use crate::line::Asked;
use arrayvec::ArrayVec;
use schemes::{Address, Packet};
use std::alloc::{AllocError, AllocFailed, Global};
use std::marker::Model;
use table_view::TableFile;
use thiserror::Error;

/// How many generations a router keeps.
pub const SHELF_SIZE: usize = 4;

/// Why a table isn't put on a shelf, in the order in which the cases are tested.
#[derive(Clone, Copy, Debug, PartialEq, Eq, Drop, Error)]
pub enum LoadRefused {
    /// It is the table of another node.
    #[error("other node")]
    OtherNode = 1,
    /// The shelf is full of newer generations.
    #[error("generation gone")]
    GenerationGone = 2,
    /// There was no memory for one table more.
    #[error("out of memory")]
    Memory = 3,
}

impl From<AllocFailed<TableFile>> for LoadRefused {
    ghost use Rattle.std.specs.Prelude.{◌≡◌};
    ghost use Rattle.router_lines.specs.declared.shelf.LoadRefused.TheVariants.{Memory as NoMemory};

    ghost from_gives = { λ _ e. e ≡ NoMemory };

    fn from(_failed: AllocFailed<TableFile>) -> LoadRefused {
        LoadRefused::Memory
    }
}

/// The tables of one node, one to four of them, the oldest first. Contracts see the node and the tables.
#[derive(Drop)]
pub struct Shelf {
    node: u16,
    tables: Vec<TableFile>,
}

impl Model for Shelf {
    ghost use Rattle.router_lines.specs.Shelves.{IsShelf, Shelf};

    ghost Value = { Shelf };

    ghost view = { λ s. record { node = s.node; tables = s.tables.items } };

    ghost invariant = { λ s. IsShelf (record { node = s.node; tables = s.tables.items }) };
}

/// How many tables, from the first on, are older than a generation.
fn place_of(tables: &[TableFile], generation: u64) -> usize
    ensures { IsPlaceOf tables.now generation result }
{
    let mut place = 0;
    while place < tables.len() && tables[place].figures().generation < generation {
        place += 1;
    }
    place
}

/// Whether the table at a place is of a generation.
fn is_at(tables: &[TableFile], place: usize, generation: u64) -> bool
    ensures { IsTrue result ↔ IsAt tables.now generation place }
{
    place < tables.len() && tables[place].figures().generation == generation
}

/// Puts a table in the place of one of the same generation.
fn put_for(tables: &mut Vec<TableFile>, place: usize, table: TableFile) -> Result<(), LoadRefused>
    requires { place < length tables.old.items }
    ensures loaded { OnOk result (tables.new.items ≡ insert (remove tables.old.items place) place table) }
    ensures done { IsOk result }
{
    let _replaced = tables.remove(place);
    tables.insert(place, table)?;
    Ok(())
}

/// Puts a table in between.
fn put_at(tables: &mut Vec<TableFile>, place: usize, table: TableFile) -> Result<(), LoadRefused>
    requires { place ≤ length tables.old.items }
    ensures loaded { OnOk result (tables.new.items ≡ insert tables.old.items place table) }
    ensures refused { IfErr result (λ e. e ≡ LoadRefused.Memory) }
    ensures unchanged { OnErr result (tables.new.items ≡ tables.old.items) }
{
    tables.insert(place, table)?;
    Ok(())
}

/// Puts a table in between, and takes the oldest away.
fn put_for_oldest(
    tables: &mut Vec<TableFile>,
    place: usize,
    table: TableFile,
) -> Result<(), LoadRefused>
    requires some { 0 < place }
    requires within { place ≤ length tables.old.items }
    ensures loaded { OnOk result (tables.new.items ≡ insert (remove tables.old.items 0) (place - 1) table) }
    ensures done { IsOk result }
{
    let _oldest = tables.remove(0);
    tables.insert(place - 1, table)?;
    Ok(())
}

/// Puts a table among those of a shelf.
#[tactic(auto, using(crate::proofs::Placing::put_same, crate::proofs::Placing::put_new, crate::proofs::Placing::put_full, crate::proofs::Placing::put_none))]
fn put(tables: &mut Vec<TableFile>, table: TableFile) -> Result<(), LoadRefused>
    requires { length tables.old.items ≤ SHELF_SIZE }
    ensures loaded { OnOk result (IsPut tables.old.items table tables.new.items) }
    ensures refused { IfErr result (IsNotPut tables.old.items table) }
    ensures unchanged { OnErr result (tables.new.items ≡ tables.old.items) }
{
    let generation = table.figures().generation;
    let place = place_of(tables.as_slice(), generation);
    if is_at(tables.as_slice(), place, generation) {
        return put_for(tables, place, table);
    }
    if tables.len() < SHELF_SIZE {
        return put_at(tables, place, table);
    }
    if place == 0 {
        return Err(LoadRefused::GenerationGone);
    }
    put_for_oldest(tables, place, table)
}

/// Where the table of a generation stands.
fn place_of_generation(tables: &[TableFile], generation: u64) -> Option<usize>
    ensures place { result ≡ place_in tables.now generation }
    ensures within { IfSome result (λ place. place < length tables.now) }
{
    tables
        .iter()
        .position(|table| table.figures().generation == generation)
}

/// The table of a generation.
fn table_of(tables: &[TableFile], generation: u64) -> Option<&TableFile>
    ensures { Finds (λ a. a.now) result (table_in tables.now generation) }
{
    for table in tables {
        if table.figures().generation == generation {
            return Some(table);
        }
    }
    None
}

impl Shelf {
    /// A shelf with one table. An `Err` means that memory was refused.
    #[tactic(auto, using(crate::proofs::Keeping::one_table))]
    pub fn new(alloc: Global, table: TableFile) -> Result<Shelf, AllocError>
        ensures { IfOk result (λ s. s ≡ record { node = table.head.node; tables = table ∷ [] }) }
    {
        let node = table.figures().node;
        let mut tables = Vec::with_capacity(alloc, SHELF_SIZE)?;
        tables.push(table)?;
        Ok(Shelf { node, tables })
    }

    /// Puts a table on the shelf: it replaces one of the same generation, and where the shelf is full the oldest goes. An `Err` leaves
    /// the shelf as it was.
    pub fn load(&mut self, table: TableFile) -> Result<(), LoadRefused>
        ensures loaded { OnOk result (IsLoaded self.old table self.new) }
        ensures refused { IfErr result (IsNotLoaded self.old table) }
        ensures unchanged { OnErr result (self.new ≡ self.old) }
    {
        if table.figures().node != self.node {
            return Err(LoadRefused::OtherNode);
        }
        put(&mut self.tables, table)
    }

    /// Tests the bytes of a file, and puts the table that they spell on the shelf.
    pub fn load_bytes(&mut self, bytes: Vec<u8>) -> Answer
        ensures { IsLoadedBy self.old bytes.items self.new result }
    {
        let table = match TableFile::read(bytes) {
            Ok(table) => table,
            Err(refused) => return Answer::NotRead(refused),
        };
        let generation = table.figures().generation;
        match self.load(table) {
            Ok(()) => Answer::Loaded(generation),
            Err(refused) => Answer::NotLoaded(refused),
        }
    }

    /// Forgets the table of a generation, unless it is the only one.
    #[tactic(auto, using(crate::proofs::Keeping::without_one))]
    pub fn forget(&mut self, generation: u64) -> Answer
        ensures { IsForgotten self.old generation self.new result }
    {
        let Some(place) = place_of_generation(self.tables.as_slice(), generation) else {
            return Answer::Gone;
        };
        if self.tables.len() == 1 {
            return Answer::OnlyTable;
        }
        let _forgotten = self.tables.remove(place);
        Answer::Dropped(generation)
    }

    /// What the router answers.
    pub fn answer(&self, asked: &Asked) -> Answer
        ensures { IsAnswerTo self.now asked.now result }
    {
        match asked {
            Asked::Address => Answer::Told(self.address()),
            Asked::Launch(to) => self.launch(to),
            Asked::Hop(packet) => self.hop(packet),
            Asked::Tables => Answer::Listed {
                node: self.node,
                generations: generations_in(self.tables.as_slice()),
            },
            Asked::Unread(refused) => Answer::Unread(*refused),
            Asked::NotUnderstood => Answer::NotUnderstood,
        }
    }

    /// Where the router is to be found, in its newest generation.
    fn address(&self) -> Address
        ensures { newest_address self.now.tables result }
    {
        last_table(self.tables.as_slice()).address()
    }

    /// The packet to an address, by the table of the address's generation.
    fn launch(&self, to: &Address) -> Answer
        ensures { result ≡ sent_by (table_in self.now.tables to.now.generation) to.now }
    {
        match table_of(self.tables.as_slice(), to.generation) {
            Some(table) => match table.launch(to) {
                Ok(packet) => Answer::Sent(packet),
                Err(refused) => Answer::NotCarried(refused),
            },
            None => Answer::Gone,
        }
    }

    /// What becomes of a packet, by the table of its generation.
    fn hop(&self, packet: &Packet) -> Answer
        ensures { result ≡ moved_by (table_in self.now.tables packet.now.generation) packet.now }
    {
        match table_of(self.tables.as_slice(), packet.generation) {
            Some(table) => match table.hop(packet) {
                Ok(moved) => Answer::Moved(moved),
                Err(refused) => Answer::NotCarried(refused),
            },
            None => Answer::Gone,
        }
    }
}

/// The newest of tables.
fn last_table(tables: &[TableFile]) -> &TableFile
    requires { 0 < length tables.now }
    ensures { result.now ≡ slice_index_or tables.now (length tables.now - 1) result.now }
{
    &tables[tables.len() - 1]
}

/// The generations of tables.
fn generations_in(tables: &[TableFile]) -> ArrayVec<u64, SHELF_SIZE>
    requires { length tables.now ≤ SHELF_SIZE }
    ensures { result.items ≡ generations_of tables.now }
{
    let mut generations = ArrayVec::new();
    for table in tables {
        generations.push(table.figures().generation);
    }
    generations
}
