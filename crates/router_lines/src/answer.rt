// What a router answers, and the line that is printed of it.
ghost use Rattle.std.specs.Prelude.{◌≡◌, ◌++◌, IfOk, OnOk, codes, decimal};
ghost use Rattle.std.specs.List.{flat_map};
ghost use Rattle.std.specs.String.{string_bytes};
ghost use Rattle.router_lines.specs.Answers.{answer_text, behind_comma, listed_text, load_text, read_text};

use crate::shelf::{LoadRefused, SHELF_SIZE};
use arrayvec::ArrayVec;
use itoa::Buffer;
use packet_bytes::{WireRefused, moved_text, packet_text, refused_name, told_text, unread_name};
use router_table::ReadRefused;
use schemes::{Address, Move, Packet, Refused};
use std::alloc::{AllocError, Global};

/// What a router answers to a line.
#[derive(Drop)]
pub enum Answer {
    /// Where the router is to be found.
    Told(Address),
    /// The packet that it sends.
    Sent(Packet),
    /// What becomes of a packet.
    Moved(Move),
    /// Why it sends no packet, or carries one no further.
    NotCarried(Refused),
    /// The packet's generation has no table here.
    Gone,
    /// What was to be launched or to hop has no spelling.
    Unread(WireRefused),
    /// The router's node, and the generations of its tables, the oldest first.
    Listed {
        node: u16,
        generations: ArrayVec<u64, SHELF_SIZE>,
    },
    /// The table of this generation was loaded.
    Loaded(u64),
    /// The table of this generation was dropped.
    Dropped(u64),
    /// The only table stays.
    OnlyTable,
    /// The bytes of a file are no table.
    NotRead(ReadRefused),
    /// A table isn't put on the shelf.
    NotLoaded(LoadRefused),
    /// A file can't be read.
    NoFile,
    /// The line asks for nothing that is known.
    NotUnderstood,
}

/// Why bytes are no table.
fn read_name(refused: ReadRefused) -> &'static str
    ensures { result.now ≡ read_text refused }
{
    match refused {
        ReadRefused::NoTable => "no table",
        ReadRefused::UnknownVersion => "version not known",
        ReadRefused::CutShort => "cut short",
        ReadRefused::TooLong => "too long",
        ReadRefused::Damaged => "damaged",
        ReadRefused::NotInOrder => "not in order",
        ReadRefused::Memory => "out of memory",
    }
}

/// Why a table isn't put on a shelf.
fn load_name(refused: LoadRefused) -> &'static str
    ensures { result.now ≡ load_text refused }
{
    match refused {
        LoadRefused::OtherNode => "other node",
        LoadRefused::GenerationGone => "generation gone",
        LoadRefused::Memory => "out of memory",
    }
}

/// Writes a number at the end.
fn put_number(text: &mut String, number: u64) -> Result<(), AllocError>
    ensures { OnOk result (string_bytes text.new ≡ string_bytes text.old ++ decimal number) }
{
    text.push_str(Buffer::new().format(number))
}

/// Writes a number behind a comma at the end.
fn put_behind_comma(text: &mut String, number: u64) -> Result<(), AllocError>
    ensures { OnOk result (string_bytes text.new ≡ string_bytes text.old ++ behind_comma number) }
{
    text.push_str(",")?;
    put_number(text, number)
}

/// Writes numbers behind a comma each at the end.
fn put_numbers(text: &mut String, numbers: &[u64]) -> Result<(), AllocError>
    ensures { OnOk result (string_bytes text.new ≡ string_bytes text.old ++ flat_map behind_comma numbers.now) }
{
    for number in numbers {
        put_behind_comma(text, *number)?;
    }
    Ok(())
}

/// Numbers with a comma between each two.
fn numbers_text(alloc: Global, numbers: &[u64]) -> Result<String, AllocError>
    ensures { IfOk result (λ text. string_bytes text ≡ listed_text numbers.now) }
{
    let Some((first, others)) = numbers.split_first() else {
        return Ok(String::new(alloc));
    };
    let mut text = first.to_string(alloc)?;
    put_numbers(&mut text, others)?;
    Ok(text)
}

impl Answer {
    /// The line of the answer. An `Err` means that memory was refused.
    pub fn text(&self, alloc: Global) -> Result<String, AllocError>
        ensures { IfOk result (λ text. string_bytes text ≡ answer_text self.now) }
    {
        match self {
            Answer::Told(address) => told_text(alloc, address),
            Answer::Sent(packet) => packet_text(alloc, packet),
            Answer::Moved(moved) => moved_text(alloc, moved),
            Answer::NotCarried(refused) => String::from_str(alloc, refused_name(*refused)),
            Answer::Gone => String::from_str(alloc, "generation gone"),
            Answer::Unread(refused) => String::from_str(alloc, unread_name(*refused)),
            Answer::Listed { node, generations } => {
                let numbers = numbers_text(alloc, generations.as_slice())?;
                format!(in alloc; "node={node} generations={numbers}")
            }
            Answer::Loaded(generation) => format!(in alloc; "generation={generation}"),
            Answer::Dropped(generation) => format!(in alloc; "dropped generation={generation}"),
            Answer::OnlyTable => String::from_str(alloc, "only generation"),
            Answer::NotRead(refused) => String::from_str(alloc, read_name(*refused)),
            Answer::NotLoaded(refused) => String::from_str(alloc, load_name(*refused)),
            Answer::NoFile => String::from_str(alloc, "file cannot be used"),
            Answer::NotUnderstood => String::from_str(alloc, "not understood"),
        }
    }
}
