//! Packets, addresses and their refusals as text.
ghost use Rattle.std.specs.Prelude.{◌≡◌, ◌++◌, IfOk, OnOk, codes, decimal};
ghost use Rattle.std.specs.String.{string_bytes};
ghost use Rattle.packet_bytes.specs.Texts.{address_line, move_text, packet_line, refused_text, unread_text};

use crate::layout::PACKET_SIZE;
use crate::wire::{Wire, WireRefused};
use itoa::Buffer;
use schemes::{Address, Move, Packet, Refused};
use std::alloc::{AllocError, Global};

/// `port=65535 next=65535 packet=`, a packet's digits and a line feed: no line with a packet is longer.
const LONGEST_PACKET_LINE: usize = 30 + 2 * PACKET_SIZE;

/// Why a packet isn't sent or carried.
pub fn refused_name(refused: Refused) -> &'static str
    ensures { result.now ≡ refused_text refused }
{
    match refused {
        Refused::NoNode => "no node",
        Refused::Unreachable => "unreachable",
        Refused::Stray => "stray",
        Refused::Spent => "spent",
    }
}

/// Why bytes are no packet or address.
pub fn unread_name(refused: WireRefused) -> &'static str
    ensures { result.now ≡ unread_text refused }
{
    match refused {
        WireRefused::BadLength => "bad length",
        WireRefused::BadFlag => "bad flag",
        WireRefused::BadCount => "bad count",
        WireRefused::BadPadding => "bad padding",
    }
}

/// Writes a number at the end.
fn put_number(text: &mut String, number: u64) -> Result<(), AllocError>
    ensures { OnOk result (string_bytes text.new ≡ string_bytes text.old ++ decimal number) }
{
    text.push_str(Buffer::new().format(number))
}

/// Writes `packet=` and digits at the end.
fn put_packet_digits(text: &mut String, digits: &str) -> Result<(), AllocError>
    ensures { OnOk result (string_bytes text.new ≡ string_bytes text.old ++ (codes "packet=" ++ digits.now)) }
{
    text.push_str("packet=")?;
    text.push_str(digits)
}

/// Writes `packet=` and the packet's digits at the end.
fn put_packet(text: &mut String, packet: &Packet, alloc: Global) -> Result<(), AllocError>
    ensures { OnOk result (string_bytes text.new ≡ string_bytes text.old ++ packet_line packet.now) }
{
    let digits = hex::encode(alloc, packet.to_bytes().as_slice())?;
    put_packet_digits(text, digits.as_str())
}

/// `packet=` and the packet's digits.
pub fn packet_text(alloc: Global, packet: &Packet) -> Result<String, AllocError>
    ensures { IfOk result (λ text. string_bytes text ≡ packet_line packet.now) }
{
    let mut text = String::with_capacity(alloc, LONGEST_PACKET_LINE)?;
    put_packet(&mut text, packet, alloc)?;
    Ok(text)
}

/// Where a packet goes.
fn forward_text(alloc: Global, port: u16, next: u16, packet: &Packet) -> Result<String, AllocError>
    ensures { IfOk result (λ text. string_bytes text ≡ move_text (Move.Forward port next packet.now)) }
{
    let mut text = String::with_capacity(alloc, LONGEST_PACKET_LINE)?;
    text.push_str("port=")?;
    put_number(&mut text, port as u64)?;
    text.push_str(" next=")?;
    put_number(&mut text, next as u64)?;
    text.push_str(" ")?;
    put_packet(&mut text, packet, alloc)?;
    Ok(text)
}

/// Where a packet goes, or that it is delivered.
pub fn moved_text(alloc: Global, moved: &Move) -> Result<String, AllocError>
    ensures { IfOk result (λ text. string_bytes text ≡ move_text moved.now) }
{
    match moved {
        Move::Delivered => String::from_str(alloc, "delivered"),
        Move::Forward { port, next, packet } => forward_text(alloc, *port, *next, packet),
    }
}

/// Where the router is to be found.
pub fn told_text(alloc: Global, address: &Address) -> Result<String, AllocError>
    ensures { IfOk result (λ text. string_bytes text ≡ address_line address.now) }
{
    let digits = hex::encode(alloc, address.to_bytes().as_slice())?;
    format!(in alloc; "generation={} address={digits}", address.generation)
}
