// Packets and addresses in bytes, over the bytes of a table.
ghost use Rattle.table_view.specs.Answers.{IsAddressIn, IsHop, IsLaunch};

use crate::answers::address_in;
use crate::hops::{Hop, hop_of};
use crate::launches::launch_in;
use crate::packet_fields::{put_one_less, refusal_of};
use crate::refused::BytesRefused;
use packet_bytes::{ADDRESS_SIZE, PACKET_SIZE, Wire};
use schemes::Address;

/// Writes the router's own address. What is refused leaves `out` as it was.
pub fn address_bytes(table: &[u8], out: &mut [u8]) -> Result<(), BytesRefused>
    ensures { IsAddressIn table.now out.old out.new result }
{
    if out.len() != ADDRESS_SIZE {
        return Err(BytesRefused::NoRoom);
    }
    let Some(address) = address_in(table) else {
        return Err(BytesRefused::NoTable);
    };
    out.copy_from_slice(&address.to_bytes());
    Ok(())
}

/// Writes the packet that the router sends to the address that bytes spell. What is refused leaves `out` as it was.
pub fn launch_bytes(table: &[u8], to: &[u8], out: &mut [u8]) -> Result<(), BytesRefused>
    ensures { IsLaunch table.now to.now out.old out.new result }
{
    if out.len() != PACKET_SIZE {
        return Err(BytesRefused::NoRoom);
    }
    let to = match Address::from_bytes(to) {
        Ok(to) => to,
        Err(refused) => return Err(BytesRefused::Wire(refused)),
    };
    match launch_in(table, &to) {
        Some(Ok(packet)) => {
            out.copy_from_slice(&packet.to_bytes());
            Ok(())
        }
        Some(Err(refused)) => Err(BytesRefused::Table(refused)),
        None => Err(BytesRefused::NoTable),
    }
}

/// What the router does with the packet that bytes spell. One that goes on is written to `out`; else `out` stays as it was.
pub fn hop_bytes(table: &[u8], packet: &[u8], out: &mut [u8]) -> Result<Hop, BytesRefused>
    ensures { IsHop table.now packet.now out.old out.new result }
{
    if out.len() != PACKET_SIZE {
        return Err(BytesRefused::NoRoom);
    }
    if let Some(refused) = refusal_of(packet) {
        return Err(BytesRefused::Wire(refused));
    }
    match hop_of(table, packet) {
        Some(Ok(Hop::Delivered)) => Ok(Hop::Delivered),
        Some(Ok(Hop::Forward { port, next })) => {
            put_one_less(packet, out);
            Ok(Hop::Forward { port, next })
        }
        Some(Err(refused)) => Err(BytesRefused::Table(refused)),
        None => Err(BytesRefused::NoTable),
    }
}
