//! Packets as bytes.
ghost use Rattle.packet_bytes.specs.Refusals.{packet_refusal};
ghost use Rattle.packet_bytes.specs.Spelling.{SpellsPacket};

use crate::fields::{put_u16, put_u64, split_u16, split_u64};
use crate::layout::PACKET_SIZE;
use crate::ports::{put_ports, read_ports};
use crate::wire::{Wire, WireRefused};
use arrayvec::ArrayVec;
use heavy_labels::Label;
use schemes::Packet;

impl Wire for Packet {
    type Bytes = [u8; PACKET_SIZE];

    ghost bytes_in = { λ bytes. bytes };

    ghost Spells = { SpellsPacket };

    ghost refusal = { packet_refusal };

    fn to_bytes(&self) -> [u8; PACKET_SIZE] {
        let mut out = ArrayVec::<u8, PACKET_SIZE>::new();
        put_u64(&mut out, self.generation);
        put_u16(&mut out, self.destination);
        put_u16(&mut out, self.root);
        put_u16(&mut out, self.label.first());
        put_u16(&mut out, self.hops_left);
        put_ports(&mut out, self.label.lights());
        match out.into_inner() {
            Ok(bytes) => bytes,
            Err(_) => unreachable!(),
        }
    }

    fn from_bytes(bytes: &[u8]) -> Result<Packet, WireRefused> {
        if bytes.len() != PACKET_SIZE {
            return Err(WireRefused::BadLength);
        }
        let (generation, rest) = split_u64(bytes);
        let (destination, rest) = split_u16(rest);
        let (root, rest) = split_u16(rest);
        let (first, rest) = split_u16(rest);
        let (hops_left, rest) = split_u16(rest);
        let lights = read_ports(rest)?;
        Ok(Packet {
            generation,
            destination,
            root,
            label: Label::new(first, lights),
            hops_left,
        })
    }
}
