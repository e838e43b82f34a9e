// What a router does with a packet, out of the bytes of its table.
ghost use Rattle.std.specs.Prelude.{◌≡◌, ◌↔◌, ◌*◌, ◌<◌, ◌==◌, ℕ, slice_get, None, Some, IsTrue, MatchOption, length};
ghost use Rattle.heavy_labels.specs.Label.{Label};
ghost use Rattle.heavy_labels.specs.Numbering.{by_port as port_or, step as step_by};
ghost use Rattle.heavy_labels.specs.Stepped.{record_of as fields_of, stepped};
ghost use Rattle.schemes.specs.declared.packet.Packet.{Packet};
ghost use Rattle.schemes.specs.Service.{move_by, one_less};
ghost use Rattle.schemes.specs.Tables.{Tables};
ghost use Rattle.packet_bytes.specs.Layout.{packet_size};
ghost use Rattle.packet_bytes.specs.Refusals.{packet_refusal};
ghost use Rattle.router_table.specs.Handing.{hopped};
ghost use Rattle.table_view.specs.Answers.{OfBoth, OfTable, move_of};
ghost use Rattle.table_view.specs.Parts.{light_of, port_of};

use crate::packet_fields::{DESTINATION_AT, FIRST_AT, HOPS_AT, ROOT_AT, light_at};
use crate::parts::{ENTRY_SIZE, NODE_AT, NODES_AT, PORT_SIZE, parts_of, port_in};
use crate::search::place_of;
use byte_forms::{Form, u16_in};
use heavy_labels::{Record, TreeStep};
use packet_bytes::Wire;
use router_table::EntryForm;
use schemes::{Move, Packet, Refused};

/// What a router does with a packet, which goes on with one hop less.
#[derive(Clone, Copy, PartialEq, Eq, Debug, Drop)]
pub enum Hop {
    /// The router is the destination.
    Delivered,
    /// The packet goes on, by a port of the router, to the node behind it.
    Forward { port: u16, next: u16 },
}

/// The step by a port, or the other answer where there is none.
#[inline(always)]
fn by_port(port: Option<u16>, other: TreeStep) -> TreeStep
    ensures { stepped result ≡ port_or (stepped other) port }
{
    match port {
        Some(port) => TreeStep::Port(port),
        None => other,
    }
}

/// The step by a record of what has this number in its label, and the light ports of a packet.
#[inline(always)]
fn step_of(record: &Record, first: u16, packet: &[u8]) -> TreeStep
    requires size { length packet.now ≡ packet_size }
    requires fits { packet_refusal packet.now ≡ None }
    ensures { (l : Label) → l.first ≡ first
        → slice_get l.lights «record».now.light_depth ≡ light_of packet.now «record».now.light_depth
        → stepped result ≡ step_by (fields_of «record».now) l }
{
    if first == record.first {
        TreeStep::Arrived
    } else if first < record.first || first > record.last {
        by_port(record.parent_port, TreeStep::NoParent)
    } else if first <= record.heavy_last {
        by_port(record.heavy_port, TreeStep::NoLight)
    } else {
        by_port(light_at(packet, record.light_depth), TreeStep::NoLight)
    }
}

/// What is done after a step with a packet that has so many hops left, where the router is the destination or isn't.
#[inline(always)]
fn hop_after(
    step: TreeStep,
    here: bool,
    ports: &[u8],
    count: u16,
    hops_left: u16,
) -> Result<Hop, Refused>
    requires { length ports.now ≡ PORT_SIZE * count }
    ensures { (t : Tables) (x : ℕ) (k : Packet) → here ≡ (x == k.destination) → hops_left ≡ k.hops_left
        → ((q : ℕ) → port_of ports.now count q ≡ t.over x q) → move_by t x k (stepped step) ≡ move_of k result }
{
    match step {
        TreeStep::Arrived => {
            if here {
                Ok(Hop::Delivered)
            } else {
                Err(Refused::Stray)
            }
        }
        TreeStep::Port(port) => match port_in(ports, count, port as usize) {
            Some(_) if hops_left == 0 => Err(Refused::Spent),
            Some(next) => Ok(Hop::Forward { port, next }),
            None => Err(Refused::Stray),
        },
        TreeStep::NoParent | TreeStep::NoLight => Err(Refused::Stray),
    }
}

/// Whether the first port, where there is one, leads to one of so many nodes.
fn is_inside(ports: &[u8], count: u16, nodes: u16) -> bool
    requires { length ports.now ≡ PORT_SIZE * count }
    ensures { IsTrue result ↔ ((n : ℕ) → port_of ports.now count 0 ≡ Some n → n < nodes) }
{
    match port_in(ports, count, 0) {
        Some(first) => first < nodes,
        None => true,
    }
}

/// What the router does with the packet that bytes spell. None where it meets that the table's bytes spell no table.
pub(crate) fn hop_of(table: &[u8], packet: &[u8]) -> Option<Result<Hop, Refused>>
    requires size { length packet.now ≡ packet_size }
    requires fits { packet_refusal packet.now ≡ None }
    ensures { OfBoth table.now packet.now (λ a k. MatchOption result ⊥ (λ hop. hopped a k ≡ move_of k hop)) }
{
    let (head, port_count, ports, entry_count, entries, _) = parts_of(table)?;
    let nodes = u16_in(head, NODES_AT);
    let node = u16_in(head, NODE_AT);
    let hops_left = u16_in(packet, HOPS_AT);
    if hops_left >= nodes {
        return Some(Err(Refused::Stray));
    }
    // The test makes the processor fetch the bytes of the ports, beside which the entries begin, before it knows how many ports there are.
    if !is_inside(ports, port_count, nodes) {
        return None;
    }
    let Some(place) = place_of(entries, entry_count, u16_in(packet, ROOT_AT), nodes) else {
        return Some(Err(Refused::Stray));
    };
    let at = ENTRY_SIZE * place;
    let (entry, _) = EntryForm::take(&entries[at..at + ENTRY_SIZE])?;
    let step = step_of(&entry.tree_record, u16_in(packet, FIRST_AT), packet);
    let here = node == u16_in(packet, DESTINATION_AT);
    Some(hop_after(step, here, ports, port_count, hops_left))
}

/// The packet with one hop less.
fn one_hop_less(packet: &Packet) -> Packet
    ensures { result ≡ one_less packet.now }
{
    let mut less = packet.copy();
    less.hops_left = less.hops_left.saturating_sub(1);
    less
}

/// What the router does with a packet, by the bytes of its table. None where it meets that they spell no table.
pub fn hop_in(table: &[u8], packet: &Packet) -> Option<Result<Move, Refused>>
    ensures { OfTable table.now (λ a. result ≡ Some (hopped a packet.now)) }
{
    let bytes = packet.to_bytes();
    let answer = match hop_of(table, &bytes)? {
        Ok(Hop::Delivered) => Ok(Move::Delivered),
        Ok(Hop::Forward { port, next }) => Ok(Move::Forward {
            port,
            next,
            packet: one_hop_less(packet),
        }),
        Err(refused) => Err(refused),
    };
    Some(answer)
}
