// Packets in bytes, read field by field, and handed on.
ghost use Rattle.std.specs.Prelude.{◌≡◌, ◌-◌, ◌*◌, ◌<◌, ◌≤◌, length};
ghost use Rattle.packet_bytes.specs.Layout.{packet_size};
ghost use Rattle.packet_bytes.specs.Refusals.{are_zeros, packet_refusal};
ghost use Rattle.byte_forms.specs.Reading.{u16_of};
ghost use Rattle.table_view.specs.Parts.{light_of, with_hops};

use byte_forms::u16_in;
use heavy_labels::MOST_LIGHTS;
use packet_bytes::{PACKET_SIZE, WireRefused};

/// Where in a packet its fields stand.
pub(crate) const DESTINATION_AT: usize = 8;

pub(crate) const ROOT_AT: usize = 10;

pub(crate) const FIRST_AT: usize = 12;

pub(crate) const HOPS_AT: usize = 14;

const PORTS_AT: usize = 16;

/// As many zeros as there are bytes for ports.
const ZEROS: [u8; 2 * MOST_LIGHTS] = [0; 2 * MOST_LIGHTS];

/// Whether all bytes are 0. They are compared many at a time.
fn all_zero(bytes: &[u8]) -> bool
    requires { length bytes.now ≤ 2 * MOST_LIGHTS }
    ensures { result ≡ are_zeros bytes.now }
{
    bytes == &ZEROS[..bytes.len()]
}

/// Why bytes are no packet, if they are none.
pub(crate) fn refusal_of(packet: &[u8]) -> Option<WireRefused>
    ensures { result ≡ packet_refusal packet.now }
{
    if packet.len() != PACKET_SIZE {
        return Some(WireRefused::BadLength);
    }
    let ports = &packet[PORTS_AT..];
    let count = ports[0] as usize;
    if count > MOST_LIGHTS {
        return Some(WireRefused::BadCount);
    }
    if !all_zero(&ports[1 + 2 * count..]) {
        return Some(WireRefused::BadPadding);
    }
    None
}

/// The light port at a place of a packet's label.
pub(crate) fn light_at(packet: &[u8], depth: u8) -> Option<u16>
    requires size { length packet.now ≡ packet_size }
    requires fits { packet_refusal packet.now ≡ None }
    ensures { result ≡ light_of packet.now depth }
{
    if depth < packet[PORTS_AT] {
        Some(u16_in(packet, PORTS_AT + 1 + 2 * depth as usize))
    } else {
        None
    }
}

/// Writes the packet with one hop less over as many bytes.
pub(crate) fn put_one_less(packet: &[u8], out: &mut [u8])
    requires from { length packet.now ≡ packet_size }
    requires to { length out.old ≡ packet_size }
    ensures { out.new ≡ with_hops packet.now (u16_of packet.now HOPS_AT - 1) }
{
    let hops = u16_in(packet, HOPS_AT).saturating_sub(1).to_be_bytes();
    out.copy_from_slice(packet);
    out[HOPS_AT] = hops[0];
    out[HOPS_AT + 1] = hops[1];
}
