//! The ports of a label: how many there are, and a place for each that a label has room for.
ghost use Rattle.std.specs.Prelude.{◌≡◌, ◌+◌, ◌≤◌, ◌++◌, length, None, Some, MatchResult};
ghost use Rattle.packet_bytes.specs.Spelling.{ports_text, ArePorts};
ghost use Rattle.packet_bytes.specs.Refusals.{are_zeros, ports_refusal};

use crate::fields::{put, put_u16};
use crate::layout::PORTS_SIZE;
use crate::wire::WireRefused;
use arrayvec::ArrayVec;
use byte_forms::{U16, short_of};
use heavy_labels::MOST_LIGHTS;

/// As many zeros as there are bytes for ports.
const ZEROS: [u8; 2 * MOST_LIGHTS] = [0; 2 * MOST_LIGHTS];

/// Writes the ports at the end, and zeros in the places that they leave.
pub(crate) fn put_ports<const N: usize>(out: &mut ArrayVec<u8, N>, ports: &[u16])
    requires few { length ports.now ≤ MOST_LIGHTS }
    requires room { length out.old.items + PORTS_SIZE ≤ N }
    ensures text { out.new.items ≡ out.old.items ++ ports_text ports.now }
    ensures len { length out.new.items ≡ length out.old.items + PORTS_SIZE }
    ensures fits { ArePorts ports.now }
{
    out.push(ports.len() as u8);
    for port in ports {
        put_u16(out, *port);
    }
    put(out, &ZEROS[2 * ports.len()..]);
}

/// Whether all bytes are 0.
pub(crate) fn all_zero(bytes: &[u8]) -> bool
    ensures { result ≡ are_zeros bytes.now }
{
    bytes.iter().all(|byte| *byte == 0)
}

/// The ports that the bytes spell, or why they spell none.
pub(crate) fn read_ports(bytes: &[u8]) -> Result<ArrayVec<u16, MOST_LIGHTS>, WireRefused>
    requires { length bytes.now ≡ PORTS_SIZE }
    ensures { MatchResult result
        (λ ports. (ports_refusal bytes.now ≡ None) × ((bytes.now ≡ ports_text ports.items) × ArePorts ports.items))
        (λ e. ports_refusal bytes.now ≡ Some e) }
{
    let Some((ports, unused)) = short_of::<U16, MOST_LIGHTS>(0, bytes) else {
        return Err(WireRefused::BadCount);
    };
    if !all_zero(unused) {
        return Err(WireRefused::BadPadding);
    }
    Ok(ports)
}
