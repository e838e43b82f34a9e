//! Laws of spellings.
ghost use Rattle.std.specs.Prelude.{◌≡◌};
ghost use Rattle.packet_bytes.specs.Laws.{AddressesAreRead, OneAddress, OnePacket, PacketsAreRead};
ghost use Rattle.packet_bytes.specs.Layout.{address_size, most_ports, packet_size};

use crate::layout::{ADDRESS_SIZE, PACKET_SIZE};
use heavy_labels::MOST_LIGHTS;

/// Each packet and each address has one spelling, which is read again as it, and no other value has that spelling; the
/// sizes are the numbers of the definitions. It does nothing: its contract is the laws.
pub fn spelling_laws()
    ensures ports { MOST_LIGHTS ≡ most_ports }
    ensures packet_size { PACKET_SIZE ≡ packet_size }
    ensures address_size { ADDRESS_SIZE ≡ address_size }
    ensures packets_are_read { PacketsAreRead }
    ensures one_packet { OnePacket }
    ensures addresses_are_read { AddressesAreRead }
    ensures one_address { OneAddress }
{}
