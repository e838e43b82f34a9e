// Laws of forwarding.
ghost use Rattle.forwarders.specs.Arrivals.{AnswersAreOfOneScheme, SentPacketsArrive};
ghost use Rattle.forwarders.specs.ByteArrivals.{SentBytesArrive};
ghost use Rattle.forwarders.specs.Laws.{AddressGone, EveryPacketEnds, HopGone, LaunchGone, PacketBytesEnd, UnreadBytesEnd};

use packet_bytes::spelling_laws;

/// The laws of forwarding, whichever shelf each call looks at. Whatever a packet holds, passed from node to node it is
/// delivered or refused by one of as many calls as its generation has nodes on the first shelf (one, where there is no such
/// generation or it has no node), and so are bytes, by the first call where they spell no packet. By the shelves of one
/// lawful list a packet is answered by the one scheme of its own generation, or put off: the board was shut, or that
/// generation is gone. So a packet that was launched is brought to its destination over a good trip, with as many calls as
/// that has nodes, but for those that put it off; and so are its bytes. And a generation is gone exactly where its number isn't on the shelf. It
/// does nothing: its contract is the laws.
pub fn forwarding_laws()
    ensures packets_end { EveryPacketEnds }
    ensures packet_bytes_end { PacketBytesEnd }
    ensures unread_bytes_end { UnreadBytesEnd }
    ensures one_scheme { AnswersAreOfOneScheme }
    ensures sent_arrive { SentPacketsArrive }
    ensures sent_bytes_arrive { SentBytesArrive }
    ensures hop_gone { HopGone }
    ensures launch_gone { LaunchGone }
    ensures address_gone { AddressGone }
{
    // A packet and its bytes stand for one another.
    spelling_laws();
}
