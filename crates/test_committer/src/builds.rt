// Generations, built once for each count, and packets in them.
ghost use Rattle.std.specs.Prelude.{◌≡◌};

use crate::seats::{AT_THREE, AT_TWO, PATH, Shelf, armed, due, got, rebuild, refresh, same};
use committer::RebuildRefused;
use disk_trait::Plan;
use forwarders::{Forwarder, Refused};
use linked_list_allocator::LocalHeap;
use packet_bytes::{PACKET_SIZE, Wire};
use schemes::{Move, Packet};
use std::process::Abort;
use std::sync::Arc;

/// The words of a rebuild, whether its heap is the large one, the answer, and the shelf.
type Rebuild = ([u64; 5], bool, Result<u64, RebuildRefused>, Shelf);

const REBUILDS: [Rebuild; 4] = [
    (AT_TWO, false, Err(RebuildRefused::Memory), [None; 4]),
    (AT_TWO, true, Ok(1), [Some(1), None, None, None]),
    (AT_THREE, true, Ok(1), [Some(1), None, None, None]),
    (AT_THREE, false, Ok(1), [Some(1), None, None, None]),
];

#[test]
fn builds_once_for_each_count(rt: HostRuntime) {
    let (alloc, rt) = (rt.alloc(), &rt);
    let small = got(rt, LocalHeap::new(alloc, 64));
    let large = got(rt, LocalHeap::new(alloc, 1_048_576));
    let mut at = armed(*rt, alloc, 64, Plan::None);
    at.submits(rt, 0, 1, &PATH);
    at.settles(rt, alloc, 1, 1);
    for (words, ample, want, shelf) in &REBUILDS {
        let heap = if *ample { &large } else { &small };
        let answer = rebuild(alloc, &mut at.committer, words, heap);
        same(rt, answer, *want, "a rebuild");
        (at, _) = at.shows(rt, *shelf);
    }
    let _disk = at.into_disk();
}

#[test]
fn finds_each_count_due_once(rt: HostRuntime) {
    let (alloc, rt) = (rt.alloc(), &rt);
    let heap = got(rt, LocalHeap::new(alloc, 1_048_576));
    let mut at = armed(*rt, alloc, 64, Plan::None);
    for number in 0..2u32 {
        let count = number as u64;
        same(rt, due(&mut at.committer), Ok(Some(count)), "a count");
        at.builds(rt, alloc, &heap, count);
        same(
            rt,
            due(&mut at.committer),
            Ok(None),
            "a count that was built",
        );
        at.changes(rt, alloc, number.saturating_add(1));
    }
    let (at, _) = at.shows(rt, [Some(0), Some(1), None, None]);
    let _disk = at.into_disk();
}

// Of a generation that fell from the shelf there is an owner more until the board is published once more: the copy that no look shows.
#[test]
fn lets_the_oldest_go_once_it_is_published_again(rt: HostRuntime) {
    let (alloc, rt) = (rt.alloc(), &rt);
    let heap = got(rt, LocalHeap::new(alloc, 1_048_576));
    let mut at = armed(*rt, alloc, 64, Plan::None);
    at.posts_up_to(rt, alloc, &heap, 0, 1);
    let (mut at, oldest) = at.shows(rt, [Some(1), None, None, None]);
    let oldest = oldest.expect(rt, "a scheme");
    at.posts_up_to(rt, alloc, &heap, 1, 5);
    same(rt, Arc::strong_count(&oldest), 2, "owners before");
    refresh(rt, &mut at.committer);
    same(rt, Arc::strong_count(&oldest), 1, "owners behind");
    let (mut at, _) = at.shows(rt, [Some(2), Some(3), Some(4), Some(5)]);
    at.posts_up_to(rt, alloc, &heap, 5, 6);
    let (at, _) = at.shows(rt, [Some(3), Some(4), Some(5), Some(6)]);
    let _disk = at.into_disk();
}

/// The packet from node 0 to node 4 of the path in generation 1, with so many hops left.
fn packet(hops: u8) -> [u8; PACKET_SIZE] {
    let head = [0, 0, 0, 0, 0, 0, 0, 1, 0, 4, 0, 2, 0, 4, 0, hops, 1, 0, 1u8];
    let mut bytes = [0; PACKET_SIZE];
    for (place, byte) in bytes.iter_mut().zip(head.iter()) {
        *place = *byte;
    }
    bytes
}

/// The first hop of the launched packet as a value, and the packet after it.
fn first_hop(rt: &impl Abort, forwarder: &mut Forwarder) -> Packet
    ensures { forwarder.new.opening ≡ forwarder.old.opening }
{
    let sent = got(rt, Packet::from_bytes(&packet(4)));
    let Ok(Move::Forward { port, next, packet }) = forwarder.hop(0, sent) else {
        panic!(rt; "not forwarded");
    };
    let found = (port, next, packet.generation);
    same(rt, found, (0, 1, 1), "the first hop");
    packet
}

/// Sees that a packet at node 1 is refused since its generation is gone, and comes back as it was.
fn expect_gone(rt: &impl Abort, forwarder: &mut Forwarder, sent: Packet)
    ensures { forwarder.new.opening ≡ forwarder.old.opening }
{
    let Err((refused, back)) = forwarder.hop(1, sent) else {
        panic!(rt; "forwarded");
    };
    same(rt, refused, Refused::GenerationGone, "the second hop");
    assert!(rt; back.to_bytes() == packet(3));
}

// Of each change there are two postings: its mark and its generation.
#[test]
fn four_generations_stay(rt: HostRuntime) {
    let (alloc, rt) = (rt.alloc(), &rt);
    let heap = got(rt, LocalHeap::new(alloc, 1_048_576));
    let mut at = armed(*rt, alloc, 64, Plan::None);
    at.knows(rt, 0, None);
    at.posts_up_to(rt, alloc, &heap, 0, 4);
    at.forwarders_hear();
    at.knows(rt, 8, Some(4));
    let packet = first_hop(rt, &mut at.one);
    at.posts_up_to(rt, alloc, &heap, 4, 5);
    at.forwarders_hear();
    expect_gone(rt, &mut at.one, packet);
    let _disk = at.into_disk();
}

// An editor knows a posting once it is told of it, and a forwarder has the addresses of the generations that it was told of.
#[test]
fn each_knows_what_it_was_told(rt: HostRuntime) {
    let (alloc, rt) = (rt.alloc(), &rt);
    let heap = got(rt, LocalHeap::new(alloc, 1_048_576));
    let mut at = armed(*rt, alloc, 64, Plan::None);
    at.submits(rt, 0, 1, &PATH);
    at.settles(rt, alloc, 1, 1);
    let told = at.committer.told().history().len();
    same(
        rt,
        (told, at.first.known().len()),
        (1, 0),
        "an editor before",
    );
    at.hears(0);
    same(rt, at.first.known().len(), 1, "an editor behind");
    at.knows(rt, 0, None);
    at.builds(rt, alloc, &heap, 1);
    at.forwarders_hear();
    at.knows(rt, 2, Some(1));
    let gone = at.one.address(2, 4).err();
    same(rt, gone, Some(Refused::GenerationGone), "generation 2");
    let _disk = at.into_disk();
}

// The packet that node 0 sends to node 4 in the newest generation, and that generation's number.
fn launched(forwarder: &mut Forwarder) -> Result<(u64, Packet), Refused> {
    let Some(newest) = forwarder.latest()? else {
        return Err(Refused::GenerationGone);
    };
    let address = forwarder.address(newest, 4)?;
    let packet = forwarder.launch(0, &address)?;
    Ok((newest, packet))
}

/// The nodes of a packet's way from node 0 in the newest generation to node 4, as digits behind the generation's number.
pub(crate) fn trip(forwarder: &mut Forwarder) -> Result<(u64, u32), Refused> {
    let (newest, mut packet) = launched(forwarder)?;
    let (mut at, mut nodes) = (0u16, 0u32);
    for _ in 0..9 {
        nodes = nodes.wrapping_mul(10).wrapping_add(at as u32);
        match forwarder.hop(at, packet) {
            Ok(Move::Delivered) => return Ok((newest, nodes)),
            Ok(
                Move::Forward {
                    next,
                    packet: left,
                    ..
                },
            ) => {
                at = next;
                packet = left;
            }
            Err((refused, _)) => return Err(refused),
        }
    }
    Err(Refused::Spent)
}
