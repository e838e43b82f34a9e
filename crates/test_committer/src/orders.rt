// The buffer that brings items into order.
use mailboxes::{Placed, ReorderBuffer};
use std::alloc::Global;
use std::process::Abort;

/// A card with its place.
#[derive(Clone, Copy, Drop)]
pub(crate) struct Card {
    pub(crate) place: u64,
    pub(crate) face: u8,
}

impl Placed for Card {
    ghost place_of = { λ card. card.place };

    fn place(&self) -> u64 {
        self.place
    }
}

fn dealt(place: u64, face: u8) -> Card {
    Card { place, face }
}

/// A buffer with a window of so many places.
fn buffer(rt: &impl Abort, alloc: Global, window: usize) -> ReorderBuffer<Card> {
    match ReorderBuffer::new(alloc, window) {
        Ok(cards) => cards,
        Err(_) => panic!(rt; "no memory"),
    }
}

/// The face of a card, where there is one.
fn face(card: Option<Card>) -> Option<u8> {
    card.map(|card| card.face)
}

#[test]
fn gives_in_the_order_of_places(rt: HostRuntime) {
    let (rt, cards) = (&rt, buffer(&rt, rt.alloc(), 4));
    assert!(rt; cards.put(rt, dealt(2, 12)));
    assert!(rt; cards.put(rt, dealt(0, 10)));
    assert!(rt; face(cards.take(rt, 0)) == Some(10));
    assert!(rt; face(cards.try_take(rt, 1)).is_none());
    assert!(rt; cards.put(rt, dealt(1, 11)));
    assert!(rt; face(cards.try_take(rt, 1)) == Some(11));
    assert!(rt; face(cards.take(rt, 2)) == Some(12));
    assert!(rt; face(cards.take(rt, 2)).is_none(), "it was taken");
}

#[test]
fn takes_no_place_out_of_its_window(rt: HostRuntime) {
    let (rt, cards) = (&rt, buffer(&rt, rt.alloc(), 2));
    assert!(rt; !cards.put(rt, dealt(2, 12)), "behind the window");
    assert!(rt; cards.put(rt, dealt(0, 10)));
    assert!(rt; !cards.put(rt, dealt(0, 99)), "its slot is full");
    assert!(rt; face(cards.take(rt, 0)) == Some(10));
    assert!(rt; !cards.put(rt, dealt(0, 98)), "before the window");
    assert!(rt; cards.put(rt, dealt(2, 12)));
    assert!(rt; cards.await_room(rt, 2));
    assert!(rt; cards.await_turn(rt, 1));
}

#[test]
fn gives_what_is_there_once_it_is_ended(rt: HostRuntime) {
    let (rt, cards) = (&rt, buffer(&rt, rt.alloc(), 2));
    assert!(rt; cards.put(rt, dealt(0, 10)));
    cards.end(rt);
    assert!(rt; !cards.put(rt, dealt(1, 11)));
    assert!(rt; !cards.await_room(rt, 0));
    assert!(rt; cards.await_turn(rt, 0));
    assert!(rt; !cards.await_turn(rt, 1));
    assert!(rt; face(cards.take(rt, 0)) == Some(10));
    assert!(rt; face(cards.take(rt, 1)).is_none());
}

#[test]
fn gives_lots(rt: HostRuntime) {
    let (rt, cards) = (&rt, buffer(&rt, rt.alloc(), 8));
    assert!(rt; cards.put(rt, dealt(1, 11)));
    assert!(rt; cards.put(rt, dealt(0, 10)));
    // Two are a quarter of the window, and the next one is there: this doesn't sleep.
    cards.await_lot(rt);
    assert!(rt; face(cards.try_take(rt, 0)) == Some(10));
    // One is too few, but nothing comes behind the end.
    cards.end(rt);
    cards.await_lot(rt);
    assert!(rt; face(cards.take(rt, 1)) == Some(11));
    cards.await_lot(rt);
    assert!(rt; face(cards.take(rt, 2)).is_none());
}

#[test]
fn has_room_up_to_the_end_of_the_window(rt: HostRuntime) {
    let (rt, cards) = (&rt, buffer(&rt, rt.alloc(), 4));
    assert!(rt; cards.await_room(rt, 3));
    assert!(rt; cards.put(rt, dealt(0, 10)));
    assert!(rt; face(cards.take(rt, 0)) == Some(10));
    assert!(rt; cards.await_room(rt, 4), "a place got free");
    assert!(rt; cards.await_room(rt, 4), "and it stays so");
    cards.end(rt);
    assert!(rt; !cards.await_room(rt, 4));
    assert!(rt; !cards.await_room(rt, 0));
}
