// Mailboxes, and a buffer between threads: two put, one takes, and nobody sleeps for ever.
use crate::orders::Card;
use mailboxes::{Mailbox, ReorderBuffer};
use std::alloc::Global;
use std::sync::{Arc, Wait};
use std::thread;
use std::thread::Threads;

// How many cards there are, and how many places the window has.
const CARDS: u64 = 20_000;

const WINDOW: usize = 64;

// Puts every second card, as there is room for it. Whether all were put.
fn puts<R: Wait>(rt: &R, cards: &ReorderBuffer<Card>, first: u64) -> bool {
    let mut place = first;
    for _ in rt.forever() {
        if place >= CARDS {
            return true;
        }
        let face = (place % 251) as u8;
        if !cards.await_room(rt, place) || !cards.put(rt, Card { place, face }) {
            return false;
        }
        place = place.wrapping_add(2);
    }
    true
}

// Takes cards until none comes any more: how many had the face of their place, each in its turn.
fn takes<R: Wait>(rt: &R, cards: &ReorderBuffer<Card>, in_lots: bool) -> u64 {
    let mut count: u64 = 0;
    for _ in rt.forever() {
        let card = match cards.try_take(rt, count) {
            Some(card) => Some(card),
            None => {
                if in_lots {
                    cards.await_lot(rt);
                }
                cards.take(rt, count)
            }
        };
        match card {
            Some(card) if card.face == (count % 251) as u8 => count = count.wrapping_add(1),
            _ => return count,
        }
    }
    count
}

// Where two threads put the cards and a third one takes them: whether all were put, and how many come out.
fn handed<R: Threads + Wait + Copy + Send + 'static>(
    rt: R,
    alloc: Global,
    in_lots: bool,
) -> Option<((bool, bool), u64)> {
    let cards = Arc::new(alloc, ReorderBuffer::new(alloc, WINDOW).ok()?).ok()?;
    let (even, odd) = (Arc::try_clone(&cards).ok()?, Arc::try_clone(&cards).ok()?);
    let taker = Arc::try_clone(&cards).ok()?;
    let even = thread::spawn(&rt, move || puts(&rt, &even, 0)).ok()?;
    let odd = thread::spawn(&rt, move || puts(&rt, &odd, 1)).ok()?;
    let taker = thread::spawn(&rt, move || takes(&rt, &taker, in_lots)).ok()?;
    let put = (even.join(&rt), odd.join(&rt));
    cards.end(&rt);
    Some((put, taker.join(&rt)))
}

#[test]
fn hands_each_card_over_at_once_and_in_lots(rt: HostRuntime) {
    for in_lots in [false, true] {
        let found = handed(rt, rt.alloc(), in_lots);
        assert!(rt; found == Some(((true, true), CARDS)));
    }
}

// Takes numbers until none comes any more, and adds them.
fn adds<R: Wait>(rt: &R, numbers: &Mailbox<u32>) -> u64 {
    let mut sum: u64 = 0;
    for _ in rt.forever() {
        match numbers.take(rt) {
            Some(number) => sum = sum.wrapping_add(number as u64),
            None => return sum,
        }
    }
    sum
}

// The sum of the numbers below 10,000, put by one thread and taken by another.
fn summed<R: Threads + Wait + Copy + Send + 'static>(rt: R, alloc: Global) -> Option<u64> {
    let numbers = Arc::new(alloc, Mailbox::new(alloc)).ok()?;
    let taker = Arc::try_clone(&numbers).ok()?;
    let taker = thread::spawn(&rt, move || adds(&rt, &taker)).ok()?;
    for number in 0..10_000u32 {
        numbers.put(&rt, number).ok()?;
    }
    numbers.close(&rt);
    Some(taker.join(&rt))
}

#[test]
fn mails_each_number(rt: HostRuntime) {
    assert!(rt; summed(rt, rt.alloc()) == Some(49_995_000));
}

#[test]
fn gives_what_waits_until_it_is_shut(rt: HostRuntime) {
    let rt = &rt;
    let open: Mailbox<u8> = Mailbox::new(rt.alloc());
    assert!(rt; open.put(rt, 7).is_ok());
    assert!(rt; open.put(rt, 5).is_ok());
    assert!(rt; open.take(rt) == Some(7));
    assert!(rt; open.put(rt, 7).is_ok());
    assert!(rt; open.take(rt) == Some(5));
    assert!(rt; open.take(rt) == Some(7));
    let closed: Mailbox<u8> = Mailbox::new(rt.alloc());
    assert!(rt; closed.put(rt, 7).is_ok());
    closed.close(rt);
    assert!(rt; closed.put(rt, 5).is_ok());
    assert!(rt; closed.take(rt) == Some(7));
    assert!(rt; closed.take(rt).is_none(), "nothing more comes");
    let shut: Mailbox<u8> = Mailbox::new(rt.alloc());
    assert!(rt; shut.put(rt, 7).is_ok());
    shut.shut(rt);
    assert!(rt; shut.put(rt, 5).is_ok());
    assert!(rt; shut.take(rt).is_none(), "what waits is dropped");
}
