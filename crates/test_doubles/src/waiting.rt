//! Waiting for what other threads do.
use std::sync::atomic::{AtomicU64, Ordering};
use std::thread;

// More turns than any test needs.
const TURNS: usize = 4_000_000;

/// Waits until the word is this number or more. Gives whether it came before the turns ran out.
pub fn comes(word: &AtomicU64, least: u64) -> bool {
    comes_within(word, least, TURNS)
}

/// The same with at most so many turns.
pub fn comes_within(word: &AtomicU64, least: u64, turns: usize) -> bool {
    for _ in 0..turns {
        if word.load(Ordering::SeqCst) >= least {
            return true;
        }
        thread::yield_now();
    }
    false
}
