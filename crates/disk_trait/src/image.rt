//! What a crash leaves of unsettled bytes, chosen by a word.
ghost use Rattle.std.specs.Prelude.{◌≡◌, ◌≤◌, ◌<◌, ◌+◌, ◌/◌, ◌^◌, length};
ghost use Rattle.disk_trait.specs.Image.{IsImage, IsSettledOutside, filled, image_by, state_after, word_byte, word_bytes};

use crate::ranges::put;
use rand_core::SeedableRng;
use rand_core::utils::NextWord;
use rand_xoshiro::SplitMix64;

// Gives each unsettled byte this value.
fn fill(bytes: &mut [u8], unsettled: &[bool], low: usize, high: usize, value: u8)
    requires ordered { low ≤ high }
    requires within { high ≤ length bytes.old }
    requires flags { length unsettled.now ≡ length bytes.old }
    requires outside { IsSettledOutside low high unsettled.now }
    ensures { bytes.new ≡ filled unsettled.now bytes.old (λ _. value) 0 }
{
    for place in low..high {
        let covered = unsettled[place];
        if covered {
            bytes[place] = value;
        }
    }
}

// The bytes of the words that a `SplitMix64` gives whose state begins as `word`.
#[derive(Drop)]
struct WordBytes {
    word: u64,
    // The generator after the present word, the bytes of that word, and how many bytes were dealt.
    words: SplitMix64,
    current: [u8; 8],
    dealt: usize,
    ghost present: { current ≡ word_bytes word (dealt / 8) },
    ghost after: { words ≡ state_after word (dealt / 8 + 1) },
}

impl WordBytes {
    #[tactic(auto, unfolding(crate::specs::Image::state_after, crate::specs::Image::word_bytes))]
    fn new(word: u64) -> WordBytes
        ensures word { result.word ≡ word }
        ensures dealt { result.dealt ≡ 0 }
    {
        let mut words = SplitMix64::seed_from_u64(word);
        let current = words.next_word().to_be_bytes();
        WordBytes {
            word,
            words,
            current,
            dealt: 0,
        }
    }

    // The next byte.
    fn next(&mut self) -> u8
        requires { self.old.dealt + 1 < 2 ^ 64 }
        ensures word { self.new.word ≡ self.old.word }
        ensures dealt { self.new.dealt ≡ self.old.dealt + 1 }
        ensures byte { result ≡ word_byte self.old.word self.old.dealt }
    {
        let byte = self.current[self.dealt % 8];
        self.dealt += 1;
        if self.dealt % 8 == 0 {
            self.current = self.words.next_word().to_be_bytes();
        }
        byte
    }
}

// Deals the bytes of the words to the unsettled bytes.
fn deal(bytes: &mut [u8], unsettled: &[bool], low: usize, high: usize, word: u64)
    requires ordered { low ≤ high }
    requires within { high ≤ length bytes.old }
    requires flags { length unsettled.now ≡ length bytes.old }
    requires outside { IsSettledOutside low high unsettled.now }
    ensures { bytes.new ≡ filled unsettled.now bytes.old (word_byte word) 0 }
{
    let mut source = WordBytes::new(word);
    for i in low..high {
        if unsettled[i] {
            bytes[i] = source.next();
        }
    }
}

/// The bytes become an image that a crash may leave, by the word: 0 gives the bytes as after the
/// last sync, 1 leaves them, 256 to 511 make each unsettled byte the word less 256, and any other
/// word seeds a `SplitMix64` whose words, big-endian, are dealt to the unsettled bytes in ascending
/// place.
pub(crate) fn choose(
    bytes: &mut [u8],
    synced: &[u8],
    unsettled: &[bool],
    low: usize,
    high: usize,
    word: u64,
)
    requires ordered { low ≤ high }
    requires within { high ≤ length bytes.old }
    requires flags { length unsettled.now ≡ length bytes.old }
    requires outside { IsSettledOutside low high unsettled.now }
    requires agrees { IsImage bytes.old unsettled.now synced.now }
    ensures { bytes.new ≡ image_by word unsettled.now bytes.old synced.now }
{
    match word {
        0 => put(bytes, low, &synced[low..high]),
        1 => {}
        256..=511 => fill(bytes, unsettled, low, high, (word - 256) as u8),
        _ => deal(bytes, unsettled, low, high, word),
    }
}
