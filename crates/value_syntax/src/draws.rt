// A generator between two draws.
ghost use Rattle.std.specs.Prelude.{◌≡◌, ◌≤◌, [], IfOk, OnErr, OnOk, length, vec_capacity};
ghost use Rattle.value_syntax.specs.Words.{AreDrawn, first_state, state_after};

use rand_core::SeedableRng;
use rand_core::utils::NextWord;
use rand_xoshiro::Xoshiro256PlusPlus;
use std::alloc::{AllocError, Global};
use std::marker::Model;

/// The words that are still to be drawn out of a seed. Contracts see the generator's state.
#[derive(Drop)]
pub struct Draws {
    generator: Xoshiro256PlusPlus,
}

impl Model for Draws {
    ghost use Rattle.std.specs.Prelude.{ℕ, List};

    ghost Value = { List ℕ };

    ghost view = { λ draws. draws.generator };
}

/// Puts so many words into an empty list that has room for them.
fn fill(generator: &mut Xoshiro256PlusPlus, words: &mut Vec<u64>, count: u16)
    requires empty { words.old.items ≡ [] }
    requires room { count ≤ vec_capacity words.old }
    ensures words { AreDrawn generator.old count words.new.items }
    ensures left { generator.new ≡ state_after generator.old count }
{
    for _ in 0..count {
        let word = generator.next_word();
        let Ok(()) = words.push(word) else {
            unreachable!()
        };
    }
}

impl Draws {
    /// All words of a seed: those that `draw:SEED` names come first.
    pub fn seeded(seed: u64) -> Draws
        ensures { result ≡ first_state seed }
    {
        Draws {
            generator: Xoshiro256PlusPlus::seed_from_u64(seed),
        }
    }

    /// The next words, so many. An `Err` means that memory was refused, and then nothing was drawn.
    pub fn next(&mut self, alloc: Global, count: u16) -> Result<Vec<u64>, AllocError>
        ensures words { IfOk result (λ words. AreDrawn self.old count words.items) }
        ensures count { IfOk result (λ words. length words.items ≡ count) }
        ensures left { OnOk result (self.new ≡ state_after self.old count) }
        ensures unchanged { OnErr result (self.new ≡ self.old) }
    {
        let mut words = Vec::with_capacity(alloc, count as usize)?;
        fill(&mut self.generator, &mut words, count);
        Ok(words)
    }
}
