// Words for so many nodes.
ghost use Rattle.std.specs.Prelude.{◌≡◌, IfOk, length};
ghost use Rattle.scheme_builds.specs.Words.{first_of, word_of};

use std::alloc::{AllocError, Global};

/// The word at a place, the greatest where there is none.
fn word_at(words: &[u64], place: usize) -> u64
    ensures { result ≡ word_of words.now place }
{
    if place < words.len() {
        words[place]
    } else {
        u64::MAX
    }
}

/// So many words: the first of those that are given, and the greatest in the place of each that is missing. An `Err` means
/// that memory was refused.
pub fn first_words(alloc: Global, words: &[u64], count: usize) -> Result<Vec<u64>, AllocError>
    ensures words { IfOk result (λ first. first.items ≡ first_of count words.now) }
    ensures count { IfOk result (λ first. length first.items ≡ count) }
{
    let mut first = Vec::with_capacity(alloc, count)?;
    for place in 0..count {
        first.push(word_at(words, place))?;
    }
    Ok(first)
}
