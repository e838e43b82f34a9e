// The words of a line.
ghost use Rattle.std.specs.Prelude.{◌≡◌, ◌↔◌, IfOk, IfSome, IsTrue, Some};
ghost use Rattle.live_lines.specs.declared.words.Word.{Word};
ghost use Rattle.live_lines.specs.Lines.{IsFolder, word_text};
ghost use Rattle.value_syntax.specs.Reading.{texts_of};
ghost use Rattle.value_syntax.specs.Scripts.{words_of};

use std::alloc::{AllocError, Global};

/// The first word of a line.
#[derive(Clone, Copy, Drop)]
pub(crate) enum Word {
    Edit,
    Resume,
    Route,
    Address,
    Launch,
    Hop,
    State,
    Wait,
    Tables,
    Backup,
    Metrics,
}

/// The first word that a text is.
pub(crate) fn word_in(text: &str) -> Option<Word>
    ensures found { IfSome result (λ word. text.now ≡ word_text word) }
    ensures only { (word : Word) → text.now ≡ word_text word → result ≡ Some word }
{
    match text {
        "edit" => Some(Word::Edit),
        "resume" => Some(Word::Resume),
        "route" => Some(Word::Route),
        "address" => Some(Word::Address),
        "launch" => Some(Word::Launch),
        "hop" => Some(Word::Hop),
        "state" => Some(Word::State),
        "wait" => Some(Word::Wait),
        "tables" => Some(Word::Tables),
        "backup" => Some(Word::Backup),
        "metrics" => Some(Word::Metrics),
        _ => None,
    }
}

/// Whether a word may name a folder or a file: it has a byte or more, and each is above a blank.
pub(crate) fn is_folder(word: &str) -> bool
    ensures { IsTrue result ↔ IsFolder word.now }
{
    !word.is_empty() && word.as_bytes().iter().all(|byte| *byte > b' ')
}

/// A line, cut at each blank.
pub(crate) fn words_in<'a>(alloc: Global, line: &'a str) -> Result<Vec<&'a str>, AllocError>
    ensures { IfOk result (λ words. texts_of words.items ≡ words_of line.entry.now) }
{
    line.split(' ').collect(alloc)
}
