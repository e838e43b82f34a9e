// The book: the list of lines, which exists in the proofs alone, and a word for each session, which counts its lines.
ghost use Rattle.std.specs.Prelude.{◌≡◌, length, IfOk, IfSome, []};
ghost use mathlib.Core.List.{IsPrefix};
ghost use Rattle.put_lines.specs.Lines.{AddsLine, lines_of_session};
ghost use Rattle.put_lines.specs.Rules.{words_of};

use crate::put_line::PutLine;
use logbook::{Gain, Offer, Opening, Pens, Plain, Play, Rule, Seen, Start, Word};
use std::alloc::{AllocError, Global};
use std::marker::Model;

// How many sessions there may be.
const SESSIONS: usize = 64;

/// The rule of the book.
pub struct OneList;

impl Rule<PutLine, u64> for OneList {
    ghost use Rattle.std.specs.Prelude.{[]};
    ghost use base.Fml.{ftrue};
    ghost use Rattle.put_lines.specs.Rules.{IsCounted};

    ghost holds = { λ cells log. IsCounted cells log };

    ghost first = { [] };

    ghost hinted = { λ n log. Unit {0} };

    ghost shows = { λ log. [] };

    ghost keeps = { λ names log. ftrue };

    ghost moves = { λ ask before after answer. Unit {0} };
}

/// Callers trade nothing.
pub struct NoTrade;

impl Gain<PutLine, u64> for NoTrade {
    ghost use base.Fml.{ftrue};

    ghost after = { λ names about answer. ftrue };
}

/// A step that adds a line.
pub struct Append;

impl Play<PutLine, u64> for Append {
    ghost use Rattle.put_lines.specs.Rules.{Appends};

    ghost then = { Appends };
}

/// What the step asks for: the line.
impl Plain<PutLine, PutLine, u64> for Append {
    ghost use Rattle.std.specs.Prelude.{None};

    ghost ask = { λ line. line };

    ghost state = { λ line. None };
}

/// A book begins with no line.
struct Opens;

impl Opening<u64, PutLine> for Opens {
    ghost use Rattle.std.specs.Prelude.{[]};

    ghost log = { λ words about. [] };
}

/// A beginning of the list that was seen.
#[derive(Drop)]
pub struct PutLines {
    seen: Seen<PutLine, u64, OneList>,
}

impl Model for PutLines {
    ghost use Rattle.put_lines.specs.Lines.{Listed, listed};

    ghost Value = { Listed };

    ghost view = { λ p. listed p.seen.book p.seen.log };
}

/// A new book, before its words are made. Contracts see it as its list, which is empty.
#[derive(Drop)]
pub struct BlankBook {
    first: PutLines,
    pens: Pens,
}

impl Model for BlankBook {
    ghost use Rattle.std.specs.Prelude.{◌≡◌, []};
    ghost use Rattle.put_lines.specs.Lines.{Listed};

    ghost Value = { Listed };

    ghost view = { λ b. b.first };

    ghost invariant = { λ b. (b.first.lines ≡ []) × (b.pens.book ≡ b.first.book) × (b.pens.next ≡ 0) × (b.pens.left ≡ 64) };
}

impl BlankBook {
    pub fn new() -> BlankBook {
        let (seen, pens) = Seen::open_row::<u64, Opens>(&0, Start::alone(), SESSIONS);
        BlankBook {
            first: PutLines { seen },
            pens,
        }
    }
}

/// The words that threads share. Contracts see it as its list, of which nothing was seen.
#[derive(Drop)]
pub struct LineBook {
    words: Vec<Word<PutLine, u64, OneList>>,
    first: PutLines,
}

impl Model for LineBook {
    ghost use Rattle.std.specs.Prelude.{◌≡◌, []};
    ghost use Rattle.put_lines.specs.Lines.{Listed};
    ghost use Rattle.put_lines.specs.Rules.{words_of};

    ghost Value = { Listed };

    ghost view = { λ b. b.first };

    ghost invariant = { λ b. (b.first.lines ≡ []) × (b.words.items ≡ words_of b.first.book 64) };
}

// The words of all sessions.
fn words(alloc: Global, pens: Pens) -> Result<Vec<Word<PutLine, u64, OneList>>, AllocError>
    requires { (pens.next ≡ 0) × (pens.left ≡ 64) }
    ensures { IfOk result (λ all. all.items ≡ words_of pens.book 64) }
{
    let mut all = Vec::with_capacity(alloc, SESSIONS)?;
    let mut pens = pens;
    let mut made: usize = 0;
    while made < SESSIONS {
        all.push(Word::tracked(0, &mut pens.take()))?;
        made += 1;
    }
    Ok(all)
}

impl LineBook {
    /// The book with its words.
    pub fn new(alloc: Global, blank: BlankBook) -> Result<LineBook, AllocError>
        ensures { IfOk result (λ book. book ≡ blank) }
    {
        let BlankBook { first, pens } = blank;
        Ok(LineBook {
            words: words(alloc, pens)?,
            first,
        })
    }

    /// Nothing was seen.
    pub fn begin(&self) -> PutLines
        ensures same { result ≡ self.now }
        ensures none { result.lines ≡ [] }
    {
        self.first.again()
    }
}

impl PutLines {
    /// The same beginning.
    pub fn again(&self) -> PutLines
        ensures { result ≡ self.now }
    {
        PutLines {
            seen: self.seen.again(),
        }
    }

    /// A beginning that goes on from both. All that was seen of a book are beginnings of one list.
    pub fn learn(&self, other: &PutLines) -> PutLines
        requires { other.now.book ≡ self.now.book }
        ensures book { result.book ≡ self.now.book }
        ensures this { IsPrefix self.now.lines result.lines }
        ensures that { IsPrefix other.now.lines result.lines }
    {
        let mut seen = self.seen.again();
        seen.learn(&other.seen);
        PutLines { seen }
    }

    /// The list with a line more behind so many of its session, which are all that were seen of it. None where there are more.
    pub fn add(&self, book: &LineBook, line: &PutLine, number: u64) -> Option<PutLines>
        requires book { book.now.book ≡ self.now.book }
        requires number { number ≡ length (lines_of_session line.now.session self.now.lines) }
        ensures { IfSome result (λ all. AddsLine self.now line.now all) }
    {
        let session = line.session as usize;
        if session >= book.words.len() || number == u64::MAX {
            return None;
        }
        let word = &book.words[session];
        let mut seen = self.seen.again();
        let mut offer: Offer<PutLine, u64, OneList, NoTrade> = seen.plain::<
            NoTrade,
            PutLine,
            Append,
        >(line);
        let mut pen = seen.no_pen();
        let found = word.compare_exchange::<Append, NoTrade>(
            number,
            number + 1,
            &mut seen,
            &mut offer,
            &mut pen,
        );
        if found != number {
            return None;
        }
        Some(PutLines { seen })
    }
}
