// What threads send to one another of the lines of a service.
ghost use Rattle.std.specs.Prelude.{◌≡◌, Some, slice_get};
ghost use Rattle.put_lines.specs.Lines.{lines_of_session};
ghost use Rattle.live_lines.specs.Answers.{generation_gone};
ghost use Rattle.line_exchange.specs.Streams.{IsAskedAt};
ghost use Rattle.line_exchange.specs.OneList.{IsOffAt, IsSaidAt};

use generations::History;
use live_lines::{Answer, Asked};
use mailboxes::Placed;
use packet_ways::BoardName;
use put_lines::{PutLine, PutLines};
use std::marker::{Brand, PhantomData};

/// Which lines there are, and how many editors answer them. Each call of the service picks both.
pub trait Stream {
    ghost use Rattle.std.specs.Prelude.{ℕ};
    ghost use Rattle.logbook.specs.Pages.{Book};
    ghost use Rattle.line_exchange.specs.Inputs.{Input};

    /// What the lines are.
    ghost input: { Input };

    ghost editors: { ℕ };

    /// Where editors note which lines put requests.
    ghost book: { Book };
}

impl Stream for Brand {
    ghost use Rattle.std.specs.Prelude.{None};
    ghost use Rattle.line_exchange.specs.Inputs.{Bytes};

    ghost input = { Bytes None };

    ghost editors = { 0 };

    ghost book = { record { number = 0; log_name = 0; cells_name = 0 } };
}

/// What the line at a place asks for.
#[derive(Drop)]
pub struct Ask<J: Stream> {
    pub place: u64,
    pub asked: Asked,
    /// Up to which place answers are printed before this one goes by tables: behind the last line before it that waits for them.
    pub behind: u64,
    pub of: PhantomData<J>,
    ghost is_line: { ∥ IsAskedAt J.input J.editors place asked ∥₁ },
}

/// What an editor noted of the lines that put requests, and how many of them are its session's.
#[derive(Drop)]
pub struct Noted {
    pub number: u64,
    pub lines: PutLines,
}

/// A line that put a request, as its editor noted it: the one behind so many of its session.
#[derive(Drop)]
pub struct NotedLine<J: Stream> {
    pub line: PutLine,
    pub number: u64,
    pub lines: PutLines,
    pub of: PhantomData<J>,
    ghost book_is: { lines.book ≡ J.book },
    ghost next: { slice_get (lines_of_session line.session lines.lines) number ≡ Some line },
}

/// An answer to the line at a place, and what was known of the list of postings when it was given: each list that goes on from there
/// says it.
#[derive(Drop)]
pub struct Answered<J: Stream, B: BoardName> {
    pub place: u64,
    pub answer: Answer,
    pub known: History,
    // The line, where its editor noted it: that of a verdict.
    pub noted: Option<NotedLine<J>>,
    pub of: PhantomData<J>,
    pub at: PhantomData<B>,
    ghost named: { known.opening ≡ B.opening },
    ghost is_answer: { ∥ IsSaidAt known J.input J.editors place answer ∥₁ },
    ghost is_off: { answer ≡ generation_gone → ∥ IsOffAt known J.input J.editors place ∥₁ },
}

impl<J: Stream, B: BoardName> Placed for Answered<J, B> {
    ghost place_of = { λ a. a.place };

    fn place(&self) -> u64 {
        self.place
    }
}
