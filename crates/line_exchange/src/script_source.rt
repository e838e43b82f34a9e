// The lines of a script.
ghost use Rattle.std.specs.Prelude.{◌≡◌};
ghost use Rattle.line_exchange.specs.Scripts.{line_asked};

use crate::line_fault::LineFault;
use crate::line_source::LineSource;
use crate::messages::{Ask, Stream};
use live_lines::Asked;
use std::marker::PhantomData;
use std::vec::IntoIter;
use value_syntax::ScriptLine;

/// The lines of a script.
#[derive(Drop)]
pub struct ScriptSource {
    pub lines: IntoIter<ScriptLine>,
}

// What a line asks for.
fn asked_by(line: ScriptLine) -> Asked
    ensures { result ≡ line_asked line }
{
    match line {
        ScriptLine::Edit { session, change } => Asked::Edit {
            session,
            ticket: None,
            change,
        },
        ScriptLine::Route { from, to } => Asked::Route { from, to },
    }
}

impl<J: Stream> LineSource<J> for ScriptSource {
    ghost use Rattle.std.specs.Vec.Iter.{into_iter_items};
    ghost use Rattle.line_exchange.specs.Reads.{AreGivenOf};

    ghost has_given = { λ source place. AreGivenOf J.input place (into_iter_items source.lines) };

    fn next_ask(&mut self, place: u64) -> Result<Option<Ask<J>>, LineFault> {
        match self.lines.next() {
            Some(line) => Ok(Some(Ask {
                place,
                asked: asked_by(line),
                behind: 0,
                of: PhantomData,
            })),
            None => Ok(None),
        }
    }
}
