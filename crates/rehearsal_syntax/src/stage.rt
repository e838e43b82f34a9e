// How far a rehearsal has come.
ghost use Rattle.std.specs.Prelude.{◌≡◌};
ghost use Rattle.rehearsal_syntax.specs.Grammar.{stage_after};

use crate::line::RehearsalLine;

/// What the lines so far have: nothing, a device of so many nodes, or lives of it.
#[derive(Clone, Copy, Drop)]
pub enum Stage {
    Empty,
    Made(u16),
    Living(u16),
}

impl Stage {
    /// How far it has come behind one line more.
    pub(crate) fn behind(self, line: &RehearsalLine) -> Stage
        ensures { result ≡ stage_after self line.now }
    {
        match (self, line) {
            (Stage::Empty, RehearsalLine::Device(nodes)) => Stage::Made(*nodes),
            (Stage::Made(nodes), _) => Stage::Living(nodes),
            _ => self,
        }
    }
}
