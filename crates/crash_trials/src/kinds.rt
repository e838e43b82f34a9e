//! What trials came to, and a table of it.
ghost use Rattle.std.specs.Prelude.{◌≡◌, IfOk, Some};
ghost use Rattle.crash_trials.specs.Tables.{IsTableOf, count_text, times};

use std::alloc::{AllocError, Global};
use std::fmt;

/// What a trial came to: three numbers of changes. Kinds are in order by the first in which they differ.
#[derive(Clone, Copy, Debug, PartialEq, Eq, PartialOrd, Ord, Drop)]
pub struct Kind {
    /// Those that the stopped life found when it opened.
    pub found: u64,
    /// Those that its commits had answered Ok for when the device stopped.
    pub acknowledged: u64,
    /// Those that the next opening found.
    pub opened: u64,
}

/// So many trials came to this kind: `found=F acknowledged=A opened=O stops=N`.
#[derive(Clone, Copy, Debug, PartialEq, Eq, Drop)]
pub struct KindCount {
    pub kind: Kind,
    pub trials: u64,
}

impl fmt::Display for KindCount {
    ghost output = { λ x. Some (count_text x) };

    fn fmt<W: fmt::Write>(&self, f: &mut fmt::Formatter<W>) -> fmt::Result {
        write!(
            f,
            "found={} acknowledged={} opened={} stops={}",
            self.kind.found, self.kind.acknowledged, self.kind.opened, self.trials
        )
    }
}

/// How many of these trials came to each kind, in ascending order.
pub fn table_of(alloc: Global, kinds: &[Kind]) -> Result<Vec<KindCount>, AllocError>
    ensures { IfOk result (λ rows. IsTableOf kinds.now rows.items) }
{
    let mut each = Vec::from_slice(alloc, kinds)?;
    each.sort_unstable();
    each.dedup();
    each.iter()
        .map(|kind| KindCount {
            kind: *kind,
            trials: trials_of(kinds, *kind),
        })
        .collect(alloc)
}

// How many trials came to this kind.
fn trials_of(kinds: &[Kind], kind: Kind) -> u64
    ensures { result ≡ times kind kinds.now }
{
    kinds.iter().filter(|other| kind == **other).count() as u64
}
