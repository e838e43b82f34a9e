//! The lines of trials.
ghost use Rattle.std.specs.Prelude.{◌≡◌, ◌++◌, IfOk, OnOk, map};
ghost use Rattle.std.specs.List.{flat_map};
ghost use Rattle.std.specs.String.{string_bytes};
ghost use Rattle.crash_trials.specs.Trials.{IsTrialsText, count_line, head_line};

use crate::kinds::{Kind, KindCount, table_of};
use crate::trial::StopFound;
use std::alloc::{AllocError, Global};

/// The lines of these trials, of so many stops that there are.
pub fn trials_text(alloc: Global, of: u64, tried: &[StopFound]) -> Result<String, AllocError>
    ensures { IfOk result (λ text. IsTrialsText of tried.now (string_bytes text)) }
{
    let kinds = kinds_in(alloc, tried)?;
    let rows = table_of(alloc, &kinds)?;
    let mut text = String::new(alloc);
    push_head(&mut text, tried.len(), of)?;
    push_rows(&mut text, &rows)?;
    Ok(text)
}

// The kind of each trial.
fn kinds_in(alloc: Global, tried: &[StopFound]) -> Result<Vec<Kind>, AllocError>
    ensures { IfOk result (λ kinds. kinds.items ≡ map (λ found. found.kind) tried.now) }
{
    tried.iter().map(|found| found.kind).collect(alloc)
}

fn push_head(text: &mut String, stops: usize, of: u64) -> Result<(), AllocError>
    ensures { OnOk result (string_bytes text.new ≡ string_bytes text.old ++ head_line stops of) }
{
    writeln!(text, "stops={stops} of={of}")
}

fn push_rows(text: &mut String, rows: &[KindCount]) -> Result<(), AllocError>
    ensures { OnOk result (string_bytes text.new ≡ string_bytes text.old ++ flat_map count_line rows.now) }
{
    for row in rows {
        writeln!(text, "{row}")?;
    }
    Ok(())
}
