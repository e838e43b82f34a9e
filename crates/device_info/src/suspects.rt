//! Suspects that there are, and their lines.
ghost use Rattle.std.specs.Prelude.{◌≡◌, ◌++◌, [], ◌↔◌, IfOk, IsTrue, OnOk, flat_map, string_bytes};
ghost use Rattle.device_info.specs.Present.{if_there, present, suspect_line};

use device_suspects::{Suspect, Suspects};
use std::alloc::{AllocError, Global};
use std::fmt::Write;

/// Those that there are, in their order.
pub(crate) fn present_of(alloc: Global, suspects: &Suspects) -> Result<Vec<Suspect>, AllocError>
    ensures { IfOk result (λ found. found.items ≡ present suspects.now) }
{
    let mut found = Vec::new(alloc);
    let [epoch, count, slot, record] = suspects.all();
    push_there(&mut found, epoch)?;
    push_there(&mut found, count)?;
    push_there(&mut found, slot)?;
    push_there(&mut found, record)?;
    Ok(found)
}

fn push_there(found: &mut Vec<Suspect>, suspect: Option<Suspect>) -> Result<(), AllocError>
    ensures { OnOk result (found.new.items ≡ found.old.items ++ if_there suspect) }
{
    if let Some(suspect) = suspect {
        found.push(suspect)?;
    }
    Ok(())
}

/// Whether there are none.
pub(crate) fn are_none(suspects: &[Suspect]) -> bool
    ensures { IsTrue result ↔ (suspects.now ≡ []) }
{
    suspects.is_empty()
}

/// Adds a line for each.
pub(crate) fn push_lines(text: &mut String, suspects: &[Suspect]) -> Result<(), AllocError>
    ensures { OnOk result (string_bytes text.new ≡ string_bytes text.old ++ flat_map suspect_line suspects.now) }
{
    for suspect in suspects {
        push_line(text, *suspect)?;
    }
    Ok(())
}

fn push_line(text: &mut String, suspect: Suspect) -> Result<(), AllocError>
    ensures { OnOk result (string_bytes text.new ≡ string_bytes text.old ++ suspect_line suspect) }
{
    writeln!(text, "{suspect}")
}
