// The line that names landmarks.
ghost use Rattle.std.specs.Prelude.{◌≡◌, ◌++◌, ◌∷◌, [], IfOk, OnOk, decimal, flat_map, string_bytes};
ghost use Rattle.lab_landmarks.specs.Lines.{choice_text};

use std::alloc::{AllocError, Global};
use std::fmt::Write;

/// These nodes as landmark words, and the end of the line.
#[tactic(auto, using(crate::proofs::NodeTexts::nodes_after))]
pub fn line_of(alloc: Global, nodes: &[u16]) -> Result<String, AllocError>
    ensures { IfOk result (λ line. string_bytes line ≡ choice_text nodes.now ++ 10 ∷ []) }
{
    let Some((first, rest)) = nodes.split_first() else {
        return format!(in alloc; "none\n");
    };
    let mut line = format!(in alloc; "at:{first}")?;
    write_others(&mut line, rest)?;
    writeln!(line, "")?;
    Ok(line)
}

fn write_others(line: &mut String, nodes: &[u16]) -> Result<(), AllocError>
    ensures { OnOk result (string_bytes line.new ≡ string_bytes line.old ++ flat_map (λ node. 44 ∷ decimal node) nodes.now) }
{
    for node in nodes {
        write!(line, ",{node}")?;
    }
    Ok(())
}
