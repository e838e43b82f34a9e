//! A device's figures, and their lines.
ghost use Rattle.std.specs.Prelude.{◌≡◌, ◌++◌, IfOk, OnOk, false, flat_map, string_bytes};
ghost use Rattle.device_info.specs.Lines.{figure_text, figures_text, held_line, info_lines, journal_text, network_text, place_text};

use crate::figures::DeviceInfo;
use std::alloc::{AllocError, Global};

/// The figures, a `name=value` pair a line, and then a line for each session that has a last ticket.
pub fn info_text(alloc: Global, info: &DeviceInfo) -> Result<String, AllocError>
    ensures { IfOk result (λ text. string_bytes text ≡ info_lines info.now) }
{
    let mut text = String::new(alloc);
    push_figures(&mut text, false, info)?;
    push_held(&mut text, &info.held)?;
    Ok(text)
}

/// Adds all figures but the tickets, as members of JSON or as lines.
pub(crate) fn push_figures(
    text: &mut String,
    as_json: bool,
    info: &DeviceInfo,
) -> Result<(), AllocError>
    ensures { OnOk result (string_bytes text.new ≡ string_bytes text.old ++ figures_text as_json info.now) }
{
    push_network(text, as_json, info)?;
    push_place(text, as_json, info)?;
    push_journal(text, as_json, info)
}

fn push_network(text: &mut String, as_json: bool, info: &DeviceInfo) -> Result<(), AllocError>
    ensures { OnOk result (string_bytes text.new ≡ string_bytes text.old ++ network_text as_json info.now) }
{
    push_figure(text, as_json, "nodes", info.nodes as u64)?;
    push_figure(text, as_json, "edges", info.edges as u64)?;
    push_figure(text, as_json, "count", info.count)
}

fn push_place(text: &mut String, as_json: bool, info: &DeviceInfo) -> Result<(), AllocError>
    ensures { OnOk result (string_bytes text.new ≡ string_bytes text.old ++ place_text as_json info.now) }
{
    push_figure(text, as_json, "layout", 2)?;
    push_figure(text, as_json, "slot", info.slot as u64)?;
    push_figure(text, as_json, "epoch", info.epoch)
}

fn push_journal(text: &mut String, as_json: bool, info: &DeviceInfo) -> Result<(), AllocError>
    ensures { OnOk result (string_bytes text.new ≡ string_bytes text.old ++ journal_text as_json info.now) }
{
    let room = info.journal_room_left as u64;
    push_figure(text, as_json, "since_checkpoint", info.since_checkpoint)?;
    push_figure(text, as_json, "journal_room_left", room)?;
    Ok(())
}

// A figure's name and its number.
fn push_figure(text: &mut String, as_json: bool, name: &str, number: u64) -> Result<(), AllocError>
    ensures { OnOk result (string_bytes text.new ≡ string_bytes text.old ++ figure_text as_json name.now number) }
{
    match as_json {
        true => write!(text, "\"{name}\":{number},"),
        false => writeln!(text, "{name}={number}"),
    }
}

fn push_held(text: &mut String, held: &[(usize, u64)]) -> Result<(), AllocError>
    ensures { OnOk result (string_bytes text.new ≡ string_bytes text.old ++ flat_map held_line held.now) }
{
    for (session, ticket) in held {
        writeln!(text, "session={session} ticket={ticket}")?;
    }
    Ok(())
}
