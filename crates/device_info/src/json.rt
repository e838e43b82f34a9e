//! A device's figures as JSON.
ghost use Rattle.std.specs.Prelude.{◌≡◌, ◌++◌, IfOk, OnOk, codes, flat_map, string_bytes};
ghost use Rattle.device_info.specs.Json.{array_text, back_text, first_text, front_text, json_line, next_text, other_text, suspects_member, ticket_text, tickets_text};

use crate::figures::DeviceInfo;
use crate::lines::push_figures;
use device_suspects::Suspect;
use std::alloc::{AllocError, Global};
use std::fmt::Write;

/// The figures as an object of JSON, with the suspects that there are, on one line.
pub fn info_json(
    alloc: Global,
    info: &DeviceInfo,
    suspects: &[Suspect],
) -> Result<String, AllocError>
    ensures { IfOk result (λ text. string_bytes text ≡ json_line info.now suspects.now) }
{
    let mut text = String::new(alloc);
    push_front(&mut text, info)?;
    push_back(&mut text, suspects)?;
    Ok(text)
}

// The object up to the tickets.
fn push_front(text: &mut String, info: &DeviceInfo) -> Result<(), AllocError>
    ensures { OnOk result (string_bytes text.new ≡ string_bytes text.old ++ front_text info.now) }
{
    text.push_str("{")?;
    push_figures(text, true, info)?;
    push_array(text, &info.held)?;
    Ok(())
}

// What is behind them, up to the end of the line.
fn push_back(text: &mut String, suspects: &[Suspect]) -> Result<(), AllocError>
    ensures { OnOk result (string_bytes text.new ≡ string_bytes text.old ++ back_text suspects.now) }
{
    push_suspects(text, suspects)?;
    text.push_str("}\n")?;
    Ok(())
}

// The array of suspects, where there are any.
fn push_suspects(text: &mut String, suspects: &[Suspect]) -> Result<(), AllocError>
    ensures { OnOk result (string_bytes text.new ≡ string_bytes text.old ++ suspects_member suspects.now) }
{
    let Some((first, rest)) = suspects.split_first() else {
        return Ok(());
    };
    push_some(text, *first, rest)
}

fn push_some(text: &mut String, first: Suspect, rest: &[Suspect]) -> Result<(), AllocError>
    ensures { OnOk result (string_bytes text.new
        ≡ string_bytes text.old ++ (first_text first ++ (flat_map next_text rest.now ++ codes "]"))) }
{
    push_first(text, first)?;
    push_rest(text, rest)?;
    text.push_str("]")?;
    Ok(())
}

fn push_first(text: &mut String, suspect: Suspect) -> Result<(), AllocError>
    ensures { OnOk result (string_bytes text.new ≡ string_bytes text.old ++ first_text suspect) }
{
    write!(text, ",\"suspects\":[\"{suspect}\"")
}

fn push_rest(text: &mut String, suspects: &[Suspect]) -> Result<(), AllocError>
    ensures { OnOk result (string_bytes text.new ≡ string_bytes text.old ++ flat_map next_text suspects.now) }
{
    for suspect in suspects {
        push_next(text, *suspect)?;
    }
    Ok(())
}

fn push_next(text: &mut String, suspect: Suspect) -> Result<(), AllocError>
    ensures { OnOk result (string_bytes text.new ≡ string_bytes text.old ++ next_text suspect) }
{
    write!(text, ",\"{suspect}\"")
}

// The array of the tickets.
fn push_array(text: &mut String, held: &[(usize, u64)]) -> Result<(), AllocError>
    ensures { OnOk result (string_bytes text.new ≡ string_bytes text.old ++ array_text held.now) }
{
    text.push_str("\"tickets\":[")?;
    push_tickets(text, held)?;
    text.push_str("]")?;
    Ok(())
}

// An object for each session that has a last ticket, with commas between.
fn push_tickets(text: &mut String, held: &[(usize, u64)]) -> Result<(), AllocError>
    ensures { OnOk result (string_bytes text.new ≡ string_bytes text.old ++ tickets_text held.now) }
{
    let Some((first, rest)) = held.split_first() else {
        return Ok(());
    };
    push_ticket(text, *first)?;
    push_others(text, rest)
}

fn push_others(text: &mut String, held: &[(usize, u64)]) -> Result<(), AllocError>
    ensures { OnOk result (string_bytes text.new ≡ string_bytes text.old ++ flat_map other_text held.now) }
{
    for one in held {
        push_other(text, *one)?;
    }
    Ok(())
}

fn push_other(text: &mut String, one: (usize, u64)) -> Result<(), AllocError>
    ensures { OnOk result (string_bytes text.new ≡ string_bytes text.old ++ other_text one) }
{
    write!(text, ",{{\"session\":{},\"ticket\":{}}}", one.0, one.1)
}

fn push_ticket(text: &mut String, one: (usize, u64)) -> Result<(), AllocError>
    ensures { OnOk result (string_bytes text.new ≡ string_bytes text.old ++ ticket_text one) }
{
    write!(text, "{{\"session\":{},\"ticket\":{}}}", one.0, one.1)
}
