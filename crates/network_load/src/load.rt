//! The command `load`.
ghost use Rattle.std.specs.Prelude.{◌≡◌, ◌≤◌, IfErr, IfOk, IfSome, Some, codes, decimal, option_map};
ghost use Rattle.std.specs.String.{string_bytes};
ghost use Rattle.clap.specs.Walk.{first_of};
ghost use Rattle.network_load.specs.Loads.{IsNodeCount};
ghost use Rattle.lab_parts.specs.Devices.{IsRefusal};
ghost use Rattle.lab_parts.specs.Grammar.{IsCommandOf};
ghost use Rattle.lab_parts.specs.Words.{rows_in};
ghost use Rattle.network_load.specs.Commands.{DoesLoad, load_app, totals_of};

use crate::loading::{LoadRefused, Made, load_list};
use crate::putting::put;
use clap::{ArgMatches, Command};
use graph_edits::MOST_NODES;
use lab_parts::{
    Places, Sources, command, given, optional, told, told_at, told_memory, told_of, value, word,
};
use std::alloc::{AllocError, Global};
use std::io::Write;

/// Its grammar.
pub fn grammar<'a>(alloc: Global) -> Result<Command<'a>, AllocError>
    ensures { IfOk result (λ command. IsCommandOf command load_app) }
{
    let about = "Makes a device out of a list of edges, at once";
    let device = "The file of the device, which must not be there";
    let file = "A line A B W for each edge, three plain numbers";
    let nodes = "How many nodes it has; else one more than the greatest number";
    let said = [
        word("device", "DEVICE", device),
        word("file", "FILE", file),
        value("nodes", "N", nodes),
    ];
    command(alloc, "load", about, &said)
}

/// Makes the device that these matches ask for, and answers the exit status.
pub fn run<R, O, E>(rt: &R, found: &ArgMatches<'_>, out: &mut O, err: &mut E) -> u8
where
    R: Places + AllocGlobal,
    O: Write,
    E: Write,
    ensures few { result ≤ 2 }
    // 0 only where the device was put and its line printed, and 2 only where nothing was.
    ensures printed { result ≡ 0 → DoesLoad R.stands R.puts (rows_in found.now)
        record { contents = O.contents; before = out.old; after = out.new } }
    ensures untouched { result ≡ 2 → out.new ≡ out.old }
{
    let (Some(device), Some(file)) = (given(found, "device"), given(found, "file")) else {
        return 2;
    };
    let nodes = match nodes_in(rt.alloc(), found, err) {
        Ok(nodes) => nodes,
        Err(status) => return status,
    };
    let text = match text_of(rt, file, err) {
        Ok(text) => text,
        Err(status) => return status,
    };
    match load_list(rt.alloc(), text.as_str(), nodes) {
        Ok(made) => match totals_text(rt.alloc(), &made) {
            Ok(text) => put(rt, device, &made.bytes, text.as_str(), out, err),
            Err(_) => told_memory(err),
        },
        Err(refused) => tell(device, file, refused, err),
    }
}

// How many nodes are asked for, if that is said.
fn nodes_in<E: Write>(alloc: Global, found: &ArgMatches<'_>, err: &mut E) -> Result<Option<u16>, u8>
    ensures asked { IfOk result (λ nodes. first_of (codes "nodes") (rows_in found.now) ≡ option_map decimal nodes) }
    ensures fits { IfOk result (λ nodes. IfSome nodes IsNodeCount) }
    ensures err { IfErr result IsRefusal }
{
    match optional(alloc, found, "nodes", MOST_NODES as u64) {
        Ok(Some(Some(nodes))) if nodes > 0 => Ok(Some(nodes as u16)),
        Ok(Some(None)) => Ok(None),
        Ok(_) => Err(told(err, 2, "--nodes takes 1 to 16384")),
        Err(_) => Err(told_memory(err)),
    }
}

// The text of a file, or the exit status where there is none.
fn text_of<R: Sources, E: Write>(rt: &R, file: &str, err: &mut E) -> Result<String, u8>
    ensures text { IfOk result (λ text. R.stands file.now (Some (string_bytes text))) }
    ensures err { IfErr result IsRefusal }
{
    let bytes = match rt.read(file) {
        Ok(Some(bytes)) => bytes,
        Ok(None) => return Err(told_of(err, file, "the file is not there")),
        Err(error) => return Err(told_of(err, file, error)),
    };
    if let Err(error) = str::from_utf8(&bytes) {
        let line = line_at(&bytes, error.valid_up_to());
        return Err(told_at(err, 2, file, line, "the text is not UTF-8"));
    }
    match String::from_utf8(bytes) {
        Ok(text) => Ok(text),
        Err(_) => Err(2),
    }
}

// The number of the line in which a byte stands.
fn line_at(bytes: &[u8], place: usize) -> usize {
    let mut line: usize = 1;
    for byte in bytes.iter().take(place) {
        if *byte == b'\n' {
            line = line.saturating_add(1);
        }
    }
    line
}

fn totals_text(alloc: Global, made: &Made) -> Result<String, AllocError>
    ensures { IfOk result (λ text. string_bytes text ≡ totals_of made.now) }
{
    let Made {
        count,
        edges,
        nodes,
        bytes: _,
    } = made;
    format!(in alloc; "count={count} edges={edges} nodes={nodes}\n")
}

// Tells why no device is made of a list.
fn tell<E: Write>(device: &str, file: &str, refused: LoadRefused<'_>, err: &mut E) -> u8
    ensures { IsRefusal result }
{
    match refused {
        LoadRefused::Line { line, fault } => told_at(err, fault.status(), file, line, fault),
        LoadRefused::Edge {
            line,
            code,
            first: Some(first),
        } => told_at(err, 1, file, line, format_args!("{code}, by line {first}")),
        LoadRefused::Edge {
            line,
            code,
            first: None,
        } => told_at(err, 1, file, line, code),
        refused => told_of(err, device, refused),
    }
}
