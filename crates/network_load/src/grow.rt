//! The command `grow`.
ghost use Rattle.std.specs.Prelude.{◌≡◌, ◌≤◌, IfErr, IfOk, Some, codes, decimal};
ghost use Rattle.std.specs.String.{string_bytes};
ghost use Rattle.clap.specs.Walk.{first_of};
ghost use Rattle.layout_2.specs.Loading.{state_of};
ghost use Rattle.lab_parts.specs.Devices.{IsRefusal};
ghost use Rattle.lab_parts.specs.Grammar.{IsCommandOf};
ghost use Rattle.lab_parts.specs.Words.{rows_in};
ghost use Rattle.network_load.specs.Commands.{DoesGrow, grow_app, grown_of};

use crate::growing::grown_image;
use crate::putting::put;
use clap::{ArgMatches, Command};
use lab_parts::{
    Places, command, device, given, loaded_of, needed, optional, told, told_memory, told_of, word,
};
use layout_2::Loaded;
use std::alloc::{AllocError, Global};
use std::io::Write;

/// Its grammar.
pub fn grammar<'a>(alloc: Global) -> Result<Command<'a>, AllocError>
    ensures { IfOk result (λ command. IsCommandOf command grow_app) }
{
    let about = "Makes a larger device of the same count, edges and tickets, at once";
    let new = "The file of the larger device, which must not be there";
    let nodes = "How many nodes it has, no fewer than DEVICE";
    let said = [
        device(),
        word("new", "NEW", new),
        needed("nodes", "N", nodes),
    ];
    command(alloc, "grow", about, &said)
}

/// Makes the larger device that these matches ask for, and answers the exit status.
pub fn run<R, O, E>(rt: &R, found: &ArgMatches<'_>, out: &mut O, err: &mut E) -> u8
where
    R: Places + AllocGlobal,
    O: Write,
    E: Write,
    ensures few { result ≤ 2 }
    // 0 only where the device was put and its line printed, and 2 only where nothing was.
    ensures printed { result ≡ 0 → DoesGrow
        record { model = R.Device.Disk; opened = R.opened; closed = R.closed; stands = R.stands } R.puts (rows_in found.now)
        record { contents = O.contents; before = out.old; after = out.new } }
    ensures untouched { result ≡ 2 → out.new ≡ out.old }
{
    let (Some(path), Some(new)) = (given(found, "device"), given(found, "new")) else {
        return 2;
    };
    let nodes = match nodes_in(rt.alloc(), found, err) {
        Ok(nodes) => nodes,
        Err(status) => return status,
    };
    let mut device = match rt.open_to_read(path) {
        Ok(device) => device,
        Err(refused) => return told_of(err, path, refused),
    };
    let loaded = loaded_of(rt.alloc(), &mut device);
    rt.close(device);
    let loaded = match loaded {
        Ok(loaded) => loaded,
        Err(fault) => return told_of(err, path, fault),
    };
    let bytes = match grown_image(rt.alloc(), &loaded, nodes) {
        Ok(bytes) => bytes,
        Err(refused) => return told_of(err, path, refused),
    };
    match grown_text(rt.alloc(), &loaded, nodes) {
        Ok(text) => put(rt, new, &bytes, text.as_str(), out, err),
        Err(_) => told_memory(err),
    }
}

fn grown_text(alloc: Global, loaded: &Loaded, nodes: u64) -> Result<String, AllocError>
    ensures { IfOk result (λ text. string_bytes text ≡ grown_of (state_of loaded.now) nodes) }
{
    let (count, edges) = (loaded.count, loaded.graph.edges());
    format!(in alloc; "grown count={count} edges={edges} nodes={nodes}\n")
}

// How many nodes are asked for.
fn nodes_in<E: Write>(alloc: Global, found: &ArgMatches<'_>, err: &mut E) -> Result<u64, u8>
    ensures asked { IfOk result (λ nodes. first_of (codes "nodes") (rows_in found.now) ≡ Some (decimal nodes)) }
    ensures err { IfErr result IsRefusal }
{
    match optional(alloc, found, "nodes", u64::MAX) {
        Ok(Some(Some(nodes))) => Ok(nodes),
        Ok(_) => Err(told(err, 2, "--nodes takes a number")),
        Err(_) => Err(told_memory(err)),
    }
}
