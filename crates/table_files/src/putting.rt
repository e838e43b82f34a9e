//! The tables of a scheme's nodes, put one after the other.
ghost use Rattle.std.specs.Prelude.{◌≡◌, ◌≢◌, ◌<◌, ◌⊎◌, ◌∷◌, [], ◌↔◌, IfErr, IfOk, IsTrue, OnErr, length};
ghost use Rattle.router_table.specs.Order.{IsTable};
ghost use Rattle.router_table.specs.Spelling.{SpellsTable};
ghost use Rattle.router_table.specs.Table.{table_at};
ghost use Rattle.graph_edits.specs.Edges.{below};
ghost use Rattle.command_output.specs.Lines.{line};
ghost use Rattle.command_output.specs.RouteLines.{absent_text};
ghost use Rattle.command_output.specs.Printing.{PrintsText};
ghost use Rattle.table_files.specs.Files.{IsPutFault, PutBy, put_of};
ghost use Rattle.table_files.specs.Tables.{AreInOrder, AreThere, EndsPutAll, EndsPutAsked, HasPutSome, IsTotalOf, MayMiss, asked_nodes, file_of, files_of};

use crate::place::{TableFile, TableFiles, path_of};
use crate::totals::Totals;
use command_output::{AbsentLine, Ended, Fault, TablesLine, print_line};
use router_table::{RouterTable, TableRefused};
use schemes::Scheme;
use std::alloc::{AllocError, Global};
use std::io::Write;

/// Whether all of these nodes are below a number.
fn are_there(nodes: &[u16], count: u16) -> bool
    ensures { IsTrue result ↔ AreThere count nodes.now }
{
    nodes.iter().all(|node| *node < count)
}

// The nodes below a number.
fn nodes_below(alloc: Global, count: u16) -> Result<Vec<u16>, AllocError>
    ensures { IfOk result (λ nodes. nodes.items ≡ below count) }
{
    let mut nodes = Vec::new(alloc);
    for node in 0..count {
        nodes.push(node)?;
    }
    Ok(nodes)
}

/// The nodes whose tables are asked for, of so many.
fn nodes_asked(alloc: Global, named: &[u16], count: u16) -> Result<Vec<u16>, AllocError>
    ensures { IfOk result (λ nodes. nodes.items ≡ asked_nodes named.now count) }
{
    if named.is_empty() {
        nodes_below(alloc, count)
    } else {
        Vec::from_slice(alloc, named)
    }
}

/// The bytes of a node's table.
fn bytes_of(alloc: Global, scheme: &Scheme, node: u16) -> Result<Vec<u8>, Fault>
    requires { node < scheme.now.nodes }
    ensures bytes { IfOk result (λ bytes. SpellsTable bytes.items (table_at scheme.now node)) }
    ensures fault { IfErr result (λ fault. MayMiss scheme.now node fault) }
{
    match RouterTable::of(alloc, scheme, node) {
        Ok(table) => Ok(table.write(alloc)?),
        Err(TableRefused::NotInOrder) => Err(Fault::Internal),
        Err(TableRefused::Memory) => Err(Fault::Memory),
        Err(TableRefused::NoNode) => unreachable!(),
    }
}

/// The file of a node's table, of a scheme. It may be put later: nothing of the scheme stays in it.
pub fn file_for(alloc: Global, scheme: &Scheme, folder: &str, node: u16) -> Result<TableFile, Fault>
    requires { node < scheme.now.nodes }
    ensures file { IfOk result (λ file. put_of file ≡ file_of scheme.now folder.now node) }
    ensures order { IfOk result (λ _. IsTable (table_at scheme.now node)) }
    ensures fault { IfErr result (λ fault. MayMiss scheme.now node fault) }
{
    let path = path_of(alloc, folder, node)?;
    let bytes = bytes_of(alloc, scheme, node)?;
    Ok(TableFile { path, bytes })
}

/// Puts the file of a node's table, and answers how many bytes it has.
fn put_table<T: TableFiles>(
    alloc: Global,
    tables: &mut T,
    scheme: &Scheme,
    folder: &str,
    node: u16,
) -> Result<usize, Fault>
    requires { node < scheme.now.nodes }
    ensures put { IfOk result (λ _. PutBy T.puts tables.old tables.new (file_of scheme.now folder.now node ∷ [])) }
    ensures len { IfOk result (λ len. len ≡ length (file_of scheme.now folder.now node).bytes) }
    ensures order { IfOk result (λ _. IsTable (table_at scheme.now node)) }
    ensures kept { OnErr result (T.puts tables.new ≡ T.puts tables.old) }
    ensures fault { IfErr result (λ fault. IsPutFault fault ⊎ MayMiss scheme.now node fault) }
{
    let file = file_for(alloc, scheme, folder, node)?;
    let len = file.bytes.len();
    tables.put(file)?;
    Ok(len)
}

/// Puts the files of these nodes' tables, one after the other.
fn put_tables<T: TableFiles>(
    alloc: Global,
    tables: &mut T,
    scheme: &Scheme,
    folder: &str,
    nodes: &[u16],
) -> Result<Totals, Fault>
    requires { AreThere scheme.now.nodes nodes.now }
    ensures put { IfOk result (λ _. PutBy T.puts tables.old tables.new (files_of scheme.now folder.now nodes.now)) }
    ensures order { IfOk result (λ _. AreInOrder scheme.now nodes.now) }
    ensures totals { IfOk result (λ totals. IsTotalOf totals (files_of scheme.now folder.now nodes.now)) }
    ensures fault { IfErr result (λ fault. (fault ≢ Fault.Output)
        × HasPutSome scheme.now folder.now nodes.now (PutBy T.puts tables.old tables.new) fault) }
{
    let mut totals = Totals::none();
    for node in nodes {
        let len = put_table(alloc, tables, scheme, folder, *node)?;
        totals = totals.with(len);
    }
    Ok(totals)
}

// Prints that a node isn't there.
fn print_absent<O: Write>(out: &mut O) -> Result<Ended, Fault>
    ensures ended { IfOk result (λ ended. ended ≡ Ended.Refused) }
    ensures printed { IfOk result (λ _. PrintsText O.contents out.old out.new (line absent_text)) }
    ensures fault { IfErr result (λ fault. fault ≡ Fault.Output) }
{
    print_line(out, AbsentLine)?;
    Ok(Ended::Refused)
}

// Puts the files of these nodes' tables, and prints their line.
fn put_all<T: TableFiles, O: Write>(
    alloc: Global,
    tables: &mut T,
    scheme: &Scheme,
    folder: &str,
    nodes: &[u16],
    out: &mut O,
) -> Result<Ended, Fault>
    requires { AreThere scheme.now.nodes nodes.now }
    ensures { EndsPutAll scheme.now folder.now nodes.now (PutBy T.puts tables.old tables.new)
        O.contents out.old out.new result }
{
    let totals = put_tables(alloc, tables, scheme, folder, nodes)?;
    print_line(
        out,
        TablesLine {
            generation: scheme.parts().generation,
            tables: totals.tables,
            bytes: totals.bytes,
            greatest: totals.greatest,
        },
    )?;
    Ok(Ended::Done)
}

/// Puts the files of the tables that a scheme has of the nodes that are named, or of all where none is, and prints their line. Where a
/// node that is named isn't there nothing is put, and that is printed.
pub fn put_asked<T: TableFiles, O: Write>(
    alloc: Global,
    tables: &mut T,
    scheme: &Scheme,
    folder: &str,
    named: &[u16],
    out: &mut O,
) -> Result<Ended, Fault>
    ensures { EndsPutAsked scheme.now folder.now named.now (PutBy T.puts tables.old tables.new)
        O.contents out.old out.new result }
{
    let count = scheme.parts().nodes;
    if !are_there(named, count) {
        return print_absent(out);
    }
    let nodes = nodes_asked(alloc, named, count)?;
    put_all(alloc, tables, scheme, folder, &nodes, out)
}
