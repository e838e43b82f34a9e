//! The command `tables`.
ghost use Rattle.table_files.specs.Files.{PutBy};
ghost use Rattle.file_commands.specs.Endings.{IsOnlyRead, IsTablesEnd, IsWordsFault};
ghost use Rattle.file_commands.specs.Printed.{PrintsTables};
ghost use Rattle.file_commands.specs.Queries.{AnswersIn};
ghost use Rattle.file_commands.specs.Runs.{EndsOn, EndsPutFound};
ghost use Rattle.file_commands.specs.SchemeAnswers.{IsSchemeBy};
ghost use Rattle.file_commands.specs.Uses.{stream, views};

use crate::asking::ask_device;
use crate::scheme_tasks::words_of;
use command_output::{Ended, Fault};
use disk_trait::Disk;
use graph_edits::Graph;
use scheme_builds::{scheme_of_in_threads, workers_here};
use schemes::Scheme;
use std::alloc::Global;
use std::io::Write;
use std::sync::Wait;
use std::thread::Threads;
use table_files::{TableFiles, put_asked};
use value_syntax::LandmarkWords;

/// The scheme of a graph, by the words that were asked for.
fn scheme_in_graph<R: Threads + Wait + Sync + AllocGlobal>(
    rt: &R,
    graph: &Graph,
    generation: u64,
    asked: &LandmarkWords,
) -> Result<Scheme, Fault>
    ensures { AnswersIn graph.now asked.now (IsSchemeBy graph.now generation asked.now)
        (IsWordsFault asked.now) result }
{
    let alloc = rt.alloc();
    let words = words_of(alloc, graph, asked)?;
    let workers = workers_here(rt, graph.nodes());
    Ok(scheme_of_in_threads(rt, alloc, graph, &words, generation, workers)?)
}

// Puts the tables of a scheme that was found.
#[tactic(auto, using(table_files::proofs::PutFiles::none_put))]
fn put_found<T: TableFiles, O: Write>(
    alloc: Global,
    tables: &mut T,
    answer: Result<(u64, Scheme), Fault>,
    folder: &str,
    named: &[u16],
    out: &mut O,
) -> Result<Ended, Fault>
    ensures { EndsPutFound answer folder.now named.now (PutBy T.puts tables.old tables.new)
        (stream O.contents out.old out.new) result }
{
    let found = answer?;
    put_asked(alloc, tables, &found.1, folder, named, out)
}

/// Puts the tables of nodes of a device, and prints their line. Judged in this order: the device, the nodes that the words name, the
/// nodes that are named. The device was only read.
pub(crate) fn tables_on<R: Threads + Wait + Sync + AllocGlobal, D: Disk, T: TableFiles, O: Write>(
    rt: &R,
    disk: D,
    tables: &mut T,
    asked: &LandmarkWords,
    folder: &str,
    named: &[u16],
    out: &mut O,
) -> (Result<Ended, Fault>, D)
    ensures { EndsOn IsOnlyRead (PrintsTables asked.now folder.now named.now (PutBy T.puts tables.old tables.new))
        (IsTablesEnd asked.now folder.now named.now (PutBy T.puts tables.old tables.new))
        (views (D.view disk) (D.view result.1)) (stream O.contents out.old out.new) result.0 }
{
    let alloc = rt.alloc();
    let (answer, disk) = ask_device(
        alloc,
        disk,
        |graph: &Graph, generation: u64| scheme_in_graph(rt, graph, generation, asked),
    );
    (put_found(alloc, tables, answer, folder, named, out), disk)
}
