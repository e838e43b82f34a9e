// The lines of an input.
ghost use Rattle.std.specs.Prelude.{◌≤◌, IfErr};

use crate::tables::ToldFiles;
use crate::telling::{told_memory, told_of};
use router_lines::Shelf;
use router_runs::RunFault;
use std::fs::File;
use std::io::{BufReader, BufWriter, Read, Write};
use std::rt::Files;

/// Answers each line, until the input ends: the answers stand in a buffer as long as lines are at hand. What can't be read or printed is
/// told.
pub(crate) fn answer_lines<R, S, O, E>(
    rt: &R,
    shelf: &mut Shelf,
    input: &mut S,
    out: &mut O,
    err: &mut E,
) -> Result<(), u8>
where
    R: Files<File = File> + AllocGlobal,
    S: Read,
    O: Write,
    E: Write,
    ensures { IfErr result (λ status. status ≤ 2) }
{
    let Ok(mut reader) = BufReader::new(rt.alloc(), input) else {
        return Err(told_memory(err));
    };
    let Ok(mut printed) = BufWriter::new(rt.alloc(), out) else {
        return Err(told_memory(err));
    };
    let mut files = ToldFiles { rt, err };
    let ended = router_runs::answer_lines(rt.alloc(), shelf, &mut files, &mut reader, &mut printed);
    drop(printed);
    match ended {
        Ok(()) => Ok(()),
        Err(RunFault::Input(error)) => Err(told_of(files.err, "standard input", error)),
        Err(RunFault::Output(error)) => Err(told_of(files.err, "standard output", error)),
        Err(RunFault::Memory) => Err(told_memory(files.err)),
    }
}
