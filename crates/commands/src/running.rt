//! The program, on any words, reader and writers.
ghost use Rattle.std.specs.Prelude.{◌≡◌, IsTrue};
ghost use Rattle.command_output.specs.declared.fault.Fault.{Fault};
ghost use Rattle.clap.specs.Walk.{texts};
ghost use Rattle.file_commands.specs.Devices.{AreFiles};
ghost use Rattle.file_commands.specs.Events.{HasDone};
ghost use Rattle.file_commands.specs.Tasks.{IsOfTables};
ghost use Rattle.table_files.specs.Files.{PutBy};
ghost use Rattle.commands.specs.Serves.{IsLiveService, MayRun};
ghost use Rattle.commands.specs.Runs.{AnyPut, MakesOnlyLive, PutsOnlyAsked, RunsTask, RunsWords, SaysAll, SaysAlone, SaysServing, SaysTables, StopsServing, streams_of, words_fault};
ghost use Rattle.file_commands.specs.Uses.{device_use, stream};

use crate::notes::tell_cause;
use crate::outcome::{Outcome, told};
use crate::service::{LiveService, Service, run_live, run_serve};
use crate::sites::{At, Sites};
use crate::streams::Streams;
use command_line::{Task, WordsRefused, parse_task};
use command_output::{Fault, FaultWriter, WatchedWriter};
use committer_thread::ServiceConfig;
use device_files::{DeviceFile, FileRefused};
use disk_trait::Disk;
use file_commands::{Access, FileDevices, run_task};
use new_devices::{NewDevices, SystemDevices};
use std::fs::File;
use std::io::{Read, Write};
use std::rt::{Clock, Files};
use std::sync::Wait;
use std::thread::Threads;
use table_files::{TableFiles, TablePlaces};

/// Does what the words ask for on files, and answers the exit status: 0 done, 1 refused, 2 not understood.
///
/// What is asked for is printed on `out`, and a fault is told on `err`. The words are judged before any file is opened. `serve` alone
/// reads `script`, and reads it to its end.
pub fn run_words<'a, R, S, O, E>(
    rt: &'a R,
    words: &[&str],
    script: &mut S,
    out: &mut O,
    err: &mut E,
) -> u8
where
    R: Files<File = File> + AllocGlobal + Clock + Threads + Wait + Sync + TablePlaces<'a>,
    R::Dir: Send,
    S: Read + Send,
    O: Write,
    E: Write,
    ensures says { SaysAlone (device_use ⟦<DeviceFile as Disk>⟧ AreFiles) (texts words.now)
        (stream S.remaining script.old script.new) (stream O.contents out.old out.new) result }

    ensures tables { SaysTables (device_use ⟦<DeviceFile as Disk>⟧ AreFiles) AnyPut (texts words.now)
        (stream S.remaining script.old script.new) (stream O.contents out.old out.new) result }

    ensures serves { SaysServing (device_use ⟦<DeviceFile as Disk>⟧ AreFiles) (texts words.now)
        (stream S.remaining script.old script.new) (stream O.contents out.old out.new) result }

    ensures stops { StopsServing (device_use ⟦<DeviceFile as Disk>⟧ AreFiles) (texts words.now)
        (stream S.remaining script.old script.new) (stream O.contents out.old out.new) result }
{
    run_words_at(rt, &mut rt.place(), words, script, out, err)
}

/// The same with the files of `tables` put at this place.
///
/// Behind a fault of a file comes a line on `err` that names the file and the cause, where the system told one.
pub fn run_words_at<R, T, S, O, E>(
    rt: &R,
    tables: &mut T,
    words: &[&str],
    script: &mut S,
    out: &mut O,
    err: &mut E,
) -> u8
where
    R: Files<File = File> + AllocGlobal + Clock + Threads + Wait + Sync,
    R::Dir: Send,
    T: TableFiles + Send,
    S: Read + Send,
    O: Write,
    E: Write,
    ensures says { SaysAll (device_use ⟦<DeviceFile as Disk>⟧ AreFiles) (PutBy T.puts tables.old tables.new) (texts words.now)
        (stream S.remaining script.old script.new) (stream O.contents out.old out.new) result }

    ensures unput { PutsOnlyAsked (texts words.now) T.puts tables.old tables.new }
{
    let (status, refused) = run_files(rt, tables, words, script, out, err);
    tell_cause(rt.alloc(), words, refused, err);
    status
}

// The same without these lines. Also how a file was asked for that couldn't be had, and why not.
fn run_files<R, T, S, O, E>(
    rt: &R,
    tables: &mut T,
    words: &[&str],
    script: &mut S,
    out: &mut O,
    err: &mut E,
) -> (u8, Option<(Access, FileRefused)>)
where
    R: Files<File = File> + AllocGlobal + Clock + Threads + Wait + Sync,
    R::Dir: Send,
    T: TableFiles + Send,
    S: Read + Send,
    O: Write,
    E: Write,
    ensures says { SaysAll (device_use ⟦<DeviceFile as Disk>⟧ AreFiles) (PutBy T.puts tables.old tables.new) (texts words.now)
        (stream S.remaining script.old script.new) (stream O.contents out.old out.new) result.0 }

    ensures unput { PutsOnlyAsked (texts words.now) T.puts tables.old tables.new }
{
    let mut faults = WatchedWriter::new(err);
    let mut devices = FileDevices::new(rt);
    let mut backups = SystemDevices::new(rt);
    let lent = Streams {
        script,
        out,
        err: &mut faults,
    };
    let at = At::new(&mut devices, &mut backups, tables);
    (run_lent(rt, at, words, lent).status(), devices.refused())
}

/// Does what the words ask for on devices of any kind, and answers how it ended. The backups that lines of a live service ask for are
/// made at a place of their own.
pub fn run_on<R, P, S, O, E>(
    rt: &R,
    at: At<'_, '_, '_, P>,
    words: &[&str],
    streams: &mut Streams<S, O, E>,
) -> Outcome
where
    R: AllocGlobal + Clock + Threads + Wait + Sync,
    P: Sites,
    <P::Backups as NewDevices>::Device: Send,
    S: Read + Send,
    O: Write,
    E: FaultWriter,
    ensures runs { RunsWords
        (device_use P.Devices.Device.Disk (HasDone P.Devices.opened P.Devices.events at.entry.devices.now at.exit.0.now))
        (PutBy P.Tables.puts at.entry.tables.now at.exit.1.1.0.now) (texts words.now)
        (streams_of (stream S.remaining streams.old.script streams.new.script)
        (stream O.contents streams.old.out streams.new.out) (stream E.contents streams.old.err streams.new.err)) result }

    // A fault that wasn't told couldn't be: a write of this writer has failed.
    ensures untold { (fault : Fault) → result ≡ Outcome.Untold fault → IsTrue (E.has_failed streams.new.err) }

    ensures unput { PutsOnlyAsked (texts words.now) P.Tables.puts at.entry.tables.now at.exit.1.1.0.now }

    ensures unmade { MakesOnlyLive (texts words.now) P.Backups.events at.entry.backups.now at.exit.1.0.now }
{
    let lent = Streams {
        script: &mut streams.script,
        out: &mut streams.out,
        err: &mut streams.err,
    };
    run_lent(rt, at, words, lent)
}

// The same over a reader and writers that are lent.
fn run_lent<R, P, S, O, E>(
    rt: &R,
    at: At<'_, '_, '_, P>,
    words: &[&str],
    streams: Streams<&mut S, &mut O, &mut E>,
) -> Outcome
where
    R: AllocGlobal + Clock + Threads + Wait + Sync,
    P: Sites,
    <P::Backups as NewDevices>::Device: Send,
    S: Read + Send,
    O: Write,
    E: FaultWriter,
    ensures runs { RunsWords
        (device_use P.Devices.Device.Disk (HasDone P.Devices.opened P.Devices.events at.entry.devices.now at.exit.0.now))
        (PutBy P.Tables.puts at.entry.tables.now at.exit.1.1.0.now) (texts words.now)
        (streams_of (stream S.remaining streams.entry.script.now streams.exit.0.now)
        (stream O.contents streams.entry.out.now streams.exit.1.0.now)
        (stream E.contents streams.entry.err.now streams.exit.1.1.0.now)) result }

    ensures untold { (fault : Fault) → result ≡ Outcome.Untold fault → IsTrue (E.has_failed streams.exit.1.1.0.now) }

    ensures unput { PutsOnlyAsked (texts words.now) P.Tables.puts at.entry.tables.now at.exit.1.1.0.now }

    ensures unmade { MakesOnlyLive (texts words.now) P.Backups.events at.entry.backups.now at.exit.1.0.now }
{
    match parse_task(rt.alloc(), words) {
        Ok(task) => run_parsed(rt, at, task, streams),
        Err(refused) => told(streams.err, Err(fault_of(refused))),
    }
}

// Does what a task asks for, and answers how it ended.
fn run_parsed<R, P, S, O, E>(
    rt: &R,
    at: At<'_, '_, '_, P>,
    task: Task<'_>,
    streams: Streams<&mut S, &mut O, &mut E>,
) -> Outcome
where
    R: AllocGlobal + Clock + Threads + Wait + Sync,
    P: Sites,
    <P::Backups as NewDevices>::Device: Send,
    S: Read + Send,
    O: Write,
    E: FaultWriter,
    requires { MayRun task }
    ensures runs { RunsTask
        (device_use P.Devices.Device.Disk (HasDone P.Devices.opened P.Devices.events at.entry.devices.now at.exit.0.now))
        (PutBy P.Tables.puts at.entry.tables.now at.exit.1.1.0.now) task.entry
        (streams_of (stream S.remaining streams.entry.script.now streams.exit.0.now)
        (stream O.contents streams.entry.out.now streams.exit.1.0.now)
        (stream E.contents streams.entry.err.now streams.exit.1.1.0.now)) result }

    ensures untold { (fault : Fault) → result ≡ Outcome.Untold fault → IsTrue (E.has_failed streams.exit.1.1.0.now) }

    ensures unput { ¬ IsOfTables task.entry → ¬ IsLiveService task.entry → P.Tables.puts at.exit.1.1.0.now ≡ P.Tables.puts at.entry.tables.now }

    ensures unmade { ¬ IsLiveService task.entry → P.Backups.events at.exit.1.0.now ≡ P.Backups.events at.entry.backups.now }
{
    match task {
        Task::Serve {
            device,
            editors,
            forwarders,
            places,
            live,
            words,
        } => {
            let config = ServiceConfig {
                editors,
                forwarders,
                places,
            };
            let service = Service {
                device,
                words,
                config,
            };
            match live {
                None => {
                    let At {
                        devices,
                        backups: _,
                        tables: _,
                    } = at;
                    let Streams { script, out, err } = streams;
                    let ended = run_serve(rt, devices, service, script, out);
                    told(err, ended)
                }
                Some(rounds) => {
                    let live = LiveService { service, rounds };
                    run_live(rt, at, live, streams)
                }
            }
        }
        task => {
            let At {
                devices,
                backups: _,
                tables,
            } = at;
            let ended = run_task(rt, devices, tables, task, streams.out);
            told(streams.err, ended)
        }
    }
}

// What is told of words that are no task.
fn fault_of(refused: WordsRefused) -> Fault
    ensures { result ≡ words_fault refused }
{
    match refused {
        WordsRefused::Usage => Fault::Usage,
        WordsRefused::Words => Fault::Words,
        WordsRefused::Op => Fault::Op,
        WordsRefused::TooLong => Fault::ChangeTooLong,
        WordsRefused::Memory => Fault::Memory,
    }
}
