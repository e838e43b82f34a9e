//! The command `serve`, over a script or over lines as they come.
ghost use Rattle.std.specs.Prelude.{◌≡◌, ◌++◌, IfOk, IfErr, IsTrue};
ghost use Rattle.command_output.specs.declared.fault.Fault.{Fault};
ghost use Rattle.value_syntax.specs.Scripts.{AreOfSessions};
ghost use Rattle.committer_thread.specs.Config.{IsServiceConfig};
ghost use Rattle.file_commands.specs.Events.{HasDone};
ghost use Rattle.commands.specs.Serves.{EndsScript, IsReadFault, IsScriptFault, IsScriptOf, closing};
ghost use Rattle.commands.specs.Runs.{IsEndOf, RunsLive, streams_of};
ghost use Rattle.file_commands.specs.Uses.{device_use, stream};

use crate::clocked_gate::ClockedGate;
use crate::outcome::{Outcome, told};
use crate::sites::{At, Sites};
use crate::streams::Streams;
use command_output::{Ended, Fault, FaultWriter};
use committer_thread::{OpenGate, ServiceConfig};
use file_commands::{Access, Devices};
use live_service::{Env, LiveInput, Places, Served, ServedDevice, Surroundings, serve_live};
use new_devices::{LentDevices, NewDevices};
use script_service::serve_lines;
use std::alloc::Global;
use std::io;
use std::io::{BufReader, ErrorKind, Read, Write};
use std::rt::Clock;
use std::sync::Wait;
use std::thread::Threads;
use table_files::LentTables;
use value_syntax::{LandmarkWords, ScriptLine, script};

// The script that a reader gives, read to its end. One that isn't understood is none for so many editors.
fn read_script<S: Read>(alloc: Global, from: &mut S, editors: u8) -> Result<Vec<ScriptLine>, Fault>
    ensures found { IfOk result (λ lines. IsScriptOf (S.remaining from.old) editors lines.items) }
    ensures sessions { IfOk result (λ lines. AreOfSessions editors lines.items) }

    ensures fault { IfErr result (λ fault. IsScriptFault (S.remaining from.old) editors fault) }
{
    let mut bytes = Vec::new(alloc);
    if let Err(error) = from.read_to_end(&mut bytes) {
        return Err(reading_fault(error));
    }
    let Ok(text) = str::from_utf8(&bytes) else {
        return Err(Fault::Script);
    };
    match script(alloc, text, editors)? {
        Some(lines) => Ok(lines),
        None => Err(Fault::Script),
    }
}

/// What is told of an input that can't be read.
pub fn reading_fault(error: io::Error) -> Fault
    ensures { IsReadFault result }
{
    match error.kind() {
        ErrorKind::OutOfMemory => Fault::Memory,
        _ => Fault::Output,
    }
}

/// A service that is asked for: its device, the landmarks, and its threads.
#[derive(Drop)]
pub(crate) struct Service<'a> {
    pub(crate) device: &'a str,
    pub(crate) words: LandmarkWords,
    pub(crate) config: ServiceConfig,
}

/// A live service that is asked for, and how many rounds its tables may be behind.
#[derive(Drop)]
pub(crate) struct LiveService<'a> {
    pub(crate) service: Service<'a>,
    pub(crate) rounds: u16,
}

// Closes a device, where a service gave it back.
fn close_back<F: Devices>(devices: &mut F, back: Option<F::Device>)
    ensures { F.events devices.new ≡ F.events devices.old ++ closing back }
{
    if let Some(device) = back {
        devices.close(device);
    }
}

/// Runs the script that a reader gives on a device, and prints a line for each of its lines. The script is judged before the device
/// is opened, and a node that the words name right after that.
pub(crate) fn run_serve<R, F, S, O>(
    rt: &R,
    devices: &mut F,
    service: Service<'_>,
    script: &mut S,
    out: &mut O,
) -> Result<Ended, Fault>
where
    R: AllocGlobal + Threads + Wait + Sync,
    F: Devices,
    S: Read,
    O: Write,
    requires { IsServiceConfig service.config }
    ensures { EndsScript (device_use F.Device.Disk (HasDone F.opened F.events devices.old devices.new)) service.entry
        (S.remaining script.old) (stream O.contents out.old out.new) result }
{
    let Service {
        device,
        words,
        config,
    } = service;
    let lines = read_script(rt.alloc(), script, config.editors)?;
    let disk = devices.open(device, Access::ToChange)?;
    let env = Env {
        rt,
        alloc: rt.alloc(),
    };
    let served = ServedDevice {
        disk,
        words,
        config,
    };
    let (answer, left) = serve_lines(env, served, lines, &OpenGate, out);
    close_back(devices, left);
    answer?;
    Ok(Ended::Done)
}

// How a live service ended, as the program ends.
fn outcome_of(served: Served) -> Outcome
    ensures { IsEndOf served result }
{
    match served {
        Served::Printed => Outcome::Answered(Ended::Done),
        Served::Told(fault) => Outcome::Told(fault),
        Served::Untold(fault) => Outcome::Untold(fault),
    }
}

/// Answers the lines that a reader gives on a device, each as it comes, until the reader's end. A fault is told. The tables that lines ask
/// for are put at this place, and the backups made at that one.
pub(crate) fn run_live<R, P, S, O, E>(
    rt: &R,
    at: At<'_, '_, '_, P>,
    live: LiveService<'_>,
    streams: Streams<&mut S, &mut O, &mut E>,
) -> Outcome
where
    R: AllocGlobal + Clock + Threads + Wait + Sync,
    P: Sites,
    <P::Backups as NewDevices>::Device: Send,
    S: Read + Send,
    O: Write,
    E: FaultWriter,
    requires { IsServiceConfig live.service.config }
    ensures runs { RunsLive
        (device_use P.Devices.Device.Disk (HasDone P.Devices.opened P.Devices.events at.entry.devices.now at.exit.0.now))
        live.entry.service
        (streams_of (stream S.remaining streams.entry.script.now streams.exit.0.now)
        (stream O.contents streams.entry.out.now streams.exit.1.0.now)
        (stream E.contents streams.entry.err.now streams.exit.1.1.0.now)) result }

    ensures untold { (fault : Fault) → result ≡ Outcome.Untold fault → IsTrue (E.has_failed streams.exit.1.1.0.now) }
{
    let At {
        devices,
        backups,
        tables,
    } = at;
    let Streams { script, out, err } = streams;
    let LiveService { service, rounds } = live;
    let Service {
        device,
        words,
        config,
    } = service;
    let Ok(input) = BufReader::new(rt.alloc(), &mut *script) else {
        return told(err, Err(Fault::Memory));
    };
    let disk = match devices.open(device, Access::ToChange) {
        Ok(disk) => disk,
        Err(fault) => return told(err, Err(fault)),
    };
    let env = Env {
        rt,
        alloc: rt.alloc(),
    };
    let given = ServedDevice {
        disk,
        words,
        config,
    };
    let input = LiveInput {
        lines: input,
        rounds: u32::from(rounds),
    };
    let gate = ClockedGate::new(rt);
    let places = Places {
        tables: LentTables::new(tables),
        devices: LentDevices::new(backups),
    };
    let around = Surroundings::new(&gate, places);
    let (served, back) = serve_live(env, given, input, around, out, err);
    close_back(devices, back);
    outcome_of(served)
}
