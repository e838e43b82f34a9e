// A script on a device: the live service's engine runs it, and its answers are printed at the end.
ghost use Rattle.std.specs.Prelude.{◌≡◌, ◌≢◌, ◌≤◌, ◌⊎◌, IfErr, IfOk, IfSome, IsSome, OnOk, Some};
ghost use Rattle.std.specs.Io.KnownBytes.{Appends};
ghost use Rattle.command_output.specs.declared.fault.Fault.{Fault};
ghost use Rattle.command_output.specs.Faults.{status_of};
ghost use Rattle.value_syntax.specs.Scripts.{AreOfSessions};
ghost use Rattle.committer_thread.specs.Config.{IsServiceConfig};
ghost use Rattle.committer_thread.specs.Kept.{IsLeftBy};
ghost use Rattle.live_service.specs.ServeEnds.{IsServeEnd};
ghost use Rattle.line_exchange.specs.Gathers.{BreaksOff, IsServed};
ghost use Rattle.line_exchange.specs.declared.served.Served.{Served};
ghost use Rattle.line_exchange.specs.Ends.{IsToldOrFailed, TellsEnd, fault_of};
ghost use Rattle.line_exchange.specs.Inputs.{Script};
ghost use Rattle.live_service.specs.Runs.{HasServedScript, writer_use};
ghost use Rattle.live_service.specs.Services.{AnswersScript, FailsScript, ServesScript, lent};

use checkpoint::standing_law;
use command_output::{Fault, FaultWriter};
use disk_trait::Disk;
use line_exchange::{AnswerWriter, Gatherer, ScriptSource, Served, Stream};
use live_service::{
    EngineConfig, Env, Kinds, Opened, Places, ServedDevice, open_device, serve_opened, take_back,
};
use new_devices::NoDevices;
use put_lines::BlankBook;
use request_lists::Builds;
use service_actors::Gate;
use std::marker::Brand;
use std::sync::Wait;
use std::thread::Threads;
use table_files::{TableFile, TableFiles};
use value_syntax::ScriptLine;

// Where no table is put: no line of a script asks for one.
#[derive(Clone, Copy, Drop)]
struct NoTables;

impl TableFiles for NoTables {
    ghost use Rattle.std.specs.Prelude.{[]};

    ghost puts = { λ tables. [] };

    fn put(&mut self, _file: TableFile) -> Result<(), Fault> {
        Err(Fault::TableFile)
    }
}

// The service of a device that was opened, for the script that `J` names and with a book of its own, over a gatherer, whose writer comes
// back.
fn run_gatherer<'a, 'b, J, D, G, R, O>(
    env: Env<'a, R>,
    opened: Opened<D, Places<NoTables, NoDevices>>,
    gate: &'a G,
    script: Vec<ScriptLine>,
    blank: BlankBook,
    gatherer: Gatherer<'b, O>,
) -> (&'b mut O, Served, Option<D>)
where
    J: Stream + Send + Sync,
    D: Disk + Drop + Send,
    G: Gate + Sync,
    R: Threads + Wait + Sync,
    O: AnswerWriter,
    requires script { J.input ≡ Script script.items }
    requires builds { opened.config.builds ≡ Builds.InTurn }
    requires book { blank.book ≡ J.book }
    ensures same_out { result.0.ghost_name ≡ gatherer.entry.out.ghost_name }
    ensures served { HasServedScript (writer_use O.AnswerWriter gatherer.entry.out.now result.0.now) script.items
        J.Stream opened.store result.1 result.2 }
{
    let lines = ScriptSource {
        lines: script.into_iter(),
    };
    let (gatherer, served, disk) = serve_opened::<
        J,
        Kinds<D, &'a R, &'a G, NoTables, NoDevices>,
        ScriptSource,
        Gatherer<'b, O>,
    >(env, opened, gate, lines, blank, gatherer);
    let Gatherer {
        alloc: _,
        text: _,
        out,
    } = gatherer;
    (out, served, disk)
}

// The same over a writer.
fn serve_script<'a, J, D, G, R, O>(
    env: Env<'a, R>,
    opened: Opened<D, Places<NoTables, NoDevices>>,
    gate: &'a G,
    script: Vec<ScriptLine>,
    blank: BlankBook,
    out: &mut O,
) -> (Served, Option<D>)
where
    J: Stream + Send + Sync,
    D: Disk + Drop + Send,
    G: Gate + Sync,
    R: Threads + Wait + Sync,
    O: AnswerWriter,
    requires script { J.input ≡ Script script.items }
    requires builds { opened.config.builds ≡ Builds.InTurn }
    requires book { blank.book ≡ J.book }
    ensures { HasServedScript (writer_use O.AnswerWriter out.old out.new) script.items J.Stream opened.store result.0 result.1 }
{
    let alloc = env.alloc;
    let gatherer = Gatherer {
        alloc,
        text: String::new(alloc),
        out,
    };
    let (out, served, disk) = run_gatherer::<J, D, G, R, O>(
        env, opened, gate, script, blank, gatherer,
    );
    take_back(out);
    (served, disk)
}

// How a service ended whose fault isn't told yet.
fn result_of(served: Served) -> Result<(), Fault>
    ensures printed { IfOk result (λ u. served ≡ Served.Printed) }
    ensures fault { IfErr result (λ fault. fault_of served ≡ Some fault) }
{
    match served {
        Served::Printed => Ok(()),
        Served::Told(fault) | Served::Untold(fault) => Err(fault),
    }
}

/// Runs a script on a device, and prints a line for each of its lines, in their order. The device comes back, whatever ends the
/// service. What was accepted before a fault stays on it.
///
/// The engine is that of a live service, and all answers are kept until it has ended. A generation is built before any line is answered,
/// and again behind a round that changed the graph. The k-th route, from 0, goes to the forwarder `k` modulo their number. With the most
/// editors there is one forwarder less than asked for, where that was the most too.
pub fn serve_lines<'a, D, G, R, O>(
    env: Env<'a, R>,
    device: ServedDevice<D>,
    script: Vec<ScriptLine>,
    gate: &'a G,
    out: &mut O,
) -> (Result<(), Fault>, Option<D>)
where
    D: Disk + Drop + Send,
    G: Gate + Sync,
    R: Threads + Wait + Sync,
    O: AnswerWriter,
    requires config { IsServiceConfig device.config }
    requires sessions { AreOfSessions device.config.editors script.items }
    ensures printed { OnOk result.0 (IsServed script.items (Appends (O.contents out.old) (O.contents out.new))) }
    // A fault is true of the device.
    ensures ended { IfErr result.0 (λ fault. IsServeEnd D.Disk device.disk device.words result.1 fault) }
    // No line is printed where the service gives no answers.
    ensures untouched { IfErr result.0 (λ fault. fault ≢ Fault.Output → out.new ≡ out.old) }
    // Where the printing failed, a write of this very writer did, and a beginning of the lines was printed.
    ensures broken { IfErr result.0 (λ fault. fault ≡ Fault.Output → BreaksOff O.AnswerWriter script.items out.old out.new) }
    ensures back { IsSome result.1 }
    ensures left { IsLeftBy D.Disk device.disk result.1 }
    // Where no fault comes, the device came back, and the answers are of one list of requests.
    ensures one_list { OnOk result.0
        (AnswersScript (lent D.Disk device.disk result.1) script.items device.config.editors
        (O.contents out.old) (O.contents out.new)) }
{
    let ServedDevice {
        disk,
        words,
        config,
    } = device;
    // The disk's bytes stand for one state at most: the one that is opened.
    standing_law();
    let (store, source) = match open_device(env.alloc, disk, &words) {
        Ok(opened) => opened,
        Err((fault, disk)) => return (Err(fault), Some(disk)),
    };
    let opened = Opened {
        config: EngineConfig {
            service: config,
            rounds: 1,
            builds: Builds::InTurn,
        },
        store,
        source,
        places: Places {
            tables: NoTables,
            devices: NoDevices::new(),
        },
    };
    let blank = BlankBook::new();
    let (served, disk) = serve_script::<Brand, D, G, R, O>(env, opened, gate, script, blank, out);
    (result_of(served), disk)
}

/// Runs a script on a device, prints a line for each of its lines, in their order, and answers how that ended. A fault is told on
/// `err`. The device comes back.
pub fn serve_told<'a, D, G, R, O, E>(
    env: Env<'a, R>,
    device: ServedDevice<D>,
    script: Vec<ScriptLine>,
    gate: &'a G,
    out: &mut O,
    err: &mut E,
) -> (Served, Option<D>)
where
    D: Disk + Drop + Send,
    G: Gate + Sync,
    R: Threads + Wait + Sync,
    O: AnswerWriter,
    E: FaultWriter,
    requires config { IsServiceConfig device.config }
    requires sessions { AreOfSessions device.config.editors script.items }
    ensures done { result.0 ≡ Served.Printed
        → ServesScript (lent D.Disk device.disk result.1) script.items device.config.editors
        (O.contents out.old) (O.contents out.new) }
    ensures quiet { result.0 ≡ Served.Printed → err.new ≡ err.old }
    ensures fault { IfSome (fault_of result.0) (λ fault.
        FailsScript (lent D.Disk device.disk result.1) device.words (writer_use O.AnswerWriter out.old out.new) script.items fault) }
    ensures told { TellsEnd E.contents E.has_failed err.old err.new result.0 }
    ensures back { IsSome result.1 }
    ensures left { IsLeftBy D.Disk device.disk result.1 }
{
    let (result, disk) = serve_lines(env, device, script, gate, out);
    match result {
        Ok(()) => (Served::Printed, disk),
        Err(fault) => match err.tell(fault) {
            Ok(()) => (Served::Told(fault), disk),
            Err(_) => (Served::Untold(fault), disk),
        },
    }
}

/// Runs a script on a device, prints a line for each of its lines, in their order, and answers the exit status: 0, also where
/// changes were refused. A fault is told on `err`. The device comes back.
pub fn serve_on<'a, D, G, R, O, E>(
    env: Env<'a, R>,
    device: ServedDevice<D>,
    script: Vec<ScriptLine>,
    gate: &'a G,
    out: &mut O,
    err: &mut E,
) -> (u8, Option<D>)
where
    D: Disk + Drop + Send,
    G: Gate + Sync,
    R: Threads + Wait + Sync,
    O: AnswerWriter,
    E: FaultWriter,
    requires config { IsServiceConfig device.config }
    requires sessions { AreOfSessions device.config.editors script.items }
    ensures few { result.0 ≤ 2 }
    ensures done { result.0 ≡ 0
        → ServesScript (lent D.Disk device.disk result.1) script.items device.config.editors
        (O.contents out.old) (O.contents out.new) }
    ensures quiet { result.0 ≡ 0 → err.new ≡ err.old }
    ensures fault { (result.0 ≡ 0) ⊎ ((fault : Fault)
        × FailsScript (lent D.Disk device.disk result.1) device.words (writer_use O.AnswerWriter out.old out.new) script.items fault
        × (result.0 ≡ status_of fault)
        × IsToldOrFailed (E.contents err.old) (E.contents err.new) (E.has_failed err.new) fault) }
    ensures back { IsSome result.1 }
    ensures left { IsLeftBy D.Disk device.disk result.1 }
{
    let (served, disk) = serve_told(env, device, script, gate, out, err);
    match served {
        Served::Printed => (0, disk),
        Served::Told(fault) => (fault.status(), disk),
        Served::Untold(fault) => (fault.status(), disk),
    }
}
