// The live service on a device.
ghost use Rattle.std.specs.Prelude.{◌≡◌, IfSome, IsSome, IsTrue};
ghost use Rattle.command_output.specs.declared.fault.Fault.{Fault};
ghost use Rattle.committer_thread.specs.Config.{IsServiceConfig};
ghost use Rattle.committer_thread.specs.Kept.{IsLeftBy};
ghost use Rattle.live_service.specs.ServeEnds.{IsServeEnd};
ghost use Rattle.line_exchange.specs.declared.served.Served.{Served};
ghost use Rattle.line_exchange.specs.Ends.{HasToldSo, TellsEnd, fault_of};
ghost use Rattle.line_exchange.specs.Inputs.{Bytes};
ghost use Rattle.live_service.specs.Runs.{HasEnded, PrintsTo};
ghost use Rattle.live_lines.specs.Answers.{answer_text};
ghost use Rattle.live_service.specs.ServedList.{HasPrintedOn};
ghost use Rattle.live_service.specs.Services.{AnswersInput, lent};

use crate::around::Around;
use crate::opened::{EngineConfig, Env, LiveInput, Opened, PlacesOf, ServedDevice, Surroundings};
use crate::opening::open_device;
use crate::serving::{serve_opened, take_back};
use checkpoint::standing_law;
use command_output::FaultWriter;
use line_exchange::{AnswerWriter, InputSource, Served, Stream, Terminal, told};
use new_devices::NewDevices;
use put_lines::BlankBook;
use request_lists::Builds;
use std::io::BufRead;
use std::marker::Brand;

// The service of a device that was opened, for the input that `J` names and with a book of its own.
fn serve_stream<'a, J, A, S, O, E>(
    env: Env<'a, A::Runtime>,
    opened: Opened<A::Device, PlacesOf<A>>,
    gate: &'a A::Gate,
    input: (S, BlankBook),
    out: &mut O,
    err: &mut E,
) -> (Served, Option<A::Device>)
where
    J: Stream + Send + Sync,
    A: Around + Send,
    <A::Devices as NewDevices>::Device: Send,
    S: BufRead + Send + Drop,
    O: AnswerWriter,
    E: FaultWriter,
    requires editors { opened.config.service.editors ≡ J.editors }
    requires builds { opened.config.builds ≡ Builds.Beside }
    requires input { J.input ≡ Bytes (S.remaining input.0) }
    requires book { input.1.book ≡ J.book }
    ensures printed { PrintsTo O.AnswerWriter J.input J.editors out.old out.new result.0 }
    ensures told { TellsEnd E.contents E.has_failed err.old err.new result.0 }
    ensures ended { HasEnded opened.store result.0 result.1 }
    ensures one_list { result.0 ≡ Served.Printed
        → HasPrintedOn answer_text J.Stream opened.store (O.contents out.old) (O.contents out.new) result.1 }
{
    let (input, blank) = input;
    let alloc = env.alloc;
    let lines = InputSource::new(alloc, opened.config.service.editors, input);
    let terminal = Terminal { alloc, out, err };
    let (terminal, served, disk) = serve_opened::<J, A, InputSource<S>, Terminal<O, E>>(
        env, opened, gate, lines, blank, terminal,
    );
    let Terminal { alloc: _, out, err } = terminal;
    take_back(out);
    take_back(err);
    (served, disk)
}

/// Answers the lines of an input on a device: each line as it comes, in the order of the lines, until the input's end.
///
/// The committer, each editor, each forwarder, the waiter and the reader run in threads of their own, and the printer in the caller's.
/// The first generation is begun at the start. The next one is begun where something that was accepted isn't in one and no more edits
/// wait, or `rounds` rounds after the first such edit at the latest. Each is built in a thread of its own, one at a time, so that no edit
/// waits for it, and no `resume`. What asks for a way, an address, a packet, tables or how the service stands waits until the first one
/// is there. An edit goes to its session's editor; the k-th of the other lines but `state`, `wait`, `backup` and `metrics`, from 0, to
/// the forwarder `k` modulo their number.
///
/// What ends the service before the input's end is told on `err`, once all answers before the first line without one are printed.
/// [`Served::Printed`]: the input came to its end, and all its lines are answered. What was accepted stays on the device, which comes
/// back whatever ends the service.
pub fn serve_live<'a, A, S, O, E>(
    env: Env<'a, A::Runtime>,
    device: ServedDevice<A::Device>,
    input: LiveInput<S>,
    around: Surroundings<'a, A>,
    out: &mut O,
    err: &mut E,
) -> (Served, Option<A::Device>)
where
    A: Around + Send,
    <A::Devices as NewDevices>::Device: Send,
    S: BufRead + Send + Drop,
    O: AnswerWriter,
    E: FaultWriter,
    requires config { IsServiceConfig device.config }
    // Lines of answers, the k-th to the k-th line of the input, where its bytes are known. Where a write of this writer failed, a beginning
    // of such lines.
    ensures printed { PrintsTo O.AnswerWriter (Bytes (S.remaining input.lines)) device.config.editors out.old out.new result.0 }
    ensures told { HasToldSo (E.contents err.old) (E.contents err.new) result.0 }
    // A fault that wasn't told couldn't be: a write of this writer has failed.
    ensures untold { (fault : Fault) → result.0 ≡ Served.Untold fault → IsTrue (E.has_failed err.new) }
    // A fault is true of the device.
    ensures ended { IfSome (fault_of result.0) (λ fault. IsServeEnd A.Device.Disk device.disk device.words result.1 fault) }
    // The device comes back, whatever ended it.
    ensures back { IsSome result.1 }
    // It is the very device: a crash at any moment leaves the state after a beginning of the requests that were taken.
    ensures left { IsLeftBy A.Device.Disk device.disk result.1 }
    // Where no fault ended it, the device came back, and the answers are of one list of requests.
    ensures one_list { result.0 ≡ Served.Printed
        → AnswersInput (lent A.Device.Disk device.disk result.1) (Bytes (S.remaining input.lines)) device.config.editors
        (O.contents out.old) (O.contents out.new) }
{
    let ServedDevice {
        disk,
        words,
        config,
    } = device;
    let LiveInput { lines, rounds } = input;
    let Surroundings { gate, places } = around;
    // The disk's bytes stand for one state at most: the one that is opened.
    standing_law();
    let (store, source) = match open_device(env.alloc, disk, &words) {
        Ok(opened) => opened,
        Err((fault, disk)) => return (told(err, Some(fault)), Some(disk)),
    };
    let opened = Opened {
        config: EngineConfig {
            service: config,
            rounds,
            builds: Builds::Beside,
        },
        store,
        source,
        places,
    };
    let input = (lines, BlankBook::new());
    serve_stream::<Brand, A, S, O, E>(env, opened, gate, input, out, err)
}
