// The threads of a service: the engine's, the reader's, and the caller's, which prints.
ghost use Rattle.std.specs.Prelude.{◌≡◌, ◌≢◌, IfErr, IfOk, IfSome, IsOkAnd, None, Some, false};
ghost use Rattle.checkpoint.specs.StoreWords.{is_down, state_of, view_of};
ghost use Rattle.command_output.specs.declared.fault.Fault.{Fault};
ghost use Rattle.generations.specs.Beginnings.{GoesOn};
ghost use Rattle.committer_thread.specs.Config.{IsServiceConfig};
ghost use Rattle.committer_thread.specs.Kept.{HasSettledSome};
ghost use Rattle.live_service.specs.ServeEnds.{IsLater, told_fault};
ghost use Rattle.line_exchange.specs.declared.served.Served.{Served};
ghost use Rattle.line_exchange.specs.Ends.{fault_of};
ghost use Rattle.line_exchange.specs.Reads.{IsReadEnd};
ghost use Rattle.live_service.specs.Runs.{HasRun, IsFaultOf, IsPrintEnd, console_use};
ghost use Rattle.live_service.specs.Noting.{AreSamePuts};
ghost use Rattle.live_service.specs.ServedList.{EndsServed, IsBoardOf, builds_of};

use crate::around::Around;
use crate::client::Client;
use crate::ending::Ending;
use crate::engine::engine;
use crate::opened::{EngineParts, Env, Opened, Places, PlacesOf};
use checkpoint::Store;
use command_output::Fault;
use disk_trait::Disk;
use line_exchange::{Console, LineFault, LineQueues, Printed, Served, Stream, read_lines};
use new_devices::NewDevices;
use packet_ways::BoardName;
use service_actors::StopCause;
use std::alloc::Global;
use std::marker::PhantomData;
use std::snapshot::Snapshot;
use std::sync::Wait;
use std::sync::atomic::{AtomicBool, Ordering};
use std::thread;
use std::thread::{Promise, PromisedHandle, Scope, Threads};

// What the engine's thread answers of the disk that the store was on, of its input, and of the board that `B` names.
#[derive(Drop)]
struct EnginePromise<J: Stream, B: BoardName, D: Disk> {
    store: Snapshot<Store<D>>,
    of: PhantomData<J>,
    at: PhantomData<B>,
}

impl<J: Stream, B: BoardName, D: Disk> Promise<(Result<Ending, StopCause>, D)>
    for EnginePromise<J, B, D> {
    ghost use Rattle.live_service.specs.ServedList.{EndsServed};

    ghost kept_by = { λ p r. EndsServed B.opening J.Stream p.store.value r.0 (D.view r.1) };
}

// What the reader's thread answers of its input.
#[derive(Drop)]
struct ReaderPromise<J: Stream> {
    of: PhantomData<J>,
}

impl<J: Stream> Promise<Result<Option<u64>, LineFault>> for ReaderPromise<J> {
    ghost use Rattle.line_exchange.specs.Reads.{IsReadEnd};

    ghost kept_by = { λ p r. IsReadEnd J.input r };
}

// What is told of threads that stopped.
fn told_cause(cause: StopCause) -> Fault
    ensures { result ≡ told_fault cause }
{
    match cause {
        StopCause::Device => Fault::Device,
        StopCause::Worn => Fault::Worn,
        StopCause::Memory | StopCause::Board => Fault::Memory,
        StopCause::NoThread => Fault::NoThread,
        StopCause::Internal => Fault::Internal,
    }
}

// What is told of lines that ended early.
fn told_line(fault: LineFault) -> Fault
    ensures later { IsLater result × (result ≢ Fault.Device) }
    ensures output { result ≡ Fault.Output → fault ≡ LineFault.Failed }
    ensures failed { fault ≡ LineFault.Failed → result ≡ Fault.Output }
{
    match fault {
        LineFault::Failed => Fault::Output,
        LineFault::Memory => Fault::Memory,
        LineFault::NoThread => Fault::NoThread,
        LineFault::Internal => Fault::Internal,
    }
}

// The fault that is known once the answers are printed and the engine has ended: that the output failed goes before all others. The
// board has all that the answers know, and each session was told as many verdicts as lines were noted, or two parts disagree.
#[tactic(auto, using(crate::proofs::Ended::cause_later, crate::proofs::Ended::cause_device, crate::proofs::Ended::cause_other))]
fn early_fault(printed: &Printed, engine: &Result<Ending, StopCause>) -> Option<Fault>
    requires { IfOk engine.now (λ ending. (printed.now.tally.known.opening ≡ ending.board.opening)
        × (printed.now.tally.lines.book ≡ ending.lines.book)) }
    ensures fault { IfSome result (λ fault. IsFaultOf engine.now fault) }
    ensures output { printed.now.end ≡ Some LineFault.Failed → result ≡ Some Fault.Output }
    ensures met { result ≡ Some Fault.Output → printed.now.end ≡ Some LineFault.Failed }
    ensures none { result ≡ None → printed.now.end ≡ None }
    ensures on { result ≡ None → IsOkAnd engine.now (λ ending. GoesOn printed.now.tally.known ending.board
        × AreSamePuts printed.now.tally ending) }
{
    match (printed.end, engine) {
        (Some(LineFault::Failed), _) => Some(Fault::Output),
        (_, Err(cause)) => Some(told_cause(*cause)),
        (Some(fault), Ok(_)) => Some(told_line(fault)),
        (None, Ok(ending)) => {
            if ending.board.covers(&printed.tally.known) && ending.was_told(&printed.tally) {
                None
            } else {
                Some(Fault::Internal)
            }
        }
    }
}

// The fault that is known once the reader has ended too: it failed, or not all its lines have answers.
fn late_fault(printed: &Printed, read: &Result<Option<u64>, LineFault>) -> Option<Fault>
    ensures fault { IfSome result (λ fault. IsLater fault × (fault ≢ Fault.Device)) }
    ensures output { result ≡ Some Fault.Output → read.now ≡ Err LineFault.Failed }
    ensures none { result ≡ None → read.now ≡ Ok (Some printed.now.tally.count) }
{
    match read {
        Ok(Some(lines)) if *lines == printed.tally.count => None,
        Ok(_) => Some(Fault::Internal),
        Err(fault) => Some(told_line(*fault)),
    }
}

// Waits for the reader.
fn join_reader<J: Stream, R: Threads>(
    rt: &R,
    reader: Option<PromisedHandle<Result<Option<u64>, LineFault>, ReaderPromise<J>>>,
) -> Result<Option<u64>, LineFault>
    ensures { IsReadEnd J.input result }
{
    match reader {
        Some(reader) => reader.join(rt),
        None => Err(LineFault::NoThread),
    }
}

#[tactic(auto, using(crate::proofs::Ended::met_late))]
// Tells how the service ended, and waits for the reader: a fault that is known before is told first, since a read may take long. Which fault
// the console was given stands beside how it ended.
fn conclude<J: Stream, C: Console<J>, R: Threads>(
    rt: &R,
    console: C,
    printed: Printed,
    engine: &Result<Ending, StopCause>,
    reader: Option<PromisedHandle<Result<Option<u64>, LineFault>, ReaderPromise<J>>>,
) -> (C, Option<Fault>, Served)
    requires { IfOk engine.now (λ ending. (printed.tally.known.opening ≡ ending.board.opening)
        × (printed.tally.lines.book ≡ ending.lines.book)) }
    ensures finishes { C.finishes console result.0 result.1 result.2 }
    ensures fault { IfSome (fault_of result.2) (λ fault. IsFaultOf engine.now fault) }
    ensures printed { IsPrintEnd J.input printed result.1 result.2 }
    ensures on { result.2 ≡ Served.Printed → IsOkAnd engine.now (λ ending. GoesOn printed.tally.known ending.board
        × AreSamePuts printed.tally ending) }
{
    match early_fault(&printed, engine) {
        Some(fault) => {
            let (console, served) = console.finish(Some(fault));
            let _read = join_reader(rt, reader);
            (console, Some(fault), served)
        }
        None => {
            let read = join_reader(rt, reader);
            let fault = late_fault(&printed, &read);
            let (console, served) = console.finish(fault);
            (console, fault, served)
        }
    }
}

// The thread of an engine.
type Started<J, B, D> = PromisedHandle<(Result<Ending, StopCause>, D), EnginePromise<J, B, D>>;

// Starts the engine in a thread of its own. Where none can be made the disk comes back: then `unmade` is set, and the engine's own
// closure hands the disk out instead.
fn start_engine<
    's,
    E,
    J: Stream + Send + Sync,
    B: BoardName + Send + Sync,
    A: Around + Send + 's,
    Q: Wait + Drop + Send + 's,
>(
    scope: &Scope<'s, E>,
    rt: &'s A::Runtime,
    alloc: Global,
    parts: EngineParts<B, A::Device, PlacesOf<A>, Q>,
    gate: &'s A::Gate,
    exchange: &'s LineQueues<J, B>,
    unmade: &'s AtomicBool,
) -> Result<Started<J, B, A::Device>, A::Device>
where
    <A::Devices as NewDevices>::Device: Send,
    requires builds { parts.opened.config.builds ≡ builds_of J.input }
    ensures made { IfOk result (λ handle. handle.promise.store.value ≡ parts.opened.store) }
    ensures unmade { IfErr result (λ disk.
        HasSettledSome (state_of parts.opened.store) (view_of parts.opened.store) (A.Device.view disk)) }
{
    let promise: EnginePromise<J, B, A::Device> = EnginePromise {
        store: Snapshot::of(&parts.opened.store),
        of: PhantomData,
        at: PhantomData,
    };
    // The closure takes each part by itself: so the proof that it may go to another thread finds the rule for each.
    let EngineParts {
        opened,
        writer,
        readers,
        of: _,
    } = parts;
    let Opened {
        config,
        store,
        source,
        places,
    } = opened;
    let Places { tables, devices } = places;
    let job = move || -> (Result<Ending, StopCause>, A::Device)
        requires config { IsServiceConfig config.service }
        requires builds { config.builds ≡ builds_of J.input }
        requires board { IsBoardOf B.opening (state_of store) writer readers.items }
        requires up { is_down store ≡ false }
        ensures { EndsServed B.opening J.Stream store result.0 (A.Device.view result.1) }
    {
        if unmade.load(Ordering::SeqCst) {
            return (Err(StopCause::NoThread), store.into_disk());
        }
        let opened = Opened {
            config,
            store,
            source,
            places: Places { tables, devices },
        };
        let parts = EngineParts {
            opened,
            writer,
            readers,
            of: PhantomData,
        };
        engine::<J, B, A, Q>(rt, alloc, parts, gate, exchange)
    };
    match scope.spawn_with(promise, job) {
        Ok(handle) => Ok(handle),
        Err(refused) => {
            unmade.store(true, Ordering::SeqCst);
            let (_, disk) = (refused.value)();
            Err(disk)
        }
    }
}

/// All threads: the engine's, the reader's, and the caller's, which prints. Where no thread can be made for the engine nothing is printed.
pub(crate) fn run_threads<
    'a,
    J: Stream + Send + Sync,
    B: BoardName + Send + Sync,
    A: Around + Send,
    Q: Wait + Drop + Send,
    K: Client<J>,
>(
    env: Env<'a, A::Runtime>,
    parts: EngineParts<B, A::Device, PlacesOf<A>, Q>,
    gate: &'a A::Gate,
    exchange: &'a LineQueues<J, B>,
    lines: K::Lines,
    console: K::Console,
) -> (K::Console, Served, Option<A::Device>)
where
    <A::Devices as NewDevices>::Device: Send,
    requires given { K.Lines.has_given lines 0 }
    requires builds { parts.opened.config.builds ≡ builds_of J.input }
    ensures { HasRun (console_use K.Console.prints K.Console.finishes console result.0) J.Stream parts.opened.store result.1 result.2 }
{
    let Env { rt, alloc } = env;
    let unmade = AtomicBool::new(false);
    let unmade = &unmade;
    thread::scope(
        thread::scope_env(),
        rt,
        |scope| -> (K::Console, Served, Option<A::Device>)
            requires given { K.Lines.has_given lines 0 }
            requires builds { parts.opened.config.builds ≡ builds_of J.input }
            ensures { HasRun (console_use K.Console.prints K.Console.finishes console result.0) J.Stream parts.opened.store
                result.1 result.2 }
        {
            let engine = match start_engine::<_, J, B, A, Q>(
                scope, rt, alloc, parts, gate, exchange, unmade,
            ) {
                Ok(engine) => engine,
                Err(disk) => {
                    let (console, served) = console.finish(Some(Fault::NoThread));
                    return (console, served, Some(disk));
                }
            };
            let reader_promise: ReaderPromise<J> = ReaderPromise { of: PhantomData };
            let reader_job = move || -> Result<Option<u64>, LineFault>
                requires given { K.Lines.has_given lines 0 }
                ensures { IsReadEnd J.input result }
            { read_lines(rt, exchange, lines) };
            let reader = match scope.spawn_with(reader_promise, reader_job) {
                Ok(reader) => Some(reader),
                Err(_) => {
                    exchange.close(rt);
                    None
                }
            };
            let (console, printed) = console.print(rt, exchange);
            let (ended, disk) = engine.join(rt);
            let (console, _, served) = conclude::<J, K::Console, A::Runtime>(
                rt, console, printed, &ended, reader,
            );
            (console, served, Some(disk))
        },
    )
}
