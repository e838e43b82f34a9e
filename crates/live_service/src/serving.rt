// The service of an opened device, whatever its lines come from and whoever prints the answers.
ghost use Rattle.std.specs.Prelude.{◌≡◌, ◌+◌, IfOk, vec_len};
ghost use Rattle.checkpoint.specs.StoreWords.{state_of};
ghost use Rattle.committer_thread.specs.Config.{IsServiceConfig};
ghost use Rattle.live_service.specs.Runs.{HasRun, console_use};
ghost use Rattle.live_service.specs.ServedList.{IsBoardOf, builds_of};

use crate::around::Around;
use crate::client::{Client, Ends};
use crate::opened::{EngineConfig, EngineParts, Env, Opened, PlacesOf};
use crate::running::run_threads;
use checkpoint::Store;
use command_output::Fault;
use disk_trait::Disk;
use generations::{BoardReader, BoardWriter, board};
use line_exchange::{Console, LineQueues, LineSource, Served, Stream};
use new_devices::NewDevices;
use packet_ways::BoardName;
use put_lines::BlankBook;
use std::alloc::{AllocError, Global};
use std::marker::{Brand, PhantomData};
use std::sync::Wait;

/// Does nothing, but by this use of a reference that came back the caller knows what it left.
pub fn take_back<T>(x: &mut T)
    ensures { x.new ≡ x.old }
{}

// A board for a store, to which nothing was posted, with readers for all editors and forwarders and one for tables.
fn board_of<'a, D: Disk, R: Wait>(
    rt: &'a R,
    alloc: Global,
    config: &EngineConfig,
    store: &Store<D>,
) -> Result<(BoardWriter<&'a R>, Vec<BoardReader>), AllocError>
    requires { IsServiceConfig config.now.service }
    ensures board { IfOk result (λ r. IsBoardOf r.0.opening (state_of store.now) r.0 r.1.items) }
    // As many forwarders are seated as were asked for.
    ensures seats { IfOk result (λ r.
        vec_len r.1 ≡ config.now.service.editors + config.now.service.forwarders + 1) }
{
    let config = &config.service;
    let readers = config.editors as usize + config.forwarders as usize + 1;
    let (starts, count) = (store.starts(), store.count());
    board::<&R>(alloc, rt, readers, &starts, count)
}

// Memory ran out before the threads were started: that is told, and the device comes back.
fn unstarted<J: Stream, D: Disk + Drop, P: Drop, C: Console<J>>(
    opened: Opened<D, P>,
    console: C,
) -> (C, Served, Option<D>)
    ensures { HasRun (console_use C.prints C.finishes console result.0) J.Stream opened.store result.1 result.2 }
{
    let (console, served) = console.finish(Some(Fault::Memory));
    let Opened {
        config: _,
        store,
        source: _,
        places: _,
    } = opened;
    (console, served, Some(store.into_disk()))
}

// The service at the board that `B` names, whose editors note lines in the book that `J` names.
fn serve_at_board<
    'a,
    J: Stream + Send + Sync,
    B: BoardName + Send + Sync,
    A: Around + Send,
    Q: Wait + Drop + Send,
    K: Client<J>,
>(
    env: Env<'a, A::Runtime>,
    opened: Opened<A::Device, PlacesOf<A>>,
    board: (BoardWriter<Q>, Vec<BoardReader>, BlankBook),
    gate: &'a A::Gate,
    lines: K::Lines,
    console: K::Console,
) -> (K::Console, Served, Option<A::Device>)
where
    <A::Devices as NewDevices>::Device: Send,
    requires board { IsBoardOf B.opening (state_of opened.store) board.0 board.1.items }
    requires blank { board.2.book ≡ J.book }
    requires given { K.Lines.has_given lines 0 }
    requires builds { opened.config.builds ≡ builds_of J.input }
    ensures { HasRun (console_use K.Console.prints K.Console.finishes console result.0) J.Stream opened.store result.1 result.2 }
{
    let alloc = env.alloc;
    let (writer, readers, blank) = board;
    let service = opened.config.service;
    let known = writer.tell().history();
    let starts = opened.store.starts();
    match LineQueues::<J, B>::new(
        alloc,
        service.editors,
        service.forwarders,
        known,
        &starts,
        blank,
    ) {
        Ok(exchange) => {
            let parts = EngineParts {
                opened,
                writer,
                readers,
                of: PhantomData,
            };
            run_threads::<J, B, A, Q, K>(env, parts, gate, &exchange, lines, console)
        }
        Err(_) => unstarted::<J, A::Device, PlacesOf<A>, K::Console>(opened, console),
    }
}

/// The service of a device that was opened, for the lines that `J` names: all threads, from these lines to this console. Editors note in
/// the book that `J` names which lines put requests. The disk comes back.
pub fn serve_opened<'a, J, A, L, C>(
    env: Env<'a, A::Runtime>,
    opened: Opened<A::Device, PlacesOf<A>>,
    gate: &'a A::Gate,
    lines: L,
    blank: BlankBook,
    console: C,
) -> (C, Served, Option<A::Device>)
where
    J: Stream + Send + Sync,
    A: Around + Send,
    <A::Devices as NewDevices>::Device: Send,
    L: LineSource<J> + Send + Drop,
    C: Console<J> + Drop,
    requires given { L.has_given lines 0 }
    requires builds { opened.config.builds ≡ builds_of J.input }
    requires blank { blank.book ≡ J.book }
    ensures { HasRun (console_use C.prints C.finishes console result.0) J.Stream opened.store result.1 result.2 }
{
    match board_of(env.rt, env.alloc, &opened.config, &opened.store) {
        Ok((writer, readers)) => serve_at_board::<J, Brand, A, &A::Runtime, Ends<L, C>>(
            env,
            opened,
            (writer, readers, blank),
            gate,
            lines,
            console,
        ),
        Err(_) => unstarted::<J, A::Device, PlacesOf<A>, C>(opened, console),
    }
}
