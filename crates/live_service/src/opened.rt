// A device that was opened, and what a service on it is started with.
ghost use Rattle.std.specs.Prelude.{◌≡◌, false};
ghost use Rattle.checkpoint.specs.StoreWords.{is_down, state_of};
ghost use Rattle.committer_thread.specs.Config.{IsServiceConfig};
ghost use Rattle.live_service.specs.ServedList.{IsBoardOf};

use crate::around::{Around, Kinds};
use checkpoint::Store;
use committer_thread::{ServiceConfig, Setting};
use disk_trait::Disk;
use generations::{BoardReader, BoardWriter};
use new_devices::NewDevices;
use packet_ways::BoardName;
use request_lists::Builds;
use service_actors::{Gate, WordSource};
use std::alloc::Global;
use std::marker::PhantomData;
use std::sync::Wait;
use std::thread::Threads;
use table_files::TableFiles;
use value_syntax::LandmarkWords;

/// What the engine works by.
#[derive(Clone, Copy, Drop)]
pub struct EngineConfig {
    pub service: ServiceConfig,
    /// A generation is begun so many rounds after the first accepted change that it has, at the latest.
    pub rounds: u32,
    /// Where generations are built behind the first one.
    pub builds: Builds,
}

/// The runtime by which a service goes, and the memory that it takes.
#[derive(Drop)]
pub struct Env<'a, R> {
    pub rt: &'a R,
    pub alloc: Global,
}

/// A device to be served: the landmark words of its nodes, and how many threads and places serve it.
#[derive(Drop)]
pub struct ServedDevice<D> {
    pub disk: D,
    pub words: LandmarkWords,
    pub config: ServiceConfig,
}

/// Lines that are answered as they come. A generation is begun so many rounds after the first accepted change that it has, at the latest.
#[derive(Drop)]
pub struct LiveInput<S> {
    pub lines: S,
    pub rounds: u32,
}

/// Where tables are put, and new devices are made for backups.
#[derive(Drop)]
pub struct Places<T, F> {
    pub tables: T,
    pub devices: F,
}

/// The places of a service by these types.
pub(crate) type PlacesOf<A> = Places<<A as Around>::Tables, <A as Setting>::Devices>;

/// What a live service has around it: what may hold it up, and its places.
#[derive(Drop)]
pub struct Surroundings<'a, A: Around> {
    pub gate: &'a A::Gate,
    pub places: PlacesOf<A>,
}

impl<'a, D, R, G, T, F> Surroundings<'a, Kinds<D, &'a R, &'a G, T, F>>
where
    D: Disk + Drop + Send,
    R: Threads + Wait + Sync,
    G: Gate + Sync,
    T: TableFiles + Drop + Send,
    F: NewDevices + Drop + Send,
{
    /// This gate and these places. The device and the runtime are those of the call that takes them.
    pub fn new(
        gate: &'a G,
        places: Places<T, F>,
    ) -> Surroundings<'a, Kinds<D, &'a R, &'a G, T, F>> {
        Surroundings { gate, places }
    }
}

/// The store of a device that was opened, and what its service works by.
#[derive(Drop)]
pub struct Opened<D: Disk, P> {
    pub config: EngineConfig,
    pub store: Store<D>,
    pub source: WordSource,
    pub places: P,
    ghost numbers: { IsServiceConfig config.service },
    ghost up: { is_down store ≡ false },
}

/// What the engine is started with: an opened device, and the board that `B` names, to which nothing was posted.
#[derive(Drop)]
pub struct EngineParts<B: BoardName, D: Disk, P, Q: Wait + Drop> {
    pub opened: Opened<D, P>,
    pub writer: BoardWriter<Q>,
    pub readers: Vec<BoardReader>,
    pub of: PhantomData<B>,
    ghost board: { IsBoardOf B.opening (state_of opened.store) writer readers.items },
}
