// The types by which a live service goes on.
use committer_thread::Setting;
use disk_trait::Disk;
use new_devices::NewDevices;
use service_actors::Gate;
use std::marker::PhantomData;
use std::sync::Wait;
use std::thread::Threads;
use table_files::TableFiles;

/// The types of a service: those of its committer, the device that it serves, and where tables are put. They travel together through all its
/// calls, so one parameter names them.
pub trait Around: Setting {
    /// The device that is served.
    type Device: Disk + Drop + Send;

    /// Where tables are put.
    type Tables: TableFiles + Drop + Send;
}

/// A device `D`, a runtime behind `R`, a gate behind `G`, and places for tables and new devices. No value is made of it. The engine's thread has
/// the runtime and the gate by reference alone, and so this names references: it may go to another thread where those may.
pub struct Kinds<D, R, G, T, F> {
    of: PhantomData<(D, R, G, T, F)>,
}

impl<'a, D, R, G, T, F> Setting for Kinds<D, &'a R, &'a G, T, F>
where
    R: Threads + Wait + Sync,
    G: Gate + Sync,
    F: NewDevices + Drop + Send,
{
    type Runtime = R;

    type Gate = G;

    type Devices = F;
}

impl<'a, D, R, G, T, F> Around for Kinds<D, &'a R, &'a G, T, F>
where
    D: Disk + Drop + Send,
    R: Threads + Wait + Sync,
    G: Gate + Sync,
    T: TableFiles + Drop + Send,
    F: NewDevices + Drop + Send,
{
    type Device = D;

    type Tables = T;
}
