// The types by which the committer's thread goes on.
use new_devices::NewDevices;
use service_actors::Gate;
use std::sync::Wait;
use std::thread::Threads;

/// The types by which a service goes on. They travel together through all its calls, so one parameter names them.
pub trait Setting {
    /// The runtime of its threads.
    type Runtime: Threads + Wait + Sync;

    /// What may hold it up.
    type Gate: Gate + Sync;

    /// Where new devices are made.
    type Devices: NewDevices + Drop + Send;
}
