//! A list of what is done at a place of devices, which contracts alone read.
ghost use Rattle.std.specs.Prelude.{◌≡◌, ◌∷◌, ◌++◌, [], List};
ghost use Rattle.file_commands.specs.Events.{Event, Opened, NotHad, Closed, events_in};

use crate::devices::Access;
use disk_trait::Log;
use std::snapshot::Snapshot;

// One thing that was done.
#[derive(Drop)]
enum Done<D> {
    Opened {
        path: Log<u8>,
        access: Access,
        device: Snapshot<D>,
    },
    NotHad {
        path: Log<u8>,
        access: Access,
    },
    Closed {
        device: Snapshot<D>,
    },
}

/// What was done at a place of devices, in order. It takes no memory: contracts alone read it, as `events_in`.
#[derive(Drop)]
pub struct DeviceLog<D> {
    done: Log<Done<D>>,
}

impl<D> DeviceLog<D> {
    /// Nothing was done yet.
    pub fn new() -> DeviceLog<D>
        ensures { events_in result ≡ [] }
    {
        DeviceLog { done: Log::new() }
    }

    /// Then a device was opened.
    pub fn opened(&mut self, path: &str, access: Access, device: &D)
        ensures { events_in self.new ≡ events_in self.old ++ Opened path.now access device.now ∷ [] }
    {
        self.done = self.done.with_entry(&Done::Opened {
            path: text_of(path),
            access,
            device: Snapshot::of(device),
        });
    }

    /// Then a device couldn't be had.
    pub fn not_had(&mut self, path: &str, access: Access)
        ensures { events_in self.new ≡ events_in self.old ++ NotHad path.now access ∷ [] }
    {
        self.done = self.done.with_entry(&Done::NotHad {
            path: text_of(path),
            access,
        });
    }

    /// Then a device was closed.
    pub fn closed(&mut self, device: &D)
        ensures { events_in self.new ≡ events_in self.old ++ Closed device.now ∷ [] }
    {
        self.done = self.done.with_entry(&Done::Closed {
            device: Snapshot::of(device),
        });
    }
}

// A text, for contracts alone: the list takes no memory.
fn text_of(path: &str) -> Log<u8>
    ensures { result.items ≡ path.now }
{
    let mut text = Log::new();
    for byte in path.as_bytes() {
        text = text.with_entry(byte);
    }
    text
}
