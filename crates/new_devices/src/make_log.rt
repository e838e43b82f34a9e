//! A list of what is done at a place of new devices, which contracts alone read.
ghost use Rattle.std.specs.Prelude.{◌≡◌, ◌∷◌, ◌++◌, [], List};
ghost use Rattle.new_devices.specs.Events.{FileEvent, LetGo, Made, events_in};

use disk_trait::Log;
use std::snapshot::Snapshot;

// One thing that was done.
#[derive(Drop)]
enum Done<D> {
    Made { path: Log<u8>, device: Snapshot<D> },
    LetGo { device: Snapshot<D> },
}

/// What was done at a place of new devices, in order. It takes no memory: contracts alone read it, as `events_in`.
#[derive(Drop)]
pub struct MakeLog<D> {
    done: Log<Done<D>>,
}

impl<D> MakeLog<D> {
    /// Nothing was done yet.
    pub fn new() -> MakeLog<D>
        ensures { events_in result ≡ [] }
    {
        MakeLog { done: Log::new() }
    }

    /// Then a device was made.
    pub fn made(&mut self, path: &str, device: &D)
        ensures { events_in self.new ≡ events_in self.old ++ Made path.now device.now ∷ [] }
    {
        self.done = self.done.with_entry(&Done::Made {
            path: text_of(path),
            device: Snapshot::of(device),
        });
    }

    /// Then a device was let go.
    pub fn let_go(&mut self, device: &D)
        ensures { events_in self.new ≡ events_in self.old ++ LetGo device.now ∷ [] }
    {
        self.done = self.done.with_entry(&Done::LetGo {
            device: Snapshot::of(device),
        });
    }
}

// A text, for contracts alone: the list takes no memory.
fn text_of(path: &str) -> Log<u8>
    ensures { result.items ≡ path.now }
{
    let mut text = Log::new();
    for byte in path.as_bytes() {
        text = text.with_entry(byte);
    }
    text
}
