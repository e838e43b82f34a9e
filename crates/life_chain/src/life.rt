// What a life is asked to do.
ghost use Rattle.std.specs.Prelude.{◌≤◌};

use disk_trait::Plan;
use event_model::Event;

/// What a life of a device is asked to do, from its opening to its crash.
#[derive(Drop)]
pub struct Life {
    /// How many sessions there are, 1 to 64.
    pub sessions: usize,
    /// How many requests the queue holds at most, 1 to 64.
    pub capacity: usize,
    /// The landmark words of its rebuild.
    pub words: Vec<u64>,
    pub events: Vec<Event>,
    /// Which calls of the device fail. Number 1 is the first that an event makes.
    pub plan: Plan,
    /// What the crash leaves, of the images that it may leave.
    pub word: u64,
    ghost some_sessions: { (1 ≤ sessions) × (sessions ≤ 64) },
    ghost some_room: { (1 ≤ capacity) × (capacity ≤ 64) },
}
