// What may hold up a launch, or a build; and a clock.

/// Is called ahead of a launch, behind an answered hop, and ahead of a build beside the rounds.
pub trait Gate {
    /// A forwarder is about to look up the newest generation for a launch.
    fn before_launch(&self);

    /// A hop in this generation was answered.
    fn after_hop(&self, generation: u64);

    /// A thread is about to build tables beside the rounds.
    fn before_build(&self);

    /// The microseconds since some moment, where there is a clock.
    fn micros(&self) -> u64 {
        0
    }
}

/// Nothing is held up, and there is no clock.
#[derive(Clone, Copy, Drop)]
pub struct OpenGate;

impl Gate for OpenGate {
    fn before_launch(&self) {}

    fn after_hop(&self, _generation: u64) {}

    fn before_build(&self) {}
}
