// What a live service has of the system's clock.
use committer_thread::Gate;
use std::rt::Clock;

/// A gate at which nothing is held up, with the system's clock.
#[derive(Drop)]
pub(crate) struct ClockedGate<'a, R> {
    rt: &'a R,
}

impl<'a, R> ClockedGate<'a, R> {
    pub(crate) fn new(rt: &'a R) -> ClockedGate<'a, R> {
        ClockedGate { rt }
    }
}

impl<R: Clock> Gate for ClockedGate<'_, R> {
    fn before_launch(&self) {}

    fn after_hop(&self, _generation: u64) {}

    fn before_build(&self) {}

    fn micros(&self) -> u64 {
        match self.rt.monotonic() {
            Ok(since) => u64::try_from(since.as_micros()).unwrap_or(u64::MAX),
            Err(_) => 0,
        }
    }
}
