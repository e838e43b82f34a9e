// Where a worker stands.
use line_exchange::{LineQueues, Stream};
use packet_ways::BoardName;
use service_actors::Coordinator;
use std::alloc::Global;
use std::sync::Wait;

/// Where a worker of a service stands: what it works by, the lock at which all threads wait, and the lines with their answers.
#[derive(Drop)]
pub struct Workplace<'a, J: Stream, B: BoardName, R> {
    pub rt: &'a R,
    pub alloc: Global,
    pub coordinator: &'a Coordinator<B>,
    pub exchange: &'a LineQueues<J, B>,
}

impl<'a, J: Stream, B: BoardName, R: Wait> Workplace<'a, J, B, R> {
    // Waits until all answers before a place are printed. False where all stop.
    pub(crate) fn await_turn(&self, place: u64) -> bool {
        for _ in self.rt.forever() {
            if self.coordinator.stopped(self.rt) {
                return false;
            }
            if self.exchange.is_turn(self.rt, place) {
                return true;
            }
        }
        false
    }
}
