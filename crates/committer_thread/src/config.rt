// How many threads a service has.
/// How many editors and forwarders there are, and places in the queue: 1 to 64 of each.
#[derive(Clone, Copy, Drop)]
pub struct ServiceConfig {
    pub editors: u8,
    pub forwarders: u8,
    pub places: u8,
}
