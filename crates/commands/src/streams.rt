//! What a run of the program reads, and where it prints.
/// What a run of the program reads, and where it prints.
#[derive(Drop)]
pub struct Streams<S, O, E> {
    /// What `serve` reads, to its end. No other command reads.
    pub script: S,
    /// Where answers are printed.
    pub out: O,
    /// Where faults are told.
    pub err: E,
}
