// Why lines end early.

/// Why the reading of lines, or the printing of their answers, ended before its end.
#[derive(Clone, Copy, Drop)]
pub enum LineFault {
    /// A read of the input failed, or a write of the output.
    Failed,
    /// Memory ran out.
    Memory,
    /// The system made no thread.
    NoThread,
    /// Two parts of the service disagree. No run is known that ends so.
    Internal,
}
