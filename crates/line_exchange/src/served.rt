//! How a service ended.
use command_output::Fault;

/// How a service ended.
#[derive(Clone, Copy, Debug, PartialEq, Eq, Drop)]
pub enum Served {
    /// Its lines were printed.
    Printed,
    /// A fault ended it, and was told.
    Told(Fault),
    /// A fault ended it, and telling it failed.
    Untold(Fault),
}
